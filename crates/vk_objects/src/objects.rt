// Live objects by their numbers.
ghost use Rattle.std.specs.Prelude.{◌≡◌, ◌+◌, ℕ, [], None, Some, IsSome, OnOk, OnErr, option_map};
ghost use Rattle.std.specs.Prelude.{◌<◌, ◌^◌, length};
ghost use Rattle.vk_model.specs.Texels.{texel_bytes};
ghost use Rattle.vk_model.specs.Fitting.{size_of, IsKind, IsImage};
ghost use Rattle.std.specs.Option.{option_copied};
ghost use Rattle.vk_objects.specs.Images.{kind_of_shape};
ghost use Rattle.vk_objects.specs.Objects.{object_at, kind_of, bytes_of, count_of, new_object, HasSize, IsUnchanged, SetsBytes, SetsObject};

use crate::shapes::Shape;
use cells::Bytes;
use std::alloc::{AllocError, Global};
use std::collections::BTreeMap;
use std::mem;
use vk_types::{HandleId, Kind};

/// A live object.
#[derive(Debug, Drop)]
pub(crate) struct Object {
    kind: Kind,
    bytes: Bytes,
}

/// The bytes of one texel of a format.
pub(crate) fn texel_size(format: u8) -> usize
    requires { format < 12 }
    ensures { result ≡ texel_bytes format }
{
    match format {
        0 | 1 => 1,
        2 | 3 | 6 => 2,
        10 | 11 => 16,
        _ => 4,
    }
}

/// How many bytes an object of this kind has.
fn size(kind: Kind) -> usize
    requires { IsKind kind }
    ensures { result ≡ size_of kind }
{
    match kind {
        Kind::Buffer { size } => size as usize,
        Kind::Image {
            format,
            width,
            height,
        } => width as usize * height as usize * texel_size(format),
    }
}

/// The live objects of a device, with the kind and the bytes of each.
#[derive(Debug, Drop)]
pub struct Objects {
    map: BTreeMap<u64, Object>,
    alloc: Global,
}

impl Objects {
    /// No objects. This takes no memory.
    pub fn new(alloc: Global) -> Objects
        ensures none { (id : ℕ) → object_at result id ≡ None }
        ensures count { count_of result ≡ 0 }
    {
        Objects {
            map: BTreeMap::new(alloc),
            alloc,
        }
    }

    /// Adds an object, whose bytes are all 0. An image has at most 2048 columns and rows.
    pub fn insert(&mut self, id: HandleId, kind: Kind) -> Result<(), AllocError>
        requires kind { IsKind kind }
        requires new { kind_of self.old id.0 ≡ None }
        ensures ok { OnOk result (SetsObject self.old self.new id.0 (Some (new_object kind))) }
        ensures count { OnOk result (count_of self.new ≡ count_of self.old + 1) }
        ensures err { OnErr result (IsUnchanged self.old self.new) }
        ensures err_count { OnErr result (count_of self.new ≡ count_of self.old) }
    {
        let bytes = Bytes::zeroed(self.alloc, size(kind))?;
        self.map.insert(id.0, Object { kind, bytes })?;
        Ok(())
    }

    /// How many objects are live.
    pub fn count(&self) -> usize
        ensures { result ≡ count_of self.now }
    {
        self.map.len()
    }

    /// The kind of a live object.
    pub fn kind(&self, id: HandleId) -> Option<Kind>
        ensures { result ≡ kind_of self.now id.0 }
    {
        match self.map.get(&id.0) {
            Some(object) => Some(object.kind),
            None => None,
        }
    }

    /// The shape of a live image.
    pub(crate) fn shape(&self, id: HandleId) -> Shape
        requires image { IsImage (kind_of self.now id.0) }
        requires sized { HasSize (kind_of self.now id.0) (bytes_of self.now id.0) }
        ensures { kind_of self.now id.0 ≡ Some (kind_of_shape result) }
    {
        match self.kind(id) {
            Some(
                Kind::Image {
                    format,
                    width,
                    height,
                },
            ) => Shape {
                format,
                width,
                height,
            },
            Some(Kind::Buffer { .. }) | None => unreachable!(),
        }
    }

    /// The bytes of a live object.
    pub fn bytes(&self, id: HandleId) -> Option<&[u8]>
        ensures { option_copied result ≡ option_map (λ o. o.bytes) (object_at self.now id.0) }
    {
        match self.map.get(&id.0) {
            Some(object) => Some(object.bytes.as_slice()),
            None => None,
        }
    }

    /// How many bytes a live object has.
    pub(crate) fn byte_count(&self, id: HandleId) -> usize
        requires { IsSome (kind_of self.now id.0) }
        ensures value { result ≡ length (bytes_of self.now id.0) }
        ensures small { length (bytes_of self.now id.0) < 2 ^ 64 }
    {
        match self.map.get(&id.0) {
            Some(object) => object.bytes.len(),
            None => unreachable!(),
        }
    }

    /// Takes the bytes of a live object, which is left without bytes.
    pub fn take(&mut self, id: HandleId) -> Bytes
        requires { IsSome (kind_of self.old id.0) }
        ensures bytes { result ≡ bytes_of self.old id.0 }
        ensures taken { SetsBytes self.old self.new id.0 [] }
        ensures small { length result < 2 ^ 64 }
    {
        let empty = Bytes::of(Vec::new(self.alloc));
        let bytes = match self.map.get_mut(&id.0) {
            Some(object) => mem::replace(&mut object.bytes, empty),
            None => unreachable!(),
        };
        let _len = bytes.len();
        bytes
    }

    /// Gives a live object its bytes.
    pub fn put_back(&mut self, id: HandleId, bytes: Bytes)
        requires { IsSome (kind_of self.old id.0) }
        ensures { SetsBytes self.old self.new id.0 bytes }
    {
        match self.map.get_mut(&id.0) {
            Some(object) => object.bytes = bytes,
            None => unreachable!(),
        }
    }

    /// Ends a live object.
    pub fn remove(&mut self, id: HandleId)
        requires { IsSome (kind_of self.old id.0) }
        ensures removed { SetsObject self.old self.new id.0 None }
        ensures count { count_of self.new + 1 ≡ count_of self.old }
    {
        self.map.remove(&id.0);
    }
}
