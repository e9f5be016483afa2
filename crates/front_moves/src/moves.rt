// The moves on the buffers of a share group.
ghost use Rattle.std.specs.Prelude.{◌≡◌, ◌≢◌, ℕ, ◌+◌, ◌<◌, ◌≤◌, ◌⊎◌, ◌==◌, not, true, false, Some, None, [], ◌∷◌, length, OnOk, OnErr, is_err};
ghost use Rattle.cells.specs.Contents.{cells, Agrees};
ghost use Rattle.vk_device.specs.Faults.{HasCause};
ghost use Rattle.back_core.specs.Link.{fetched};
ghost use Rattle.back_core.specs.Needs.{IsOfGroup};
ghost use Rattle.front_model.specs.declared.object.Object.TheVariants.{Buffer};
ghost use Rattle.front_model.specs.Face.{put_object, outline_at, view};
ghost use Rattle.front_model.specs.Stands.{Holds, Owns, Moved, IsQuiet, no_hands};
ghost use Rattle.front_model.specs.Wanted.{with_bytes, with_copy};
ghost use Rattle.front_moves.specs.Core.{face, HasBytes, IsQuietBut, outline_of_size, new_cells};
ghost use Rattle.back_core.specs.Frame.{ActsAtBack, NoBatch};
ghost use Rattle.front_moves.specs.Reasons.{IsParting, IsSettling};

use crate::group_core::Core;
use crate::reading_comes_to::{host_comes_to, settle_comes_to};
use crate::stores_come_to::end_comes_to;
use back_core::BackLink;
use front_model::Object;
use vk_types::{Kind, QueueSerial, Reason, SerialIndex, Stop};

impl Core {
    /// Writes bytes into a range of a buffer by a copy on the device, from a staging buffer that is given away.
    pub fn upload<L: BackLink>(
        &mut self,
        link: &mut L,
        index: SerialIndex,
        buffer: u32,
        at: u64,
        bytes: &[u8],
    ) -> Result<(), Stop>
        requires holds { Holds (face self.old) no_hands (L.state link.old) }
        requires group { IsOfGroup (face self.old).group index }
        requires store { (size : ℕ) × HasBytes (face self.old) buffer size × (at + length bytes.now ≤ size) }
        requires some { 0 < length bytes.now }
        ensures moved { OnOk result (Moved (face self.new) (L.state link.new)
            (put_object (view (face self.old) (L.state link.old)) (Buffer buffer) (with_bytes (view (face self.old) (L.state link.old) (Buffer buffer)) at bytes.now))
            (outline_at (face self.old)) (IsQuietBut (face self.old) (L.state link.old) (Buffer buffer))) }
        ensures group { (face self.new).group ≡ (face self.old).group }
        ensures err { OnErr result (Owns (face self.new).objects (L.state link.new)) }
        ensures cause { HasCause (L.faults link.old) (L.faults link.new) result }
        ensures at_back { ActsAtBack L.state L.told link.old link.new (length bytes.now) false (is_err result) (IsParting (face self.old) index ((Buffer buffer, false) ∷ [])) }
    {
        match self.prepare(link, index, Object::Buffer(buffer), false) {
            Ok(()) => {
                let number = self.next_serial(link, index).number;
                let len = bytes.len() as u64;
                match self.staged(link, QueueSerial { index, number }, bytes) {
                    Ok(staging) => self.record_upload(
                        link,
                        QueueSerial { index, number },
                        staging,
                        buffer,
                        at,
                        len,
                    ),
                    Err(stop) => Err(stop),
                }
            }
            Err(stop) => Err(stop),
        }
    }

    /// Copies a range of a buffer to a range of a buffer on the device. The ranges of one buffer are apart.
    pub fn copy<L: BackLink>(
        &mut self,
        link: &mut L,
        index: SerialIndex,
        src: u32,
        src_at: u64,
        dst: u32,
        dst_at: u64,
        size: u64,
    ) -> Result<(), Stop>
        requires holds { Holds (face self.old) no_hands (L.state link.old) }
        requires group { IsOfGroup (face self.old).group index }
        requires source { (len : ℕ) × HasBytes (face self.old) src len × (src_at + size ≤ len) }
        requires target { (len : ℕ) × HasBytes (face self.old) dst len × (dst_at + size ≤ len) }
        requires some { 0 < size }
        requires apart { src ≡ dst → (src_at + size ≤ dst_at) ⊎ (dst_at + size ≤ src_at) }
        ensures moved { OnOk result (Moved (face self.new) (L.state link.new)
            (put_object (view (face self.old) (L.state link.old)) (Buffer dst)
            (with_copy (view (face self.old) (L.state link.old) (Buffer dst)) dst_at size (view (face self.old) (L.state link.old) (Buffer src)) src_at))
            (outline_at (face self.old)) (λ o. IsQuietBut (face self.old) (L.state link.old) (Buffer dst) o × (o ≢ Buffer src))) }
        ensures group { (face self.new).group ≡ (face self.old).group }
        ensures err { OnErr result (Owns (face self.new).objects (L.state link.new)) }
        ensures cause { HasCause (L.faults link.old) (L.faults link.new) result }
        ensures at_back { ActsAtBack L.state L.told link.old link.new 0 false (is_err result) (IsParting (face self.old) index ((Buffer src, not (src == dst)) ∷ (Buffer dst, false) ∷ [])) }
    {
        let reads = src != dst;
        match self.prepare(link, index, Object::Buffer(src), reads) {
            Ok(()) => match self.prepare(link, index, Object::Buffer(dst), false) {
                Ok(()) => {
                    let serial = self.next_serial(link, index);
                    self.record_copy(link, serial, src, src_at, dst, dst_at, size)
                }
                Err(stop) => Err(stop),
            },
            Err(stop) => Err(stop),
        }
    }

    /// Gives a buffer a new store that has these bytes, and gives the old store away.
    pub fn store<L: BackLink>(
        &mut self,
        link: &mut L,
        buffer: u32,
        bytes: &[u8],
    ) -> Result<(), Stop>
        requires holds { Holds (face self.old) no_hands (L.state link.old) }
        ensures moved { OnOk result (Moved (face self.new) (L.state link.new)
            (put_object (view (face self.old) (L.state link.old)) (Buffer buffer) (new_cells (Some bytes.now)))
            (put_object (outline_at (face self.old)) (Buffer buffer) (outline_of_size (length bytes.now)))
            (IsQuietBut (face self.old) (L.state link.old) (Buffer buffer))) }
        ensures group { (face self.new).group ≡ (face self.old).group }
        ensures err { OnErr result (Owns (face self.new).objects (L.state link.new)) }
        ensures cause { HasCause (L.faults link.old) (L.faults link.new) result }
        ensures at_back { ActsAtBack L.state L.told link.old link.new (length bytes.now) false (is_err result) NoBatch }
    {
        self.end(link, Object::Buffer(buffer));
        if bytes.is_empty() {
            return Ok(());
        }
        match self.filled(link, bytes) {
            Ok(fresh) => self.begin(
                link,
                Object::Buffer(buffer),
                fresh,
                Kind::Buffer {
                    size: bytes.len() as u64,
                },
            ),
            Err(stop) => Err(stop),
        }
    }

    /// Gives a buffer a new store of so many bytes, none of which is defined, and gives the old store away.
    pub fn store_blank<L: BackLink>(
        &mut self,
        link: &mut L,
        buffer: u32,
        size: u64,
    ) -> Result<(), Stop>
        requires holds { Holds (face self.old) no_hands (L.state link.old) }
        ensures moved { OnOk result (Moved (face self.new) (L.state link.new)
            (put_object (view (face self.old) (L.state link.old)) (Buffer buffer) (new_cells None))
            (put_object (outline_at (face self.old)) (Buffer buffer) (outline_of_size size))
            (IsQuietBut (face self.old) (L.state link.old) (Buffer buffer))) }
        ensures group { (face self.new).group ≡ (face self.old).group }
        ensures err { OnErr result (Owns (face self.new).objects (L.state link.new)) }
        ensures cause { HasCause (L.faults link.old) (L.faults link.new) result }
        ensures at_back { ActsAtBack L.state L.told link.old link.new 0 false (is_err result) NoBatch }
    {
        self.end(link, Object::Buffer(buffer));
        if size == 0 {
            return Ok(());
        }
        match self.blank(link, size) {
            Ok(fresh) => self.begin(link, Object::Buffer(buffer), fresh, Kind::Buffer { size }),
            Err(stop) => Err(stop),
        }
    }

    /// Ends the store of an object, if it has one, and gives it away.
    pub fn end<L: BackLink>(&mut self, link: &mut L, object: Object)
        requires holds { Holds (face self.old) no_hands (L.state link.old) }
        ensures moved { Moved (face self.new) (L.state link.new)
            (put_object (view (face self.old) (L.state link.old)) object (new_cells None))
            (put_object (outline_at (face self.old)) object None) (IsQuietBut (face self.old) (L.state link.old) object) }
        ensures pending { (face self.new).pending ≡ (face self.old).pending }
        ensures group { (face self.new).group ≡ (face self.old).group }
        ensures faults { L.faults link.old ≤ L.faults link.new }
        ensures at_back { ActsAtBack L.state L.told link.old link.new 0 false false NoBatch }
    {
        end_comes_to();
        if let Some(store) = self.objects.take(object) {
            link.give(store.into_garbage());
        }
    }

    /// Sees that the host may read and write a buffer: nothing that touches it is pending, all that was handed to the back and
    /// touches it was retired, and what nodes wrote is known to the host.
    pub fn settle<L: BackLink>(
        &mut self,
        link: &mut L,
        index: SerialIndex,
        buffer: u32,
    ) -> Result<(), Stop>
        requires holds { Holds (face self.old) no_hands (L.state link.old) }
        requires group { IsOfGroup (face self.old).group index }
        requires store { (size : ℕ) × HasBytes (face self.old) buffer size }
        ensures moved { OnOk result (Moved (face self.new) (L.state link.new) (view (face self.old) (L.state link.old)) (outline_at (face self.old)) (IsQuiet (face self.old) (L.state link.old))) }
        ensures quiet { OnOk result (IsQuiet (face self.new) (L.state link.new) (Buffer buffer)) }
        ensures group { (face self.new).group ≡ (face self.old).group }
        ensures err { OnErr result (Owns (face self.new).objects (L.state link.new)) }
        ensures cause { HasCause (L.faults link.old) (L.faults link.new) result }
        ensures at_back { ActsAtBack L.state L.told link.old link.new 0 true (is_err result) (IsSettling (face self.old) index (Buffer buffer)) }
    {
        settle_comes_to();
        match self.prepare(link, index, Object::Buffer(buffer), false) {
            Ok(()) => {
                let serial = self.next_serial(link, index);
                match self.record_opening(link, serial, buffer) {
                    Ok(()) => match self.part(
                        link,
                        index,
                        Object::Buffer(buffer),
                        false,
                        Reason::Read,
                    ) {
                        Ok(()) => self.wait_for_uses(link, Object::Buffer(buffer)),
                        Err(stop) => Err(stop),
                    },
                    Err(stop) => Err(stop),
                }
            }
            Err(stop) => Err(stop),
        }
    }

    /// Reads a range of a buffer that the host may use.
    pub fn read<L: BackLink>(
        &mut self,
        link: &mut L,
        buffer: u32,
        at: u64,
        out: &mut [u8],
    ) -> Result<(), Stop>
        requires holds { Holds (face self.old) no_hands (L.state link.old) }
        requires quiet { IsQuiet (face self.old) (L.state link.old) (Buffer buffer) }
        requires store { (size : ℕ) × HasBytes (face self.old) buffer size × (at + length out.old ≤ size) }
        requires some { 0 < length out.old }
        ensures moved { OnOk result (Moved (face self.new) (L.state link.new) (view (face self.old) (L.state link.old)) (outline_at (face self.old)) (IsQuiet (face self.old) (L.state link.old))) }
        ensures bytes { OnOk result (Agrees out.new (cells (length out.old) (λ k. view (face self.old) (L.state link.old) (Buffer buffer) (at + k)))) }
        ensures fetched { OnOk result ((id : ℕ) × (L.state link.new ≡ fetched (L.state link.old) id at out.new)) }
        ensures group { (face self.new).group ≡ (face self.old).group }
        ensures pending { (face self.new).pending ≡ (face self.old).pending }
        ensures last { (face self.new).last ≡ (face self.old).last }
        ensures err { OnErr result (Owns (face self.new).objects (L.state link.new)) }
        ensures cause { HasCause (L.faults link.old) (L.faults link.new) result }
        ensures at_back { ActsAtBack L.state L.told link.old link.new 0 false (is_err result) NoBatch }
    {
        host_comes_to();
        let id = match self.objects.get(Object::Buffer(buffer)) {
            Some(store) => store.id(),
            None => return Ok(()),
        };
        match link.read_host(id, at, out) {
            Ok(()) => {
                self.objects.hear(Object::Buffer(buffer));
                Ok(())
            }
            Err(stop) => Err(stop),
        }
    }

    /// Writes bytes into a buffer that the host may use.
    pub fn write<L: BackLink>(
        &self,
        link: &mut L,
        buffer: u32,
        at: u64,
        bytes: &[u8],
    ) -> Result<(), Stop>
        requires holds { Holds (face self.now) no_hands (L.state link.old) }
        requires quiet { IsQuiet (face self.now) (L.state link.old) (Buffer buffer) }
        requires store { (size : ℕ) × HasBytes (face self.now) buffer size × (at + length bytes.now ≤ size) }
        requires some { 0 < length bytes.now }
        ensures moved { OnOk result (Moved (face self.now) (L.state link.new)
            (put_object (view (face self.now) (L.state link.old)) (Buffer buffer) (with_bytes (view (face self.now) (L.state link.old) (Buffer buffer)) at bytes.now))
            (outline_at (face self.now)) (IsQuiet (face self.now) (L.state link.old))) }
        ensures err { OnErr result (Owns (face self.now).objects (L.state link.new)) }
        ensures cause { HasCause (L.faults link.old) (L.faults link.new) result }
        ensures at_back { ActsAtBack L.state L.told link.old link.new (length bytes.now) false (is_err result) NoBatch }
    {
        host_comes_to();
        match self.objects.get(Object::Buffer(buffer)) {
            Some(store) => {
                // the size is a number of 64 bits, so the range does not go past the last place
                let _size = store.size();
                link.write_host(store.id(), at, bytes)
            }
            None => Ok(()),
        }
    }
}
