// How stores are made and put into objects.
ghost use Rattle.std.specs.Prelude.{◌≡◌, ℕ, ◌+◌, ◌==◌, ◌<◌, ◌≤◌, if◌then◌else◌, false, Some, None, length, OnOk, OnErr, IfOk, is_err};
ghost use Rattle.vk_device.specs.Faults.{HasCause};
ghost use Rattle.resource_use.specs.Uses.{number_of};
ghost use Rattle.vk_types.specs.declared.handles.Kind.TheVariants as kind;
ghost use Rattle.front_model.specs.Face.{put_object, outline_at, view, recorded};
ghost use Rattle.front_model.specs.Stands.{Holds, Owns, Moved, no_hands};
ghost use Rattle.front_moves.specs.Core.{face, in_hand, HasFresh, IsQuietBut, new_outline};
ghost use Rattle.back_core.specs.Frame.{ActsAtBack, NoBatch};

use crate::group_core::Core;
use crate::stores_come_to::{begin_comes_to, blank_comes_to, filled_comes_to};
use back_core::BackLink;
use front_model::Object;
use garbage::Garbage;
use object_helper::ObjectHelper;
use resource_use::ResourceUse;
use vk_types::{Handle, Kind, QueueSerial, Stop};

impl Core {
    /// Makes a buffer of the device of so many bytes, none of which is defined.
    pub(crate) fn blank<L: BackLink>(&self, link: &mut L, size: u64) -> Result<Handle, Stop>
        requires holds { Holds (face self.now) no_hands (L.state link.old) }
        requires some { 0 < size }
        ensures ok { IfOk result (λ id. HasFresh (face self.now) (L.state link.old) (L.state link.new) id.0 (kind.Buffer size) None) }
        ensures err { OnErr result (Owns (face self.now).objects (L.state link.new)) }
        ensures cause { HasCause (L.faults link.old) (L.faults link.new) result }
        ensures at_back { ActsAtBack L.state L.told link.old link.new 0 false (is_err result) NoBatch }
    {
        blank_comes_to();
        link.create(Kind::Buffer { size })
    }

    /// Makes a buffer of the device that has these bytes.
    pub(crate) fn filled<L: BackLink>(&self, link: &mut L, bytes: &[u8]) -> Result<Handle, Stop>
        requires holds { Holds (face self.now) no_hands (L.state link.old) }
        requires some { 0 < length bytes.now }
        ensures ok { IfOk result (λ id. HasFresh (face self.now) (L.state link.old) (L.state link.new) id.0 (kind.Buffer (length bytes.now)) (Some bytes.now)) }
        ensures err { OnErr result (Owns (face self.now).objects (L.state link.new)) }
        ensures cause { HasCause (L.faults link.old) (L.faults link.new) result }
        ensures at_back { ActsAtBack L.state L.told link.old link.new (length bytes.now) false (is_err result) NoBatch }
    {
        filled_comes_to();
        match self.blank(link, bytes.len() as u64) {
            Ok(handle) => match link.write_host(handle.id(), 0, bytes) {
                Ok(()) => Ok(handle),
                Err(stop) => {
                    link.abandon(handle);
                    Err(stop)
                }
            },
            Err(stop) => Err(stop),
        }
    }

    /// Makes a staging buffer that has these bytes, with its one use.
    pub(crate) fn staged<L: BackLink>(
        &self,
        link: &mut L,
        serial: QueueSerial,
        bytes: &[u8],
    ) -> Result<Garbage, Stop>
        requires holds { Holds (face self.now) no_hands (L.state link.old) }
        requires some { 0 < length bytes.now }
        ensures ok { IfOk result (λ g. HasFresh (face self.now) (L.state link.old) (L.state link.new) g.handle.0 (kind.Buffer (length bytes.now)) (Some bytes.now)) }
        ensures uses { IfOk result (λ g. (i : ℕ) → number_of g.uses i ≡ (if i == serial.index then serial.number else 0)) }
        ensures err { OnErr result (Owns (face self.now).objects (L.state link.new)) }
        ensures cause { HasCause (L.faults link.old) (L.faults link.new) result }
        ensures at_back { ActsAtBack L.state L.told link.old link.new (length bytes.now) false (is_err result) NoBatch }
    {
        filled_comes_to();
        let mut uses = ResourceUse::new(self.alloc);
        if uses.note(serial).is_err() {
            return Err(Stop::Memory);
        }
        match self.filled(link, bytes) {
            Ok(handle) => Ok(Garbage { handle, uses }),
            Err(stop) => Err(stop),
        }
    }

    /// Puts a store that was just made into an object that has none.
    pub(crate) fn begin<L: BackLink>(
        &mut self,
        link: &mut L,
        object: Object,
        fresh: Handle,
        kind: Kind,
    ) -> Result<(), Stop>
        requires holds { Holds (face self.old) (in_hand fresh.0 kind) (L.state link.old) }
        requires none { (face self.old).objects object ≡ None }
        ensures moved { OnOk result (Moved (face self.new) (L.state link.new)
            (put_object (view (face self.old) (L.state link.old)) object (recorded (face self.old) (L.state link.old) fresh.0))
            (put_object (outline_at (face self.old)) object (Some (new_outline kind)))
            (IsQuietBut (face self.old) (L.state link.old) object)) }
        ensures group { (face self.new).group ≡ (face self.old).group }
        ensures err { OnErr result (Owns (face self.new).objects (L.state link.new)) }
        ensures cause { HasCause (L.faults link.old) (L.faults link.new) result }
        ensures at_back { ActsAtBack L.state L.told link.old link.new 0 false (is_err result) NoBatch }
    {
        begin_comes_to();
        filled_comes_to();
        match self
            .objects
            .insert(object, ObjectHelper::new(self.alloc, fresh, kind))
        {
            Ok(()) => Ok(()),
            Err(store) => {
                let Garbage { handle, uses: _ } = store.into_garbage();
                link.abandon(handle);
                Err(Stop::Memory)
            }
        }
    }
}
