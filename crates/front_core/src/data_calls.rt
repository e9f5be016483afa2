// The calls that fill buffers.
ghost use Rattle.std.specs.Prelude.{◌≡◌, ◌+◌, ◌≤◌, false, [], ◌∷◌, IfOk, IfSome, OnOk, OnErr, length, is_err};
ghost use Rattle.std.specs.Option.{option_map};
ghost use Rattle.gl_calls.specs.Words.{payload_len, payload_bytes};
ghost use Rattle.vk_device.specs.Faults.{HasCause};
ghost use Rattle.back_core.specs.Needs.{IsOfGroup};
ghost use Rattle.front_model.specs.declared.object.Object.TheVariants.{Buffer};
ghost use Rattle.front_model.specs.Face.{put_object, outline_at, view};
ghost use Rattle.front_model.specs.Stands.{Holds, Owns, Moved, no_hands};
ghost use Rattle.front_moves.specs.Core.{face, IsQuietBut, outline_of_size, new_cells};
ghost use Rattle.front_core.specs.Share.{MayCall, IsCarriedOut, HaveIndexes};
ghost use Rattle.front_core.specs.Filled.{IsFilled};
ghost use Rattle.back_core.specs.Frame.{ActsAtBack, NoBatch};
ghost use Rattle.front_moves.specs.Reasons.{IsParting};
ghost use Rattle.front_core.specs.Economy.{IsTrueReason, data_len};

use crate::data_calls_come_to::{buffers_are_filled, data_calls_come_to};
use crate::share::Share;
use back_core::BackLink;
use gl_calls::{BufferTarget, Call, Payload, Reply, Usage};
use vk_types::{SerialIndex, Stop};

impl Share {
    /// Gives the bound buffer a new store, with data or without (OpenGL ES 3.0.6, Creating and Binding Buffer Objects).
    pub(crate) fn buffer_data<L: BackLink>(
        &mut self,
        link: &mut L,
        thread: u32,
        target: BufferTarget,
        size: i64,
        usage: Usage,
        payload: &Option<Payload>,
    ) -> Result<Reply, Stop>
        requires may { MayCall (face self.old.core) (L.state link.old) self.old.state thread (Call.BufferData target size usage payload.now) }
        ensures done { IfOk result (λ reply. IsCarriedOut (face self.old.core) (face self.new.core) (L.state link.old) (L.state link.new) self.old.state self.new.state thread (Call.BufferData target size usage payload.now) reply) }
        ensures serials { self.new.serials ≡ self.old.serials }
        ensures group { (face self.new.core).group ≡ (face self.old.core).group }
        ensures err { OnErr result (Owns (face self.new.core).objects (L.state link.new)) }
        ensures cause { HasCause (L.faults link.old) (L.faults link.new) result }
        ensures at_back { ActsAtBack L.state L.told link.old link.new (data_len payload.now) false (is_err result) NoBatch }
    {
        data_calls_come_to();
        let Some((buffer, _)) = self.bound(thread, target) else {
            unreachable!();
        };
        match self.new_store(link, buffer, size.unsigned_abs(), payload) {
            Ok(()) => {
                gl_state::buffer_data(&mut self.state, thread, target, size);
                Ok(Reply::Done)
            }
            Err(stop) => Err(stop),
        }
    }

    /// Gives a buffer a new store of this size, with data or without.
    fn new_store<L: BackLink>(
        &mut self,
        link: &mut L,
        buffer: u32,
        size: u64,
        payload: &Option<Payload>,
    ) -> Result<(), Stop>
        requires holds { Holds (face self.old.core) no_hands (L.state link.old) }
        requires its_data { IfSome payload.now (λ p. payload_len p ≡ size) }
        ensures moved { OnOk result (Moved (face self.new.core) (L.state link.new)
            (put_object (view (face self.old.core) (L.state link.old)) (Buffer buffer) (new_cells (option_map payload_bytes payload.now)))
            (put_object (outline_at (face self.old.core)) (Buffer buffer) (outline_of_size size))
            (IsQuietBut (face self.old.core) (L.state link.old) (Buffer buffer))) }
        ensures state { self.new.state ≡ self.old.state }
        ensures serials { self.new.serials ≡ self.old.serials }
        ensures group { (face self.new.core).group ≡ (face self.old.core).group }
        ensures err { OnErr result (Owns (face self.new.core).objects (L.state link.new)) }
        ensures cause { HasCause (L.faults link.old) (L.faults link.new) result }
        ensures at_back { ActsAtBack L.state L.told link.old link.new (data_len payload.now) false (is_err result) NoBatch }
    {
        buffers_are_filled();
        match payload {
            None => self.core.store_blank(link, buffer, size),
            Some(payload) => match payload.bytes(self.alloc) {
                Ok(bytes) => self.core.store(link, buffer, bytes.as_slice()),
                Err(_) => Err(Stop::Memory),
            },
        }
    }

    /// Writes data into a range of the bound buffer: into a new store where that is the whole buffer, and else by a copy on the device.
    pub(crate) fn buffer_sub_data<L: BackLink>(
        &mut self,
        link: &mut L,
        thread: u32,
        target: BufferTarget,
        offset: i64,
        payload: &Payload,
    ) -> Result<Reply, Stop>
        requires indexes { HaveIndexes self.old.state.contexts self.old.serials (face self.old.core).group }
        requires may { MayCall (face self.old.core) (L.state link.old) self.old.state thread (Call.BufferSubData target offset payload.now) }
        ensures done { IfOk result (λ reply. IsCarriedOut (face self.old.core) (face self.new.core) (L.state link.old) (L.state link.new) self.old.state self.new.state thread (Call.BufferSubData target offset payload.now) reply) }
        ensures serials { self.new.serials ≡ self.old.serials }
        ensures group { (face self.new.core).group ≡ (face self.old.core).group }
        ensures err { OnErr result (Owns (face self.new.core).objects (L.state link.new)) }
        ensures cause { HasCause (L.faults link.old) (L.faults link.new) result }
        ensures at_back { ActsAtBack L.state L.told link.old link.new (payload_len payload.now) false (is_err result)
            (IsTrueReason (face self.old.core) self.old.state self.old.serials thread (Call.BufferSubData target offset payload.now)) }
    {
        data_calls_come_to();
        let Some((buffer, facts)) = self.bound(thread, target) else {
            unreachable!();
        };
        let Some(index) = self.index(thread) else {
            unreachable!();
        };
        let Ok(bytes) = payload.bytes(self.alloc) else {
            return Err(Stop::Memory);
        };
        let at = offset.unsigned_abs();
        match self.fill(link, index, buffer, facts.size, at, bytes.as_slice()) {
            Ok(()) => Ok(Reply::Done),
            Err(stop) => Err(stop),
        }
    }

    /// Writes bytes into a range of a buffer of this size.
    fn fill<L: BackLink>(
        &mut self,
        link: &mut L,
        index: SerialIndex,
        buffer: u32,
        size: u64,
        at: u64,
        bytes: &[u8],
    ) -> Result<(), Stop>
        requires holds { Holds (face self.old.core) no_hands (L.state link.old) }
        requires of_group { IsOfGroup (face self.old.core).group index }
        requires store { outline_at (face self.old.core) (Buffer buffer) ≡ outline_of_size size }
        requires inside { at + length bytes.now ≤ size }
        ensures filled { OnOk result (IsFilled (face self.old.core) (face self.new.core) (L.state link.old) (L.state link.new) buffer size at bytes.now) }
        ensures state { self.new.state ≡ self.old.state }
        ensures serials { self.new.serials ≡ self.old.serials }
        ensures group { (face self.new.core).group ≡ (face self.old.core).group }
        ensures err { OnErr result (Owns (face self.new.core).objects (L.state link.new)) }
        ensures cause { HasCause (L.faults link.old) (L.faults link.new) result }
        ensures at_back { ActsAtBack L.state L.told link.old link.new (length bytes.now) false (is_err result) (IsParting (face self.old.core) index ((Buffer buffer, false) ∷ [])) }
    {
        buffers_are_filled();
        if bytes.is_empty() {
            return Ok(());
        }
        if at == 0 && bytes.len() as u64 == size {
            self.core.store(link, buffer, bytes)
        } else {
            self.core.upload(link, index, buffer, at, bytes)
        }
    }
}
