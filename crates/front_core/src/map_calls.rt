// The calls on maps of buffers.
ghost use Rattle.std.specs.Prelude.{◌≡◌, ◌+◌, ◌≤◌, false, IfOk, OnErr, is_err};
ghost use Rattle.gl_calls.specs.Words.{payload_len};
ghost use Rattle.vk_device.specs.Faults.{HasCause};
ghost use Rattle.front_model.specs.Stands.{Owns};
ghost use Rattle.front_moves.specs.Core.{face};
ghost use Rattle.front_core.specs.Share.{MayCall, IsCarriedOut, HasOrigin};
ghost use Rattle.back_core.specs.Frame.{ActsAtBack, NoBatch};

use crate::calls_come_to::map_calls_come_to;
use crate::share::Share;
use back_core::BackLink;
use cells::Bytes;
use gl_calls::{BufferTarget, Call, Payload, Reply};
use vk_types::Stop;

impl Share {
    /// Reads a range of the map of the bound buffer.
    pub(crate) fn map_read<L: BackLink>(
        &mut self,
        link: &mut L,
        thread: u32,
        target: BufferTarget,
        offset: i64,
        length: i64,
    ) -> Result<Reply, Stop>
        requires { MayCall (face self.old.core) (L.state link.old) self.old.state thread (Call.MapRead target offset length) }
        ensures done { IfOk result (λ reply. IsCarriedOut (face self.old.core) (face self.new.core) (L.state link.old) (L.state link.new) self.old.state self.new.state thread (Call.MapRead target offset length) reply) }
        ensures origin { IfOk result (λ reply. HasOrigin (L.state link.old) (L.state link.new) reply) }
        ensures serials { self.new.serials ≡ self.old.serials }
        ensures group { (face self.new.core).group ≡ (face self.old.core).group }
        ensures err { OnErr result (Owns (face self.new.core).objects (L.state link.new)) }
        ensures cause { HasCause (L.faults link.old) (L.faults link.new) result }
        ensures at_back { ActsAtBack L.state L.told link.old link.new 0 false (is_err result) NoBatch }
    {
        map_calls_come_to();
        let Some((buffer, place)) = self.mapped(thread, target) else {
            unreachable!();
        };
        let Ok(mut bytes) = Bytes::zeroed(self.alloc, length.unsigned_abs() as usize) else {
            return Err(Stop::Memory);
        };
        if length == 0 {
            return Ok(Reply::Bytes(bytes));
        }
        match self.core.read(
            link,
            buffer,
            place + offset.unsigned_abs(),
            bytes.as_mut_slice(),
        ) {
            Ok(()) => Ok(Reply::Bytes(bytes)),
            Err(stop) => Err(stop),
        }
    }

    /// Writes bytes into the map of the bound buffer.
    pub(crate) fn map_write<L: BackLink>(
        &mut self,
        link: &mut L,
        thread: u32,
        target: BufferTarget,
        offset: i64,
        payload: &Payload,
    ) -> Result<Reply, Stop>
        requires { MayCall (face self.old.core) (L.state link.old) self.old.state thread (Call.MapWrite target offset payload.now) }
        ensures done { IfOk result (λ reply. IsCarriedOut (face self.old.core) (face self.new.core) (L.state link.old) (L.state link.new) self.old.state self.new.state thread (Call.MapWrite target offset payload.now) reply) }
        ensures serials { self.new.serials ≡ self.old.serials }
        ensures group { (face self.new.core).group ≡ (face self.old.core).group }
        ensures err { OnErr result (Owns (face self.new.core).objects (L.state link.new)) }
        ensures cause { HasCause (L.faults link.old) (L.faults link.new) result }
        ensures at_back { ActsAtBack L.state L.told link.old link.new (payload_len payload.now) false (is_err result) NoBatch }
    {
        map_calls_come_to();
        let Some((buffer, place)) = self.mapped(thread, target) else {
            unreachable!();
        };
        let Ok(bytes) = payload.bytes(self.alloc) else {
            return Err(Stop::Memory);
        };
        if bytes.as_slice().is_empty() {
            return Ok(Reply::Done);
        }
        match self.core.write(
            link,
            buffer,
            place + offset.unsigned_abs(),
            bytes.as_slice(),
        ) {
            Ok(()) => Ok(Reply::Done),
            Err(stop) => Err(stop),
        }
    }
}
