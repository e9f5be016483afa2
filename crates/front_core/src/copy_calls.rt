// The calls that copy between buffers and map them.
ghost use Rattle.std.specs.Prelude.{◌≡◌, ◌≤◌, true, false, IfOk, OnErr, is_err};
ghost use Rattle.vk_device.specs.Faults.{HasCause};
ghost use Rattle.front_model.specs.Stands.{Owns};
ghost use Rattle.front_moves.specs.Core.{face};
ghost use Rattle.front_core.specs.Share.{MayCall, IsCarriedOut, HaveIndexes};
ghost use Rattle.back_core.specs.Frame.{ActsAtBack};
ghost use Rattle.front_core.specs.Economy.{IsTrueReason};

use crate::copy_calls_come_to::copy_calls_come_to;
use crate::share::Share;
use back_core::BackLink;
use gl_calls::{AccessWord, BufferTarget, Call, Reply};
use gl_state::map_buffer_range;
use vk_types::Stop;

impl Share {
    /// Copies a range of one bound buffer to a range of another, by one copy on the device and without a wait (OpenGL ES 3.0.6, Copying Between Buffers).
    pub(crate) fn copy_buffer_sub_data<L: BackLink>(
        &mut self,
        link: &mut L,
        thread: u32,
        from: BufferTarget,
        to: BufferTarget,
        read: i64,
        write: i64,
        size: i64,
    ) -> Result<Reply, Stop>
        requires indexes { HaveIndexes self.old.state.contexts self.old.serials (face self.old.core).group }
        requires may { MayCall (face self.old.core) (L.state link.old) self.old.state thread (Call.CopyBufferSubData from to read write size) }
        ensures done { IfOk result (λ reply. IsCarriedOut (face self.old.core) (face self.new.core) (L.state link.old) (L.state link.new) self.old.state self.new.state thread (Call.CopyBufferSubData from to read write size) reply) }
        ensures serials { self.new.serials ≡ self.old.serials }
        ensures group { (face self.new.core).group ≡ (face self.old.core).group }
        ensures err { OnErr result (Owns (face self.new.core).objects (L.state link.new)) }
        ensures cause { HasCause (L.faults link.old) (L.faults link.new) result }
        ensures at_back { ActsAtBack L.state L.told link.old link.new 0 false (is_err result)
            (IsTrueReason (face self.old.core) self.old.state self.old.serials thread (Call.CopyBufferSubData from to read write size)) }
    {
        copy_calls_come_to();
        let Some((source, _)) = self.bound(thread, from) else {
            unreachable!();
        };
        let Some((target, _)) = self.bound(thread, to) else {
            unreachable!();
        };
        let Some(index) = self.index(thread) else {
            unreachable!();
        };
        if size == 0 {
            return Ok(Reply::Done);
        }
        match self.core.copy(
            link,
            index,
            source,
            read.unsigned_abs(),
            target,
            write.unsigned_abs(),
            size.unsigned_abs(),
        ) {
            Ok(()) => Ok(Reply::Done),
            Err(stop) => Err(stop),
        }
    }

    /// Maps a range of the bound buffer, once the device is done with it (OpenGL ES 3.0.6, Mapping and Unmapping Buffer Data).
    pub(crate) fn map_buffer_range<L: BackLink>(
        &mut self,
        link: &mut L,
        thread: u32,
        target: BufferTarget,
        offset: i64,
        length: i64,
        access: AccessWord,
    ) -> Result<Reply, Stop>
        requires indexes { HaveIndexes self.old.state.contexts self.old.serials (face self.old.core).group }
        requires may { MayCall (face self.old.core) (L.state link.old) self.old.state thread (Call.MapBufferRange target offset length access) }
        ensures done { IfOk result (λ reply. IsCarriedOut (face self.old.core) (face self.new.core) (L.state link.old) (L.state link.new) self.old.state self.new.state thread (Call.MapBufferRange target offset length access) reply) }
        ensures serials { self.new.serials ≡ self.old.serials }
        ensures group { (face self.new.core).group ≡ (face self.old.core).group }
        ensures err { OnErr result (Owns (face self.new.core).objects (L.state link.new)) }
        ensures cause { HasCause (L.faults link.old) (L.faults link.new) result }
        ensures at_back { ActsAtBack L.state L.told link.old link.new 0 true (is_err result)
            (IsTrueReason (face self.old.core) self.old.state self.old.serials thread (Call.MapBufferRange target offset length access)) }
    {
        copy_calls_come_to();
        let Some((buffer, _)) = self.bound(thread, target) else {
            unreachable!();
        };
        let Some(index) = self.index(thread) else {
            unreachable!();
        };
        match self.core.settle(link, index, buffer) {
            Ok(()) => {
                map_buffer_range(&mut self.state, thread, target, offset, length, access);
                Ok(Reply::Done)
            }
            Err(stop) => Err(stop),
        }
    }
}
