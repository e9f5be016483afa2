// One call of a thread: it is refused, or carried out.
ghost use Rattle.std.specs.Prelude.{◌≡◌, ◌+◌, ◌≤◌, true, false, None, [], IfOk, IfSome, OnOk, OnErr, is_err};
ghost use Rattle.vk_device.specs.Faults.{HasCause};
ghost use Rattle.gl_model.specs.Refusal.{refusal};
ghost use Rattle.front_model.specs.Stands.{Owns};
ghost use Rattle.front_moves.specs.Core.{face};
ghost use Rattle.front_core.specs.Answering.{changes_contexts, reaches_buffers, reaches_syncs};
ghost use Rattle.front_core.specs.Share.{MayCall, IsCarriedOut, HaveIndexes, HasOrigin, IsReindexed, is_built, is_map_read};
ghost use Rattle.front_core.specs.Front.{MayAnswer, MayServe, IsServed, IsAnswered};
ghost use Rattle.front_core.specs.Polls.{Polls, Flushes};
ghost use Rattle.back_core.specs.Frame.{ActsAtBack};
ghost use Rattle.front_core.specs.Economy.{upload_due, IsNeededAnd, IsTrueReason, HasTrueReason, MayHandOver, due_of, waits_of, may_wait};

use crate::answers_come_to::answers_come_to;
use crate::share::Share;
use crate::syncs_come_to::syncs_come_to;
use back_core::BackLink;
use gl_calls::{Call, Reply};
use gl_errors::{Decision, decide};
use gl_state::refuse;
use sync_serials::SyncSerials;
use vk_types::Stop;

/// Whether a call creates, destroys or takes a context.
fn changes_contexts(call: &Call) -> bool
    ensures { result ≡ changes_contexts call.now }
{
    matches!(
        call,
        Call::CreateContext { .. } | Call::DestroyContext { .. } | Call::MakeCurrent { .. }
    )
}

/// Whether a call fills, copies, maps or reaches into buffers.
fn reaches_buffers(call: &Call) -> bool
    ensures { result ≡ reaches_buffers call.now }
{
    matches!(
        call,
        Call::BufferData { .. }
            | Call::BufferSubData { .. }
            | Call::CopyBufferSubData { .. }
            | Call::MapBufferRange { .. }
            | Call::MapRead { .. }
            | Call::MapWrite { .. }
    )
}

/// Whether a call makes, ends, asks for or waits for a sync, or flushes.
fn reaches_syncs(call: &Call) -> bool
    ensures { result ≡ reaches_syncs call.now }
{
    matches!(
        call,
        Call::CreateSync { .. }
            | Call::EglClientWaitSync { .. }
            | Call::DestroySync { .. }
            | Call::FenceSync { .. }
            | Call::ClientWaitSync { .. }
            | Call::WaitSync { .. }
            | Call::DeleteSync { .. }
            | Call::Flush
            | Call::Finish
    )
}

impl Share {
    /// Carries out a call that creates, destroys or takes a context.
    fn context_call<L: BackLink>(
        &mut self,
        link: &mut L,
        syncs: &SyncSerials,
        thread: u32,
        call: &Call,
    ) -> Result<Reply, Stop>
        requires which { changes_contexts call.now ≡ true }
        requires indexes { HaveIndexes self.old.state.contexts self.old.serials (face self.old.core).group }
        requires may { MayServe (face self.old.core) (L.state link.old) self.old.state self.old.serials syncs.now thread call.now }
        ensures done { IfOk result (λ reply. IsCarriedOut (face self.old.core) (face self.new.core) (L.state link.old) (L.state link.new) self.old.state self.new.state thread call.now reply) }
        ensures indexes { OnOk result (HaveIndexes self.new.state.contexts self.new.serials (face self.new.core).group) }
        ensures reindexed { OnOk result (IsReindexed call.now self.old.serials self.new.serials self.new.state.contexts) }
        ensures flushes { IfOk result (λ reply. Flushes self.old.state self.old.serials syncs.now thread call.now (face self.new.core) (L.state link.new) reply) }
        ensures group { (face self.new.core).group ≡ (face self.old.core).group }
        ensures err { OnErr result (Owns (face self.new.core).objects (L.state link.new)) }
        ensures cause { HasCause (L.faults link.old) (L.faults link.new) result }
        ensures at_back { ActsAtBack L.state L.told link.old link.new 0 false (is_err result)
            (IsNeededAnd syncs.now (IsTrueReason (face self.old.core) self.old.state self.old.serials thread call.now)) }
    {
        match call {
            Call::CreateContext { number } => self.create_context(link, thread, *number),
            Call::DestroyContext { number } => self.destroy_context(link, thread, *number),
            Call::MakeCurrent { number } => self.make_current(link, syncs, thread, *number),
            _ => unreachable!(),
        }
    }

    /// Carries out a call that fills, copies, maps or reaches into buffers.
    fn buffer_call<L: BackLink>(
        &mut self,
        link: &mut L,
        thread: u32,
        call: &Call,
    ) -> Result<Reply, Stop>
        requires which { reaches_buffers call.now ≡ true }
        requires indexes { HaveIndexes self.old.state.contexts self.old.serials (face self.old.core).group }
        requires may { MayCall (face self.old.core) (L.state link.old) self.old.state thread call.now }
        ensures done { IfOk result (λ reply. IsCarriedOut (face self.old.core) (face self.new.core) (L.state link.old) (L.state link.new) self.old.state self.new.state thread call.now reply) }
        ensures origin { IfOk result (λ reply. is_map_read call.now ≡ true → HasOrigin (L.state link.old) (L.state link.new) reply) }
        ensures serials { self.new.serials ≡ self.old.serials }
        ensures group { (face self.new.core).group ≡ (face self.old.core).group }
        ensures err { OnErr result (Owns (face self.new.core).objects (L.state link.new)) }
        ensures cause { HasCause (L.faults link.old) (L.faults link.new) result }
        ensures at_back { ActsAtBack L.state L.told link.old link.new (upload_due self.old.state thread call.now) (may_wait call.now) (is_err result)
            (IsTrueReason (face self.old.core) self.old.state self.old.serials thread call.now) }
    {
        match call {
            Call::BufferData {
                target,
                size,
                usage,
                payload,
            } => self.buffer_data(link, thread, *target, *size, *usage, payload),
            Call::BufferSubData {
                target,
                offset,
                payload,
            } => self.buffer_sub_data(link, thread, *target, *offset, payload),
            Call::CopyBufferSubData {
                from,
                to,
                read,
                write,
                size,
            } => self.copy_buffer_sub_data(link, thread, *from, *to, *read, *write, *size),
            Call::MapBufferRange {
                target,
                offset,
                length,
                access,
            } => self.map_buffer_range(link, thread, *target, *offset, *length, *access),
            Call::MapRead {
                target,
                offset,
                length,
            } => self.map_read(link, thread, *target, *offset, *length),
            Call::MapWrite {
                target,
                offset,
                payload,
            } => self.map_write(link, thread, *target, *offset, payload),
            _ => unreachable!(),
        }
    }

    /// Carries out a call that is not refused and changes no context's number.
    fn other_call<L: BackLink>(
        &mut self,
        link: &mut L,
        thread: u32,
        call: &Call,
    ) -> Result<Reply, Stop>
        requires which { is_built call.now ≡ true }
        requires others { changes_contexts call.now ≡ false }
        requires no_syncs { reaches_syncs call.now ≡ false }
        requires indexes { HaveIndexes self.old.state.contexts self.old.serials (face self.old.core).group }
        requires may { MayCall (face self.old.core) (L.state link.old) self.old.state thread call.now }
        ensures done { IfOk result (λ reply. IsCarriedOut (face self.old.core) (face self.new.core) (L.state link.old) (L.state link.new) self.old.state self.new.state thread call.now reply) }
        ensures origin { IfOk result (λ reply. is_map_read call.now ≡ true → HasOrigin (L.state link.old) (L.state link.new) reply) }
        ensures serials { self.new.serials ≡ self.old.serials }
        ensures group { (face self.new.core).group ≡ (face self.old.core).group }
        ensures err { OnErr result (Owns (face self.new.core).objects (L.state link.new)) }
        ensures cause { HasCause (L.faults link.old) (L.faults link.new) result }
        ensures at_back { ActsAtBack L.state L.told link.old link.new (upload_due self.old.state thread call.now) (may_wait call.now) (is_err result)
            (IsTrueReason (face self.old.core) self.old.state self.old.serials thread call.now) }
    {
        if reaches_buffers(call) {
            self.buffer_call(link, thread, call)
        } else {
            self.state_call(link, thread, call)
        }
    }

    /// Carries out a call that is not refused.
    pub(crate) fn carry_out<L: BackLink>(
        &mut self,
        link: &mut L,
        syncs: &mut SyncSerials,
        thread: u32,
        call: &Call,
    ) -> Result<Reply, Stop>
        requires built { is_built call.now ≡ true }
        requires indexes { HaveIndexes self.old.state.contexts self.old.serials (face self.old.core).group }
        requires may { MayServe (face self.old.core) (L.state link.old) self.old.state self.old.serials syncs.old thread call.now }
        ensures done { IfOk result (λ reply. IsServed (face self.old.core) (face self.new.core) (L.state link.old) (L.state link.new) self.old.state self.new.state
            self.old.serials self.new.serials syncs.old syncs.new thread call.now reply) }
        ensures indexes { OnOk result (HaveIndexes self.new.state.contexts self.new.serials (face self.new.core).group) }
        ensures origin { IfOk result (λ reply. is_map_read call.now ≡ true → HasOrigin (L.state link.old) (L.state link.new) reply) }
        ensures polls { IfOk result (λ reply. Polls syncs.old (L.state link.old) (L.state link.new) call.now reply) }
        ensures flushes { IfOk result (λ reply. Flushes self.old.state self.old.serials syncs.old thread call.now (face self.new.core) (L.state link.new) reply) }
        ensures group { (face self.new.core).group ≡ (face self.old.core).group }
        ensures err { OnErr result (Owns (face self.new.core).objects (L.state link.new)) }
        ensures cause { HasCause (L.faults link.old) (L.faults link.new) result }
        ensures at_back { ActsAtBack L.state L.told link.old link.new (upload_due self.old.state thread call.now) (may_wait call.now) (is_err result)
            (IsNeededAnd syncs.old (HasTrueReason (face self.old.core) self.old.state self.old.serials syncs.old thread call.now)) }
    {
        syncs_come_to();
        if reaches_syncs(call) {
            return match self.sync_call(link, syncs, thread, call) {
                Ok(reply) => Ok(reply),
                Err(stop) => Err(stop),
            };
        }
        if changes_contexts(call) {
            return match self.context_call(link, syncs, thread, call) {
                Ok(reply) => Ok(reply),
                Err(stop) => Err(stop),
            };
        }
        match self.other_call(link, thread, call) {
            Ok(reply) => Ok(reply),
            Err(stop) => Err(stop),
        }
    }

    /// Answers a call: a refusal changes errors alone.
    pub(crate) fn answer<L: BackLink>(
        &mut self,
        link: &mut L,
        syncs: &mut SyncSerials,
        thread: u32,
        call: &Call,
    ) -> Result<Reply, Stop>
        requires built { is_built call.now ≡ true }
        requires indexes { HaveIndexes self.old.state.contexts self.old.serials (face self.old.core).group }
        requires may { MayAnswer (face self.old.core) (L.state link.old) self.old.state self.old.serials syncs.old thread call.now }
        ensures done { IfOk result (λ reply. IsAnswered (face self.old.core) (face self.new.core) (L.state link.old) (L.state link.new) self.old.state self.new.state
            self.old.serials self.new.serials syncs.old syncs.new thread call.now reply) }
        ensures indexes { OnOk result (HaveIndexes self.new.state.contexts self.new.serials (face self.new.core).group) }
        ensures origin { IfOk result (λ reply. is_map_read call.now ≡ true → refusal self.old.state thread call.now ≡ None → HasOrigin (L.state link.old) (L.state link.new) reply) }
        ensures polls { IfOk result (λ reply. refusal self.old.state thread call.now ≡ None → Polls syncs.old (L.state link.old) (L.state link.new) call.now reply) }
        ensures flushes { IfOk result (λ reply. refusal self.old.state thread call.now ≡ None →
            Flushes self.old.state self.old.serials syncs.old thread call.now (face self.new.core) (L.state link.new) reply) }
        ensures group { (face self.new.core).group ≡ (face self.old.core).group }
        ensures err { OnErr result (Owns (face self.new.core).objects (L.state link.new)) }
        ensures cause { HasCause (L.faults link.old) (L.faults link.new) result }
        ensures at_back { ActsAtBack L.state L.told link.old link.new (due_of self.old.state thread call.now) (waits_of self.old.state thread call.now) (is_err result)
            (MayHandOver (face self.old.core) self.old.state self.old.serials syncs.old thread call.now) }
    {
        answers_come_to();
        match decide(self.state.group(), thread, call) {
            Decision::Refused(reply) => {
                refuse(&mut self.state, thread, call, &reply);
                Ok(reply)
            }
            Decision::Accepted => match self.carry_out(link, syncs, thread, call) {
                Ok(reply) => Ok(reply),
                Err(stop) => Err(stop),
            },
        }
    }
}
