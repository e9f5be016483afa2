// The calls that make, end, wait for and ask for syncs, and those that flush and finish, as they are carried out.
ghost use Rattle.std.specs.Prelude.{◌≡◌, ◌≤◌, ◌==◌, true, false, not, IfOk, IfSome, OnOk, OnErr, is_err, if◌then◌else◌};
ghost use Rattle.gl_calls.specs.declared.reply.Waited.TheVariants.{AlreadySignaled, TimeoutExpired, ConditionSatisfied};
ghost use Rattle.vk_device.specs.Faults.{HasCause};
ghost use Rattle.back_core.specs.Frame.{ActsAtBack, NoBatch};
ghost use Rattle.front_model.specs.Stands.{Owns};
ghost use Rattle.front_moves.specs.Core.{face};
ghost use Rattle.sync_serials.specs.Serials.{makes, ends, asks, is_wait};
ghost use Rattle.front_core.specs.Answering.{reaches_syncs, IsWaitSync};
ghost use Rattle.front_core.specs.Share.{MayCall, IsChanged, HaveIndexes, current_index, is_of_state};
ghost use Rattle.front_core.specs.Economy.{IsNeededAnd, IsForPoll, IsSyncReason, flushes_own, may_wait};
ghost use Rattle.front_core.specs.Front.{MayServe, IsServed};
ghost use Rattle.front_core.specs.Polls.{HasFlushedAll, IsPoll, Polls, Flushes, answer_by, timeout_of};

use crate::share::Share;
use crate::syncs_come_to::{syncs_are_there, syncs_come_to, waits_come_to};
use back_core::BackLink;
use gl_calls::{Call, Reply, Waited};
use gl_state::{Applied, apply};
use sync_serials::{SyncName, SyncSerials};
use vk_types::{Reason, Stop};

/// What ClientWaitSync answers (OpenGL ES 3.0.6, Waiting for Sync Objects).
fn client_answer(signalled: bool, timeout: u64) -> Waited
    ensures { result ≡ (if signalled then AlreadySignaled else if timeout == 0 then TimeoutExpired else ConditionSatisfied) }
{
    if signalled {
        Waited::AlreadySignaled
    } else if timeout == 0 {
        Waited::TimeoutExpired
    } else {
        Waited::ConditionSatisfied
    }
}

/// What eglClientWaitSync answers (EGL 1.5, Synchronization Primitives).
fn egl_answer(signalled: bool, timeout: u64) -> Waited
    ensures { result ≡ (if signalled then ConditionSatisfied else if timeout == 0 then TimeoutExpired else ConditionSatisfied) }
{
    if !signalled && timeout == 0 {
        Waited::TimeoutExpired
    } else {
        Waited::ConditionSatisfied
    }
}

impl Share {
    /// Makes a sync, which stands at the end of the batch that its context hands over next.
    fn make_sync<L: BackLink>(
        &mut self,
        link: &mut L,
        syncs: &mut SyncSerials,
        thread: u32,
        name: SyncName,
        call: &Call,
    ) -> Result<Reply, Stop>
        requires which { makes call.now name }
        requires of_state { is_of_state call.now ≡ true }
        requires indexes { HaveIndexes self.old.state.contexts self.old.serials (face self.old.core).group }
        requires may { MayServe (face self.old.core) (L.state link.old) self.old.state self.old.serials syncs.old thread call.now }
        ensures done { IfOk result (λ reply. IsServed (face self.old.core) (face self.new.core) (L.state link.old) (L.state link.new) self.old.state self.new.state
            self.old.serials self.new.serials syncs.old syncs.new thread call.now reply) }
        ensures serials { self.new.serials ≡ self.old.serials }
        ensures group { (face self.new.core).group ≡ (face self.old.core).group }
        ensures err { OnErr result (Owns (face self.new.core).objects (L.state link.new)) }
        ensures cause { HasCause (L.faults link.old) (L.faults link.new) result }
        ensures at_back { ActsAtBack L.state L.told link.old link.new 0 false (is_err result) NoBatch }
    {
        syncs_are_there();
        syncs_come_to();
        let Some(index) = self.index(thread) else {
            unreachable!();
        };
        let serial = self.core.next_serial(link, index);
        match syncs.insert(name, serial) {
            Ok(()) => match self.state_call(link, thread, call) {
                Ok(reply) => Ok(reply),
                Err(stop) => Err(stop),
            },
            Err(_) => Err(Stop::Memory),
        }
    }

    /// Ends a sync.
    fn end_sync<L: BackLink>(
        &mut self,
        link: &mut L,
        syncs: &mut SyncSerials,
        thread: u32,
        name: SyncName,
        call: &Call,
    ) -> Result<Reply, Stop>
        requires which { ends call.now name }
        requires of_state { is_of_state call.now ≡ true }
        requires indexes { HaveIndexes self.old.state.contexts self.old.serials (face self.old.core).group }
        requires may { MayServe (face self.old.core) (L.state link.old) self.old.state self.old.serials syncs.old thread call.now }
        ensures done { IfOk result (λ reply. IsServed (face self.old.core) (face self.new.core) (L.state link.old) (L.state link.new) self.old.state self.new.state
            self.old.serials self.new.serials syncs.old syncs.new thread call.now reply) }
        ensures serials { self.new.serials ≡ self.old.serials }
        ensures group { (face self.new.core).group ≡ (face self.old.core).group }
        ensures err { OnErr result (Owns (face self.new.core).objects (L.state link.new)) }
        ensures cause { HasCause (L.faults link.old) (L.faults link.new) result }
        ensures at_back { ActsAtBack L.state L.told link.old link.new 0 false (is_err result) NoBatch }
    {
        syncs_come_to();
        syncs.remove(name);
        match self.state_call(link, thread, call) {
            Ok(reply) => Ok(reply),
            Err(stop) => Err(stop),
        }
    }

    /// Flushes the context that is current on the thread (OpenGL ES 3.0.6, Flush and Finish).
    fn flush_call<L: BackLink>(
        &mut self,
        link: &mut L,
        syncs: &SyncSerials,
        thread: u32,
    ) -> Result<Reply, Stop>
        requires indexes { HaveIndexes self.old.state.contexts self.old.serials (face self.old.core).group }
        requires may { MayServe (face self.old.core) (L.state link.old) self.old.state self.old.serials syncs.now thread Call.Flush }
        ensures done { IfOk result (λ reply. IsServed (face self.old.core) (face self.new.core) (L.state link.old) (L.state link.new) self.old.state self.new.state
            self.old.serials self.new.serials syncs.now syncs.now thread Call.Flush reply) }
        ensures flushes { IfOk result (λ reply. Flushes self.old.state self.old.serials syncs.now thread Call.Flush (face self.new.core) (L.state link.new) reply) }
        ensures serials { self.new.serials ≡ self.old.serials }
        ensures group { (face self.new.core).group ≡ (face self.old.core).group }
        ensures err { OnErr result (Owns (face self.new.core).objects (L.state link.new)) }
        ensures cause { HasCause (L.faults link.old) (L.faults link.new) result }
        ensures at_back { ActsAtBack L.state L.told link.old link.new 0 false (is_err result)
            (IsNeededAnd syncs.now (IsSyncReason self.old.state self.old.serials syncs.now thread Call.Flush)) }
    {
        syncs_come_to();
        match self.flush_current(link, syncs, thread, Reason::Flush) {
            Ok(()) => match self.state_call(link, thread, &Call::Flush) {
                Ok(reply) => Ok(reply),
                Err(stop) => Err(stop),
            },
            Err(stop) => Err(stop),
        }
    }

    /// Flushes the context that is current on the thread, and waits for all that its index handed over (OpenGL ES 3.0.6, Flush and
    /// Finish).
    fn finish_call<L: BackLink>(
        &mut self,
        link: &mut L,
        syncs: &SyncSerials,
        thread: u32,
    ) -> Result<Reply, Stop>
        requires indexes { HaveIndexes self.old.state.contexts self.old.serials (face self.old.core).group }
        requires may { MayServe (face self.old.core) (L.state link.old) self.old.state self.old.serials syncs.now thread Call.Finish }
        ensures done { IfOk result (λ reply. IsServed (face self.old.core) (face self.new.core) (L.state link.old) (L.state link.new) self.old.state self.new.state
            self.old.serials self.new.serials syncs.now syncs.now thread Call.Finish reply) }
        ensures flushes { IfOk result (λ reply. Flushes self.old.state self.old.serials syncs.now thread Call.Finish (face self.new.core) (L.state link.new) reply) }
        ensures serials { self.new.serials ≡ self.old.serials }
        ensures group { (face self.new.core).group ≡ (face self.old.core).group }
        ensures err { OnErr result (Owns (face self.new.core).objects (L.state link.new)) }
        ensures cause { HasCause (L.faults link.old) (L.faults link.new) result }
        ensures at_back { ActsAtBack L.state L.told link.old link.new 0 true (is_err result)
            (IsNeededAnd syncs.now (IsSyncReason self.old.state self.old.serials syncs.now thread Call.Finish)) }
    {
        syncs_come_to();
        match self.finish_current(link, syncs, thread) {
            Ok(()) => match self.state_call(link, thread, &Call::Finish) {
                Ok(reply) => Ok(reply),
                Err(stop) => Err(stop),
            },
            Err(stop) => Err(stop),
        }
    }

    /// Has the device wait for a sync (OpenGL ES 3.0.6, Waiting for Sync Objects): batches are carried out in order, so it is enough
    /// that the sync's batch was handed over.
    fn wait_sync<L: BackLink>(
        &mut self,
        link: &mut L,
        syncs: &SyncSerials,
        thread: u32,
        number: u16,
        call: &Call,
    ) -> Result<Reply, Stop>
        requires which { IsWaitSync call.now number }
        requires may { MayServe (face self.old.core) (L.state link.old) self.old.state self.old.serials syncs.now thread call.now }
        ensures done { IfOk result (λ reply. IsServed (face self.old.core) (face self.new.core) (L.state link.old) (L.state link.new) self.old.state self.new.state
            self.old.serials self.new.serials syncs.now syncs.now thread call.now reply) }
        ensures flushes { IfOk result (λ reply. Flushes self.old.state self.old.serials syncs.now thread call.now (face self.new.core) (L.state link.new) reply) }
        ensures serials { self.new.serials ≡ self.old.serials }
        ensures group { (face self.new.core).group ≡ (face self.old.core).group }
        ensures err { OnErr result (Owns (face self.new.core).objects (L.state link.new)) }
        ensures cause { HasCause (L.faults link.old) (L.faults link.new) result }
        ensures at_back { ActsAtBack L.state L.told link.old link.new 0 false (is_err result)
            (IsNeededAnd syncs.now (IsSyncReason self.old.state self.old.serials syncs.now thread call.now)) }
    {
        syncs_are_there();
        syncs_come_to();
        let Some(serial) = syncs.serial_of(SyncName::Gl(number)) else {
            unreachable!();
        };
        match self.hand_over_for(link, serial) {
            Ok(()) => match self.state_call(link, thread, call) {
                Ok(reply) => Ok(reply),
                Err(stop) => Err(stop),
            },
            Err(stop) => Err(stop),
        }
    }

    /// Changes the state by a wait for a sync: only an error of EGL is set back.
    fn change_by_wait<L: BackLink>(
        &mut self,
        link: &mut L,
        thread: u32,
        call: &Call,
    ) -> Result<(), Stop>
        requires which { is_wait call.now ≡ true }
        requires may { MayCall (face self.old.core) (L.state link.old) self.old.state thread call.now }
        ensures changed { OnOk result (IsChanged (face self.old.core) (face self.new.core) (L.state link.old) (L.state link.new) self.old.state self.new.state thread call.now) }
        ensures serials { self.new.serials ≡ self.old.serials }
        ensures group { (face self.new.core).group ≡ (face self.old.core).group }
        ensures err { OnErr result (Owns (face self.new.core).objects (L.state link.new)) }
        ensures cause { HasCause (L.faults link.old) (L.faults link.new) result }
        ensures at_back { ActsAtBack L.state L.told link.old link.new 0 false (is_err result) NoBatch }
    {
        waits_come_to();
        match apply(self.alloc, &mut self.state, thread, call) {
            Ok(applied) => {
                let Applied {
                    reply: _,
                    ended,
                    switched: _,
                } = applied;
                self.core.end_all(
                    link,
                    ended.buffers.as_slice(),
                    ended.textures.as_slice(),
                    ended.renderbuffers.as_slice(),
                );
                Ok(())
            }
            Err(_) => Err(Stop::Memory),
        }
    }

    /// Carries out a wait for a sync, and says whether the sync was signalled at its start.
    fn wait_call<L: BackLink>(
        &mut self,
        link: &mut L,
        syncs: &SyncSerials,
        thread: u32,
        name: SyncName,
        flush: bool,
        timeout: u64,
        call: &Call,
    ) -> Result<bool, Stop>
        requires asks { asks call.now name }
        requires flush { flush ≡ flushes_own call.now }
        requires timeout { timeout ≡ timeout_of call.now }
        requires indexes { HaveIndexes self.old.state.contexts self.old.serials (face self.old.core).group }
        requires may { MayServe (face self.old.core) (L.state link.old) self.old.state self.old.serials syncs.now thread call.now }
        ensures done { IfOk result (λ signalled. IsServed (face self.old.core) (face self.new.core) (L.state link.old) (L.state link.new) self.old.state self.new.state
            self.old.serials self.new.serials syncs.now syncs.now thread call.now (Reply.Waited (answer_by call.now signalled))) }
        ensures polled { IfOk result (λ signalled. IsPoll syncs.now (L.state link.old) (L.state link.new) name timeout signalled) }
        ensures flushed { IfOk result (λ signalled. signalled ≡ false → flush ≡ true → IfSome (current_index self.old.state self.old.serials thread) (HasFlushedAll (face self.new.core) syncs.now)) }
        ensures serials { self.new.serials ≡ self.old.serials }
        ensures group { (face self.new.core).group ≡ (face self.old.core).group }
        ensures err { OnErr result (Owns (face self.new.core).objects (L.state link.new)) }
        ensures cause { HasCause (L.faults link.old) (L.faults link.new) result }
        ensures at_back { ActsAtBack L.state L.told link.old link.new 0 (not (timeout == 0)) (is_err result)
            (IsNeededAnd syncs.now (IsForPoll self.old.state self.old.serials syncs.now thread name flush timeout)) }
    {
        syncs_are_there();
        waits_come_to();
        match self.change_by_wait(link, thread, call) {
            Ok(()) => match self.poll(link, syncs, thread, name, flush, timeout) {
                Ok(signalled) => Ok(signalled),
                Err(stop) => Err(stop),
            },
            Err(stop) => Err(stop),
        }
    }

    /// Waits for a sync, or asks whether it is signalled (OpenGL ES 3.0.6, Waiting for Sync Objects).
    fn client_wait<L: BackLink>(
        &mut self,
        link: &mut L,
        syncs: &SyncSerials,
        thread: u32,
        number: u16,
        flags: u32,
        timeout: u64,
        call: &Call,
    ) -> Result<Reply, Stop>
        requires which { call.now ≡ Call.ClientWaitSync number flags timeout }
        requires indexes { HaveIndexes self.old.state.contexts self.old.serials (face self.old.core).group }
        requires may { MayServe (face self.old.core) (L.state link.old) self.old.state self.old.serials syncs.now thread call.now }
        ensures done { IfOk result (λ reply. IsServed (face self.old.core) (face self.new.core) (L.state link.old) (L.state link.new) self.old.state self.new.state
            self.old.serials self.new.serials syncs.now syncs.now thread call.now reply) }
        ensures polls { IfOk result (λ reply. Polls syncs.now (L.state link.old) (L.state link.new) call.now reply) }
        ensures flushes { IfOk result (λ reply. Flushes self.old.state self.old.serials syncs.now thread call.now (face self.new.core) (L.state link.new) reply) }
        ensures serials { self.new.serials ≡ self.old.serials }
        ensures group { (face self.new.core).group ≡ (face self.old.core).group }
        ensures err { OnErr result (Owns (face self.new.core).objects (L.state link.new)) }
        ensures cause { HasCause (L.faults link.old) (L.faults link.new) result }
        ensures at_back { ActsAtBack L.state L.told link.old link.new 0 (may_wait call.now) (is_err result)
            (IsNeededAnd syncs.now (IsSyncReason self.old.state self.old.serials syncs.now thread call.now)) }
    {
        let name = SyncName::Gl(number);
        match self.wait_call(link, syncs, thread, name, flags == 1, timeout, call) {
            Ok(signalled) => Ok(Reply::Waited(client_answer(signalled, timeout))),
            Err(stop) => Err(stop),
        }
    }

    /// Waits for a sync of EGL, or asks whether it is signalled (EGL 1.5, Synchronization Primitives).
    fn egl_client_wait<L: BackLink>(
        &mut self,
        link: &mut L,
        syncs: &SyncSerials,
        thread: u32,
        number: u16,
        flush: bool,
        timeout: u64,
        call: &Call,
    ) -> Result<Reply, Stop>
        requires which { call.now ≡ Call.EglClientWaitSync number flush timeout }
        requires indexes { HaveIndexes self.old.state.contexts self.old.serials (face self.old.core).group }
        requires may { MayServe (face self.old.core) (L.state link.old) self.old.state self.old.serials syncs.now thread call.now }
        ensures done { IfOk result (λ reply. IsServed (face self.old.core) (face self.new.core) (L.state link.old) (L.state link.new) self.old.state self.new.state
            self.old.serials self.new.serials syncs.now syncs.now thread call.now reply) }
        ensures polls { IfOk result (λ reply. Polls syncs.now (L.state link.old) (L.state link.new) call.now reply) }
        ensures flushes { IfOk result (λ reply. Flushes self.old.state self.old.serials syncs.now thread call.now (face self.new.core) (L.state link.new) reply) }
        ensures serials { self.new.serials ≡ self.old.serials }
        ensures group { (face self.new.core).group ≡ (face self.old.core).group }
        ensures err { OnErr result (Owns (face self.new.core).objects (L.state link.new)) }
        ensures cause { HasCause (L.faults link.old) (L.faults link.new) result }
        ensures at_back { ActsAtBack L.state L.told link.old link.new 0 (may_wait call.now) (is_err result)
            (IsNeededAnd syncs.now (IsSyncReason self.old.state self.old.serials syncs.now thread call.now)) }
    {
        let name = SyncName::Egl(number);
        match self.wait_call(link, syncs, thread, name, flush, timeout, call) {
            Ok(signalled) => Ok(Reply::Waited(egl_answer(signalled, timeout))),
            Err(stop) => Err(stop),
        }
    }

    /// Carries out a call on syncs, or one that flushes.
    pub(crate) fn sync_call<L: BackLink>(
        &mut self,
        link: &mut L,
        syncs: &mut SyncSerials,
        thread: u32,
        call: &Call,
    ) -> Result<Reply, Stop>
        requires which { reaches_syncs call.now ≡ true }
        requires indexes { HaveIndexes self.old.state.contexts self.old.serials (face self.old.core).group }
        requires may { MayServe (face self.old.core) (L.state link.old) self.old.state self.old.serials syncs.old thread call.now }
        ensures done { IfOk result (λ reply. IsServed (face self.old.core) (face self.new.core) (L.state link.old) (L.state link.new) self.old.state self.new.state
            self.old.serials self.new.serials syncs.old syncs.new thread call.now reply) }
        ensures polls { IfOk result (λ reply. Polls syncs.old (L.state link.old) (L.state link.new) call.now reply) }
        ensures flushes { IfOk result (λ reply. Flushes self.old.state self.old.serials syncs.old thread call.now (face self.new.core) (L.state link.new) reply) }
        ensures serials { self.new.serials ≡ self.old.serials }
        ensures group { (face self.new.core).group ≡ (face self.old.core).group }
        ensures err { OnErr result (Owns (face self.new.core).objects (L.state link.new)) }
        ensures cause { HasCause (L.faults link.old) (L.faults link.new) result }
        ensures at_back { ActsAtBack L.state L.told link.old link.new 0 (may_wait call.now) (is_err result)
            (IsNeededAnd syncs.old (IsSyncReason self.old.state self.old.serials syncs.old thread call.now)) }
    {
        match call {
            Call::FenceSync { number, .. } => {
                self.make_sync(link, syncs, thread, SyncName::Gl(*number), call)
            }
            Call::CreateSync { number } => {
                self.make_sync(link, syncs, thread, SyncName::Egl(*number), call)
            }
            Call::DeleteSync { number } => {
                self.end_sync(link, syncs, thread, SyncName::Gl(*number), call)
            }
            Call::DestroySync { number } => {
                self.end_sync(link, syncs, thread, SyncName::Egl(*number), call)
            }
            Call::Flush => self.flush_call(link, syncs, thread),
            Call::Finish => self.finish_call(link, syncs, thread),
            Call::WaitSync { number, .. } => self.wait_sync(link, syncs, thread, *number, call),
            Call::ClientWaitSync {
                number,
                flags,
                timeout,
            } => self.client_wait(link, syncs, thread, *number, *flags, *timeout, call),
            Call::EglClientWaitSync {
                number,
                flush,
                timeout,
            } => self.egl_client_wait(link, syncs, thread, *number, *flush, *timeout, call),
            _ => unreachable!(),
        }
    }
}
