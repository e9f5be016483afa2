// The calls on syncs, and those that flush: what is handed over and waited for, and what is asked.
ghost use Rattle.std.specs.Prelude.{◌≡◌, ◌<◌, ◌≤◌, ◌+◌, ◌==◌, ℕ, true, false, None, Some, IsSome, IfOk, IfSome, OnOk, OnErr, is_err, not, nat_le};
ghost use Rattle.vk_types.specs.declared.batches.QueueSerial.{QueueSerial};
ghost use Rattle.vk_device.specs.Faults.{HasCause};
ghost use Rattle.back_core.specs.Needs.{IsOfGroup};
ghost use Rattle.back_core.specs.Frame.{ActsAtBack, NoBatch};
ghost use Rattle.front_model.specs.Stands.{Holds, Owns, no_hands};
ghost use Rattle.front_moves.specs.Core.{face};
ghost use Rattle.front_moves.specs.Reasons.{IsFlushOf};
ghost use Rattle.sync_serials.specs.Serials.{serial_at, newest_of};
ghost use Rattle.front_core.specs.Share.{Stays, HaveIndexes, current_index};
ghost use Rattle.front_core.specs.Economy.{IsNeededAnd, IsOfCurrent, IsOwnFlush, IsForSync, IsWaitedFor, IsForWait, IsForPoll, IsEndingBatch};
ghost use Rattle.front_core.specs.Polls.{IsPoll, IsMade, HasFlushedAll, FlushedStay, HasFinished};

use crate::share::Share;
use back_core::BackLink;
use sync_serials::{SyncName, SyncSerials};
use vk_types::{QueueSerial, Reason, SerialIndex, Stop};

impl Share {
    /// Flushes a context: hands over what it recorded, and a batch without nodes where only a sync waits for one.
    pub(crate) fn flush_context<L: BackLink>(
        &mut self,
        link: &mut L,
        syncs: &SyncSerials,
        index: SerialIndex,
        reason: Reason,
    ) -> Result<(), Stop>
        requires holds { Holds (face self.old.core) no_hands (L.state link.old) }
        requires group { IsOfGroup (face self.old.core).group index }
        requires tables { syncs.now.group ≡ (face self.old.core).group }
        requires newest { newest_of syncs.now index ≤ (face self.old.core).last index + 1 }
        ensures stays { OnOk result (Stays (face self.old.core) (face self.new.core) (L.state link.old) (L.state link.new)) }
        ensures still { OnOk result (FlushedStay (face self.old.core) (face self.new.core)) }
        ensures flushed { OnOk result (HasFlushedAll (face self.new.core) syncs.now index) }
        ensures known { OnOk result ((L.state link.new).done ≡ (L.state link.old).done) }
        ensures asked { OnOk result ((L.state link.new).asked ≡ (L.state link.old).asked) }
        ensures state { self.new.state ≡ self.old.state }
        ensures serials { self.new.serials ≡ self.old.serials }
        ensures group { (face self.new.core).group ≡ (face self.old.core).group }
        ensures err { OnErr result (Owns (face self.new.core).objects (L.state link.new)) }
        ensures cause { HasCause (L.faults link.old) (L.faults link.new) result }
        ensures at_back { ActsAtBack L.state L.told link.old link.new 0 false (is_err result)
            (IsNeededAnd syncs.now (IsFlushOf (face self.old.core) index reason)) }
    {
        if self.core.has_pending(index) || syncs.newest(index) > self.core.last(index) {
            return self.core.hand_over(link, index, reason);
        }
        Ok(())
    }

    /// Flushes the context that is current on a thread, if there is one.
    pub(crate) fn flush_current<L: BackLink>(
        &mut self,
        link: &mut L,
        syncs: &SyncSerials,
        thread: u32,
        reason: Reason,
    ) -> Result<(), Stop>
        requires holds { Holds (face self.old.core) no_hands (L.state link.old) }
        requires indexes { HaveIndexes self.old.state.contexts self.old.serials (face self.old.core).group }
        requires tables { syncs.now.group ≡ (face self.old.core).group }
        requires newest { (i : ℕ) → IsOfGroup (face self.old.core).group i → newest_of syncs.now i ≤ (face self.old.core).last i + 1 }
        ensures stays { OnOk result (Stays (face self.old.core) (face self.new.core) (L.state link.old) (L.state link.new)) }
        ensures flushed { OnOk result (IfSome (current_index self.old.state self.old.serials thread) (HasFlushedAll (face self.new.core) syncs.now)) }
        ensures known { OnOk result ((L.state link.new).done ≡ (L.state link.old).done) }
        ensures asked { OnOk result ((L.state link.new).asked ≡ (L.state link.old).asked) }
        ensures state { self.new.state ≡ self.old.state }
        ensures serials { self.new.serials ≡ self.old.serials }
        ensures group { (face self.new.core).group ≡ (face self.old.core).group }
        ensures err { OnErr result (Owns (face self.new.core).objects (L.state link.new)) }
        ensures cause { HasCause (L.faults link.old) (L.faults link.new) result }
        ensures at_back { ActsAtBack L.state L.told link.old link.new 0 false (is_err result)
            (IsNeededAnd syncs.now (IsOfCurrent self.old.state self.old.serials thread reason)) }
    {
        match self.index(thread) {
            Some(index) => self.flush_context(link, syncs, index, reason),
            None => Ok(()),
        }
    }

    /// Hands over what a sync stands at the end of, where that was not done yet.
    pub(crate) fn hand_over_for<L: BackLink>(
        &mut self,
        link: &mut L,
        serial: QueueSerial,
    ) -> Result<(), Stop>
        requires holds { Holds (face self.old.core) no_hands (L.state link.old) }
        requires group { IsOfGroup (face self.old.core).group serial.index }
        requires number { serial.number ≤ (face self.old.core).last serial.index + 1 }
        ensures stays { OnOk result (Stays (face self.old.core) (face self.new.core) (L.state link.old) (L.state link.new)) }
        ensures still { OnOk result (FlushedStay (face self.old.core) (face self.new.core)) }
        ensures handed { OnOk result (serial.number ≤ (face self.new.core).last serial.index) }
        ensures known { OnOk result ((L.state link.new).done ≡ (L.state link.old).done) }
        ensures state { self.new.state ≡ self.old.state }
        ensures serials { self.new.serials ≡ self.old.serials }
        ensures group { (face self.new.core).group ≡ (face self.old.core).group }
        ensures err { OnErr result (Owns (face self.new.core).objects (L.state link.new)) }
        ensures cause { HasCause (L.faults link.old) (L.faults link.new) result }
        ensures at_back { ActsAtBack L.state L.told link.old link.new 0 false (is_err result) (IsForSync serial) }
    {
        if serial.number > self.core.last(serial.index) {
            return self.core.hand_over(link, serial.index, Reason::Sync);
        }
        Ok(())
    }

    /// Waits until what a sync stands at the end of is retired.
    fn wait_for_sync<L: BackLink>(&mut self, link: &mut L, serial: QueueSerial) -> Result<(), Stop>
        requires holds { Holds (face self.old.core) no_hands (L.state link.old) }
        requires group { IsOfGroup (face self.old.core).group serial.index }
        requires some { 1 ≤ serial.number }
        requires number { serial.number ≤ (face self.old.core).last serial.index + 1 }
        ensures stays { OnOk result (Stays (face self.old.core) (face self.new.core) (L.state link.old) (L.state link.new)) }
        ensures still { OnOk result (FlushedStay (face self.old.core) (face self.new.core)) }
        ensures retired { OnOk result (serial.number ≤ (L.state link.new).done serial.index) }
        ensures state { self.new.state ≡ self.old.state }
        ensures serials { self.new.serials ≡ self.old.serials }
        ensures group { (face self.new.core).group ≡ (face self.old.core).group }
        ensures err { OnErr result (Owns (face self.new.core).objects (L.state link.new)) }
        ensures cause { HasCause (L.faults link.old) (L.faults link.new) result }
        ensures at_back { ActsAtBack L.state L.told link.old link.new 0 true (is_err result) (IsForSync serial) }
    {
        let index = serial.index;
        let number = serial.number;
        match self.hand_over_for(link, QueueSerial { index, number }) {
            Ok(()) => self.core.wait_for(link, QueueSerial { index, number }),
            Err(stop) => Err(stop),
        }
    }

    /// Waits until all that an index handed over is retired.
    fn wait_for_all<L: BackLink>(&self, link: &mut L, index: SerialIndex) -> Result<(), Stop>
        requires holds { Holds (face self.now.core) no_hands (L.state link.old) }
        requires group { IsOfGroup (face self.now.core).group index }
        ensures stays { OnOk result (Stays (face self.now.core) (face self.now.core) (L.state link.old) (L.state link.new)) }
        ensures retired { OnOk result ((face self.now.core).last index ≤ (L.state link.new).done index) }
        ensures err { OnErr result (Owns (face self.now.core).objects (L.state link.new)) }
        ensures cause { HasCause (L.faults link.old) (L.faults link.new) result }
        ensures at_back { ActsAtBack L.state L.told link.old link.new 0 true (is_err result) NoBatch }
    {
        let number = self.core.last(index);
        if number == 0 {
            return Ok(());
        }
        self.core.wait_for(link, QueueSerial { index, number })
    }

    /// Flushes the context that is current on a thread, and waits until all that its index handed over is retired.
    pub(crate) fn finish_current<L: BackLink>(
        &mut self,
        link: &mut L,
        syncs: &SyncSerials,
        thread: u32,
    ) -> Result<(), Stop>
        requires holds { Holds (face self.old.core) no_hands (L.state link.old) }
        requires indexes { HaveIndexes self.old.state.contexts self.old.serials (face self.old.core).group }
        requires tables { syncs.now.group ≡ (face self.old.core).group }
        requires newest { (i : ℕ) → IsOfGroup (face self.old.core).group i → newest_of syncs.now i ≤ (face self.old.core).last i + 1 }
        ensures stays { OnOk result (Stays (face self.old.core) (face self.new.core) (L.state link.old) (L.state link.new)) }
        ensures finished { OnOk result (IfSome (current_index self.old.state self.old.serials thread) (HasFinished (face self.new.core) (L.state link.new) syncs.now)) }
        ensures state { self.new.state ≡ self.old.state }
        ensures serials { self.new.serials ≡ self.old.serials }
        ensures group { (face self.new.core).group ≡ (face self.old.core).group }
        ensures err { OnErr result (Owns (face self.new.core).objects (L.state link.new)) }
        ensures cause { HasCause (L.faults link.old) (L.faults link.new) result }
        ensures at_back { ActsAtBack L.state L.told link.old link.new 0 true (is_err result)
            (IsNeededAnd syncs.now (IsOfCurrent self.old.state self.old.serials thread Reason.Finish)) }
    {
        match self.index(thread) {
            Some(index) => match self.flush_context(link, syncs, index, Reason::Finish) {
                Ok(()) => self.wait_for_all(link, index),
                Err(stop) => Err(stop),
            },
            None => Ok(()),
        }
    }

    /// Flushes the context that is current on a thread, if there is one and that is asked for.
    fn flush_if<L: BackLink>(
        &mut self,
        link: &mut L,
        syncs: &SyncSerials,
        thread: u32,
        flush: bool,
    ) -> Result<(), Stop>
        requires holds { Holds (face self.old.core) no_hands (L.state link.old) }
        requires indexes { HaveIndexes self.old.state.contexts self.old.serials (face self.old.core).group }
        requires tables { syncs.now.group ≡ (face self.old.core).group }
        requires newest { (i : ℕ) → IsOfGroup (face self.old.core).group i → newest_of syncs.now i ≤ (face self.old.core).last i + 1 }
        ensures stays { OnOk result (Stays (face self.old.core) (face self.new.core) (L.state link.old) (L.state link.new)) }
        ensures flushed { OnOk result (flush ≡ true → IfSome (current_index self.old.state self.old.serials thread) (HasFlushedAll (face self.new.core) syncs.now)) }
        ensures known { OnOk result ((L.state link.new).done ≡ (L.state link.old).done) }
        ensures asked { OnOk result ((L.state link.new).asked ≡ (L.state link.old).asked) }
        ensures state { self.new.state ≡ self.old.state }
        ensures serials { self.new.serials ≡ self.old.serials }
        ensures group { (face self.new.core).group ≡ (face self.old.core).group }
        ensures err { OnErr result (Owns (face self.new.core).objects (L.state link.new)) }
        ensures cause { HasCause (L.faults link.old) (L.faults link.new) result }
        ensures at_back { ActsAtBack L.state L.told link.old link.new 0 false (is_err result)
            (IsNeededAnd syncs.now (IsOwnFlush self.old.state self.old.serials thread flush)) }
    {
        if flush {
            return self.flush_current(link, syncs, thread, Reason::Flush);
        }
        Ok(())
    }

    /// Waits for a sync where the timeout is positive. What is pending in other contexts stays pending.
    fn wait_if<L: BackLink>(
        &mut self,
        link: &mut L,
        serial: QueueSerial,
        timeout: u64,
    ) -> Result<(), Stop>
        requires holds { Holds (face self.old.core) no_hands (L.state link.old) }
        requires group { IsOfGroup (face self.old.core).group serial.index }
        requires some { 1 ≤ serial.number }
        requires number { serial.number ≤ (face self.old.core).last serial.index + 1 }
        ensures stays { OnOk result (Stays (face self.old.core) (face self.new.core) (L.state link.old) (L.state link.new)) }
        ensures still { OnOk result (FlushedStay (face self.old.core) (face self.new.core)) }
        ensures retired { OnOk result ((timeout ≡ 0 → ⊥) → serial.number ≤ (L.state link.new).done serial.index) }
        ensures at_once { OnOk result (timeout ≡ 0 → L.state link.new ≡ L.state link.old) }
        ensures state { self.new.state ≡ self.old.state }
        ensures serials { self.new.serials ≡ self.old.serials }
        ensures group { (face self.new.core).group ≡ (face self.old.core).group }
        ensures err { OnErr result (Owns (face self.new.core).objects (L.state link.new)) }
        ensures cause { HasCause (L.faults link.old) (L.faults link.new) result }
        ensures at_back { ActsAtBack L.state L.told link.old link.new 0 (not (timeout == 0)) (is_err result) (IsWaitedFor serial timeout) }
    {
        if timeout == 0 {
            return Ok(());
        }
        self.wait_for_sync(link, serial)
    }

    /// Where a sync is not signalled: flushes the context that is current, if there is one and that is asked for, and waits for the
    /// sync where the timeout is positive.
    fn unsignalled<L: BackLink>(
        &mut self,
        link: &mut L,
        syncs: &SyncSerials,
        thread: u32,
        serial: QueueSerial,
        flush: bool,
        timeout: u64,
    ) -> Result<(), Stop>
        requires holds { Holds (face self.old.core) no_hands (L.state link.old) }
        requires indexes { HaveIndexes self.old.state.contexts self.old.serials (face self.old.core).group }
        requires tables { syncs.now.group ≡ (face self.old.core).group }
        requires newest { (i : ℕ) → IsOfGroup (face self.old.core).group i → newest_of syncs.now i ≤ (face self.old.core).last i + 1 }
        requires made { IsMade (face self.old.core) syncs.now serial }
        ensures stays { OnOk result (Stays (face self.old.core) (face self.new.core) (L.state link.old) (L.state link.new)) }
        ensures flushed { OnOk result (flush ≡ true → IfSome (current_index self.old.state self.old.serials thread) (HasFlushedAll (face self.new.core) syncs.now)) }
        ensures retired { OnOk result ((timeout ≡ 0 → ⊥) → serial.number ≤ (L.state link.new).done serial.index) }
        ensures known { OnOk result (timeout ≡ 0 → (L.state link.new).done ≡ (L.state link.old).done) }
        ensures asked { OnOk result (timeout ≡ 0 → (L.state link.new).asked ≡ (L.state link.old).asked) }
        ensures state { self.new.state ≡ self.old.state }
        ensures serials { self.new.serials ≡ self.old.serials }
        ensures group { (face self.new.core).group ≡ (face self.old.core).group }
        ensures err { OnErr result (Owns (face self.new.core).objects (L.state link.new)) }
        ensures cause { HasCause (L.faults link.old) (L.faults link.new) result }
        ensures at_back { ActsAtBack L.state L.told link.old link.new 0 (not (timeout == 0)) (is_err result)
            (IsNeededAnd syncs.now (IsForWait self.old.state self.old.serials thread serial flush timeout)) }
    {
        match self.flush_if(link, syncs, thread, flush) {
            Ok(()) => self.wait_if(link, serial, timeout),
            Err(stop) => Err(stop),
        }
    }

    /// Asks once, at the start, how far the index of a sync is: whether the sync is signalled. Where it is not, the current context
    /// is flushed if that is asked for, and the sync is waited for where the timeout is positive.
    pub(crate) fn poll<L: BackLink>(
        &mut self,
        link: &mut L,
        syncs: &SyncSerials,
        thread: u32,
        name: SyncName,
        flush: bool,
        timeout: u64,
    ) -> Result<bool, Stop>
        requires holds { Holds (face self.old.core) no_hands (L.state link.old) }
        requires indexes { HaveIndexes self.old.state.contexts self.old.serials (face self.old.core).group }
        requires tables { syncs.now.group ≡ (face self.old.core).group }
        requires newest { (i : ℕ) → IsOfGroup (face self.old.core).group i → newest_of syncs.now i ≤ (face self.old.core).last i + 1 }
        requires there { IsSome (serial_at syncs.now name) }
        requires made { (serial : QueueSerial) → serial_at syncs.now name ≡ Some serial → IsMade (face self.old.core) syncs.now serial }
        ensures stays { OnOk result (Stays (face self.old.core) (face self.new.core) (L.state link.old) (L.state link.new)) }
        ensures polled { IfOk result (λ signalled. IsPoll syncs.now (L.state link.old) (L.state link.new) name timeout signalled) }
        ensures flushed { IfOk result (λ signalled. signalled ≡ false → flush ≡ true → IfSome (current_index self.old.state self.old.serials thread) (HasFlushedAll (face self.new.core) syncs.now)) }
        ensures state { self.new.state ≡ self.old.state }
        ensures serials { self.new.serials ≡ self.old.serials }
        ensures group { (face self.new.core).group ≡ (face self.old.core).group }
        ensures err { OnErr result (Owns (face self.new.core).objects (L.state link.new)) }
        ensures cause { HasCause (L.faults link.old) (L.faults link.new) result }
        ensures at_back { ActsAtBack L.state L.told link.old link.new 0 (not (timeout == 0)) (is_err result)
            (IsNeededAnd syncs.now (IsForPoll self.old.state self.old.serials syncs.now thread name flush timeout)) }
    {
        let Some(serial) = syncs.serial_of(name) else {
            unreachable!();
        };
        let completed = self.core.completed(link, serial.index);
        if serial.number <= completed {
            return Ok(true);
        }
        match self.unsignalled(link, syncs, thread, serial, flush, timeout) {
            Ok(()) => Ok(false),
            Err(stop) => Err(stop),
        }
    }

    /// Flushes each context of the group, as the front ends.
    pub(crate) fn flush_all<L: BackLink>(
        &mut self,
        link: &mut L,
        syncs: &SyncSerials,
    ) -> Result<(), Stop>
        requires holds { Holds (face self.old.core) no_hands (L.state link.old) }
        requires tables { syncs.now.group ≡ (face self.old.core).group }
        requires newest { (i : ℕ) → IsOfGroup (face self.old.core).group i → newest_of syncs.now i ≤ (face self.old.core).last i + 1 }
        ensures stays { OnOk result (Stays (face self.old.core) (face self.new.core) (L.state link.old) (L.state link.new)) }
        ensures flushed { OnOk result ((i : ℕ) → IsOfGroup (face self.old.core).group i → HasFlushedAll (face self.new.core) syncs.now i) }
        ensures group { (face self.new.core).group ≡ (face self.old.core).group }
        ensures err { OnErr result (Owns (face self.new.core).objects (L.state link.new)) }
        ensures cause { HasCause (L.faults link.old) (L.faults link.new) result }
        ensures at_back { ActsAtBack L.state L.told link.old link.new 0 false (is_err result) (IsEndingBatch syncs.now) }
    {
        for place in 0..8u8 {
            let index = SerialIndex::new(8 * self.core.group() + place);
            match self.flush_context(link, syncs, index, Reason::End) {
                Ok(()) => {}
                Err(stop) => return Err(stop),
            }
        }
        Ok(())
    }
}
