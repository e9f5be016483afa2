// A share group's front without its history.
ghost use Rattle.std.specs.Prelude.{◌≡◌, ℕ, ◌+◌, ◌*◌, ◌<◌, ◌≤◌, ◌==◌, ◌||◌, true, false, ◌++◌, [], ◌∷◌, length, OnOk, OnErr, IfOk, IfSome, IfNone, is_err};
ghost use Rattle.vk_device.specs.Faults.{HasCause};
ghost use Rattle.resource_use.specs.Uses.{number_of};
ghost use Rattle.vk_model.specs.Log.{commands};
ghost use Rattle.back_core.specs.Own.{log_of};
ghost use Rattle.back_core.specs.Link.{Link, IsNew, put, enqueued};
ghost use Rattle.back_core.specs.Needs.{IsOfGroup};
ghost use Rattle.front_model.specs.Face.{outline_at, view, nodes_touch};
ghost use Rattle.front_model.specs.Stands.{Holds, Owns, Moved, IsQuiet, no_hands};
ghost use Rattle.front_moves.specs.Core.{face, IsFlushed, OnlyFlushed, HasFlushedSome, IsReadTogether, IsApart, IsParted};
ghost use Rattle.back_core.specs.Frame.{ActsAtBack};
ghost use Rattle.front_moves.specs.Reasons.{IsFlushOf, IsFlushOfSome, Decides, IsTouching, IsCross, IsParting};

use crate::comes_to::{flush_comes_to, new_comes_to};
use crate::objects::Objects;
use crate::pending::Pending;
use back_core::BackLink;
use front_model::Object;
use queue_serials::Indexes;
use std::alloc::Global;
use std::marker::Model;
use vk_types::{Access, Batch, Nodes, QueueSerial, Reason, SerialIndex, SignalNumbers, Stop};

/// How many nodes may be pending in a context before they are handed to the back.
pub(crate) const MOST_PENDING: usize = 1024;

/// The objects of a share group and what its contexts recorded. Contracts see a record of lists; `face` of `specs/Core.antt` is the
/// front that they make.
pub struct Core {
    pub(crate) alloc: Global,
    pub(crate) group: u8,
    pub(crate) indexes: Indexes,
    pub(crate) pending: Pending,
    pub(crate) objects: Objects,
}

impl Model for Core {
    ghost use Rattle.std.specs.Prelude.{◌≡◌, ◌<◌};
    ghost use Rattle.front_moves.specs.Core.{CoreParts};

    ghost Value = { CoreParts };

    ghost view = { λ c. record { indexes = c.indexes; pending = c.pending; stores = c.objects } };

    ghost invariant = { λ c. (c.group ≡ c.indexes.group) × (c.group < 8) };
}

impl Core {
    /// A front with nothing in it. This takes no memory.
    pub fn new(alloc: Global, group: u8) -> Core
        requires { group < 8 }
        ensures { (s : Link) → IsNew s group → Holds (face result) no_hands s }
    {
        new_comes_to();
        Core {
            alloc,
            group,
            indexes: Indexes::new(group),
            pending: Pending::new(alloc),
            objects: Objects::new(alloc),
        }
    }

    /// The number of the group.
    pub fn group(&self) -> u8
        ensures value { result ≡ (face self.now).group }
        ensures bound { result < 8 }
    {
        self.group
    }

    /// The place of an index in the group.
    pub(crate) fn place(&self, index: SerialIndex) -> usize
        requires { IsOfGroup (face self.now).group index }
        ensures place { result + 8 * (face self.now).group ≡ index }
        ensures bound { result < 8 }
    {
        usize::from(index.get() - 8 * self.group)
    }

    /// The number of the last batch of an index, 0 before the first.
    pub fn last(&self, index: SerialIndex) -> u64
        requires { IsOfGroup (face self.now).group index }
        ensures { result ≡ (face self.now).last index }
    {
        self.indexes.last(index)
    }

    /// The serial of the next batch of an index.
    pub fn next_serial<L: BackLink>(&self, link: &L, index: SerialIndex) -> QueueSerial
        requires holds { Holds (face self.now) no_hands (L.state link.now) }
        requires group { IsOfGroup (face self.now).group index }
        ensures index { result.index ≡ index }
        ensures number { result.number ≡ (face self.now).last index + 1 }
    {
        flush_comes_to();
        let _ = link;
        QueueSerial {
            index,
            number: self.indexes.last(index) + 1,
        }
    }

    /// Whether something is pending in a context.
    pub fn has_pending(&self, index: SerialIndex) -> bool
        requires group { IsOfGroup (face self.now).group index }
        ensures some { result ≡ true → 0 < length ((face self.now).pending index) }
        ensures none { result ≡ false → (face self.now).pending index ≡ [] }
    {
        self.pending.len(self.place(index)) > 0
    }

    /// Hands what is pending in a context to the back, if there is something.
    pub fn flush<L: BackLink>(
        &mut self,
        link: &mut L,
        index: SerialIndex,
        reason: Reason,
    ) -> Result<(), Stop>
        requires holds { Holds (face self.old) no_hands (L.state link.old) }
        requires group { IsOfGroup (face self.old).group index }
        ensures moved { OnOk result (Moved (face self.new) (L.state link.new) (view (face self.old) (L.state link.old)) (outline_at (face self.old)) (IsQuiet (face self.old) (L.state link.old))) }
        ensures flushed { OnOk result (IsFlushed (face self.old) (face self.new) index) }
        ensures last { OnOk result ((i : ℕ) → (face self.old).last i ≤ (face self.new).last i) }
        ensures group { (face self.new).group ≡ (face self.old).group }
        ensures log { OnOk result (log_of (L.state link.new).mine ≡ log_of (L.state link.old).mine ++ commands 0 ((face self.old).pending index)) }
        ensures link { OnOk result (((L.state link.new).done ≡ (L.state link.old).done) × ((L.state link.new).asked ≡ (L.state link.old).asked)) }
        ensures err { OnErr result (Owns (face self.new).objects (L.state link.new)) }
        ensures cause { HasCause (L.faults link.old) (L.faults link.new) result }
        ensures at_back { ActsAtBack L.state L.told link.old link.new 0 false (is_err result) (IsFlushOfSome (face self.old) index reason) }
    {
        flush_comes_to();
        if self.has_pending(index) {
            return self.hand_over(link, index, reason);
        }
        Ok(())
    }

    /// Hands what is pending in a context to the back as one batch, which has no nodes where nothing is pending.
    pub fn hand_over<L: BackLink>(
        &mut self,
        link: &mut L,
        index: SerialIndex,
        reason: Reason,
    ) -> Result<(), Stop>
        requires holds { Holds (face self.old) no_hands (L.state link.old) }
        requires group { IsOfGroup (face self.old).group index }
        ensures moved { OnOk result (Moved (face self.new) (L.state link.new) (view (face self.old) (L.state link.old)) (outline_at (face self.old)) (IsQuiet (face self.old) (L.state link.old))) }
        ensures flushed { OnOk result (IsFlushed (face self.old) (face self.new) index) }
        ensures last { OnOk result ((face self.new).last ≡ put (face self.old).last index ((face self.old).last index + 1)) }
        ensures group { (face self.new).group ≡ (face self.old).group }
        ensures log { OnOk result (log_of (L.state link.new).mine ≡ log_of (L.state link.old).mine ++ commands 0 ((face self.old).pending index)) }
        ensures link { OnOk result ((batch : Batch) × (L.state link.new ≡ enqueued (L.state link.old) batch)) }
        ensures err { OnErr result (Owns (face self.new).objects (L.state link.new)) }
        ensures cause { HasCause (L.faults link.old) (L.faults link.new) result }
        ensures at_back { ActsAtBack L.state L.told link.old link.new 0 false (is_err result) (IsFlushOf (face self.old) index reason) }
    {
        flush_comes_to();
        let place = self.place(index);
        let number = self.indexes.next(index);
        let batch = Batch {
            index,
            number,
            queue: 0,
            waits: SignalNumbers::of(Vec::new(self.alloc)),
            signals: SignalNumbers::of(Vec::new(self.alloc)),
            nodes: Nodes::of(self.pending.take(place)),
            reason,
        };
        match link.enqueue(batch) {
            Ok(()) => Ok(()),
            Err(_) => Err(Stop::Memory),
        }
    }

    /// Whether the nodes that are pending in a context touch an object, by its last uses.
    fn is_touched(&self, index: SerialIndex, object: Object) -> bool
        requires group { IsOfGroup (face self.now).group index }
        ensures some { (s : Link) → Holds (face self.now) no_hands s → IfSome ((face self.now).objects object) (λ x. nodes_touch ((face self.now).pending index) x.handle ≡ result) }
        ensures none { IfNone ((face self.now).objects object) (result ≡ false) }
    {
        flush_comes_to();
        match self.objects.get(object) {
            Some(store) => store.last_use(index) > self.indexes.last(index),
            None => false,
        }
    }

    /// Whether a copy may read an object beside what is pending in a context: no barrier is due before that, and there is none of the object
    /// among what is pending.
    fn is_read_together(&self, index: SerialIndex, object: Object) -> bool
        requires group { IsOfGroup (face self.now).group index }
        ensures { IfSome ((face self.now).objects object) (λ x.
            (result ≡ true → IsReadTogether ((face self.now).pending index) x) × (result ≡ false → IsReadTogether ((face self.now).pending index) x → ⊥)) }
    {
        match self.objects.get(object) {
            Some(store) => {
                if store.due(Access::TRANSFER_READ, None).is_some() {
                    return false;
                }
                !self.pending.has_barrier(self.place(index), store.id())
            }
            None => false,
        }
    }

    /// Whether something that is pending in a context conflicts with a use of an object, which may be known to read alone.
    fn conflicts(&self, index: SerialIndex, object: Object, reads: bool) -> bool
        requires group { IsOfGroup (face self.now).group index }
        ensures { (s : Link) → Holds (face self.now) no_hands s → Decides reads (face self.now) index object result }
    {
        if self.has_pending(index) {
            return self.pending_conflicts(index, object, reads);
        }
        false
    }

    /// The same, by the last uses and the tracker of the object.
    fn pending_conflicts(&self, index: SerialIndex, object: Object, reads: bool) -> bool
        requires group { IsOfGroup (face self.now).group index }
        ensures { (s : Link) → Holds (face self.now) no_hands s → Decides reads (face self.now) index object result }
    {
        if self.is_touched(index, object) {
            if reads {
                return !self.is_read_together(index, object);
            }
            return true;
        }
        false
    }

    /// Flushes a context where something that is pending in it conflicts with a use of an object, which may be known to read alone.
    pub(crate) fn part<L: BackLink>(
        &mut self,
        link: &mut L,
        index: SerialIndex,
        object: Object,
        reads: bool,
        reason: Reason,
    ) -> Result<(), Stop>
        requires holds { Holds (face self.old) no_hands (L.state link.old) }
        requires group { IsOfGroup (face self.old).group index }
        ensures some { OnOk result (HasFlushedSome (face self.old) (face self.new) (L.state link.old) (L.state link.new)) }
        ensures apart { OnOk result (IsApart reads (face self.new) index object) }
        ensures group { (face self.new).group ≡ (face self.old).group }
        ensures err { OnErr result (Owns (face self.new).objects (L.state link.new)) }
        ensures cause { HasCause (L.faults link.old) (L.faults link.new) result }
        ensures at_back { ActsAtBack L.state L.told link.old link.new 0 false (is_err result) (IsTouching (face self.old) index object reads reason) }
    {
        if self.conflicts(index, object, reads) {
            return self.flush(link, index, reason);
        }
        Ok(())
    }

    /// Flushes each other context in which something is pending that conflicts with a use of an object, which may be known to read alone.
    fn part_others<L: BackLink>(
        &mut self,
        link: &mut L,
        index: SerialIndex,
        object: Object,
        reads: bool,
    ) -> Result<(), Stop>
        requires holds { Holds (face self.old) no_hands (L.state link.old) }
        ensures some { OnOk result (HasFlushedSome (face self.old) (face self.new) (L.state link.old) (L.state link.new)) }
        ensures parted { OnOk result (IsParted reads (face self.new) index object) }
        ensures group { (face self.new).group ≡ (face self.old).group }
        ensures err { OnErr result (Owns (face self.new).objects (L.state link.new)) }
        ensures cause { HasCause (L.faults link.old) (L.faults link.new) result }
        ensures at_back { ActsAtBack L.state L.told link.old link.new 0 false (is_err result) (IsCross (face self.old) index object reads) }
    {
        for place in 0..8u8 {
            let other = SerialIndex::new(8 * self.group + place);
            if other != index {
                match self.part(link, other, object, reads, Reason::Cross) {
                    Ok(()) => {}
                    Err(stop) => return Err(stop),
                }
            }
        }
        Ok(())
    }

    /// Flushes each other context in which something is pending that conflicts with a use of an object, which may be known to read alone,
    /// and this one where it is full.
    pub(crate) fn prepare<L: BackLink>(
        &mut self,
        link: &mut L,
        index: SerialIndex,
        object: Object,
        reads: bool,
    ) -> Result<(), Stop>
        requires holds { Holds (face self.old) no_hands (L.state link.old) }
        requires group { IsOfGroup (face self.old).group index }
        ensures moved { OnOk result (Moved (face self.new) (L.state link.new) (view (face self.old) (L.state link.old)) (outline_at (face self.old)) (IsQuiet (face self.old) (L.state link.old))) }
        ensures flushed { OnOk result (OnlyFlushed (face self.old) (face self.new)) }
        ensures parted { OnOk result (IsParted reads (face self.new) index object) }
        ensures few { OnOk result (length ((face self.new).pending index) < 1024) }
        ensures group { (face self.new).group ≡ (face self.old).group }
        ensures err { OnErr result (Owns (face self.new).objects (L.state link.new)) }
        ensures cause { HasCause (L.faults link.old) (L.faults link.new) result }
        ensures at_back { ActsAtBack L.state L.told link.old link.new 0 false (is_err result) (IsParting (face self.old) index ((object, reads) ∷ [])) }
    {
        match self.part_others(link, index, object, reads) {
            Ok(()) => {}
            Err(stop) => return Err(stop),
        }
        if self.pending.len(self.place(index)) >= MOST_PENDING {
            return self.flush(link, index, Reason::Full);
        }
        Ok(())
    }
}
