// What each move comes to, on plain values.
ghost use Rattle.std.specs.Prelude.{◌≡◌, ℕ, ◌+◌, ◌-◌, ◌*◌, ◌<◌, ◌≤◌, [], replicate, slice_set};
ghost use Rattle.vk_types.specs.declared.batches.Batch.{Batch};
ghost use Rattle.queue_serials.specs.Indexes.{with_last, last_of, unused};
ghost use Rattle.back_core.specs.Link.{Link, IsNew, enqueued};
ghost use Rattle.back_core.specs.Needs.{IsOfGroup, MayEnqueue};
ghost use Rattle.front_model.specs.Face.{Face};
ghost use Rattle.front_model.specs.Stands.{Holds, Owns, no_hands};
ghost use Rattle.front_model.specs.Steps.{IsNextBatch};
ghost use Rattle.front_moves.specs.Core.{CoreParts, face, HasFlushed};

use front_model::{link_steps_show, quiet_objects_stay, steps_hold, steps_may};

/// A front with nothing in it holds.
pub(crate) fn new_comes_to()
    ensures { (s : Link) (group : ℕ) → group < 8 → IsNew s group →
        Holds (face (record { indexes = unused group; pending = replicate 8 []; stores = [] })) no_hands s }
{
    steps_hold();
}

/// A flush shows what was shown.
pub(crate) fn flush_comes_to()
    ensures number { (c : CoreParts) (s : Link) (index : ℕ) → Holds (face c) no_hands s → IsOfGroup c.indexes.group index → (face c).last index ≡ last_of c.indexes index }
    ensures below { (c : CoreParts) (s : Link) (index : ℕ) → Holds (face c) no_hands s → IsOfGroup c.indexes.group index → last_of c.indexes index < 18446744073709551615 }
    // nothing was pending
    ensures nothing { (f : Face) (s : Link) (index : ℕ) → Holds f no_hands s → f.pending index ≡ [] → HasFlushed f f s s index }
    // the next batch of the index
    ensures may { (c : CoreParts) (s : Link) (index : ℕ) (batch : Batch) → Holds (face c) no_hands s → IsOfGroup c.indexes.group index →
        IsNextBatch (face c) index batch → MayEnqueue s batch }
    ensures batch { (c d : CoreParts) (s t : Link) (index place : ℕ) (batch : Batch) → Holds (face c) no_hands s → IsOfGroup c.indexes.group index →
        place + 8 * c.indexes.group ≡ index → IsNextBatch (face c) index batch → batch.number < 18446744073709551615 →
        last_of d.indexes index ≡ batch.number → d ≡ record c { indexes = with_last c.indexes index batch.number; pending = slice_set c.pending place [] } →
        t ≡ enqueued s batch → HasFlushed (face c) (face d) s t index }
    ensures owns { (c : CoreParts) (s : Link) → Holds (face c) no_hands s → Owns (face c).objects s }
{
    steps_hold();
    steps_may();
    link_steps_show();
    quiet_objects_stay();
}
