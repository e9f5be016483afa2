// What holds of each history in which each event was allowed.
ghost use Rattle.std.specs.Prelude.{◌≡◌, ℕ, ◌+◌, ◌/◌, ◌<◌, ◌≤◌, List, [], ◌∷◌, ◌++◌, length, take, slice_get, Contains, Some, None, IsSome, true, false};
ghost use Rattle.cells.specs.Contents.{cells, part, Agrees};
ghost use Rattle.vk_types.specs.declared.ops.Node.{Node};
ghost use Rattle.vk_types.specs.declared.batches.Batch.{Batch};
ghost use Rattle.vk_model.specs.Log.{IsSound};
ghost use Rattle.vk_model.specs.Meaning.{IsSettled};
ghost use Rattle.vk_device.specs.Journal.{kind_of, creates, creates_of, accepted, node_at, ReachesTo};
ghost use Rattle.vk_device.specs.Order.{log_of, order_of, place_of, AllRan, IsVisible, FindItsLayouts};
ghost use Rattle.vk_device.specs.Running.{IsInOrder};
ghost use Rattle.garbage.specs.declared.entry.Garbage.{Garbage};
ghost use Rattle.garbage.specs.Collecting.{is_covered, collect};
ghost use Rattle.submit_queue.specs.Histories as queue;
ghost use Rattle.back_core.specs.declared.back_event.BackEvent.{BackEvent};
ghost use Rattle.back_core.specs.Own as own;
ghost use Rattle.back_core.specs.Link.{contents_of};
ghost use Rattle.back_core.specs.Needs.{IsFresh, HostMay, MayEnqueue, HasBatch};
ghost use Rattle.back_core.specs.History.{queue_event, queue_history, completed, link_of};
ghost use Rattle.back_core.specs.Run.{garbage_of, garbage_after, without_covered, covered_in, destroys, logged_by, journal_of, MayHappen, WereRead, IsRun, IsAcceptable, IsLeftAlone, work_left, IsProgress};

/// A history goes on by one event that may come next, and so do the journal and the garbage.
pub fn runs_go_on()
    ensures starts { IsRun [] }
    ensures goes_on { (h : List BackEvent) (e : BackEvent) → IsRun h → MayHappen h e → IsRun (h ++ e ∷ []) }
    ensures opening { journal_of [] ≡ [] }
    ensures journal { (h : List BackEvent) (e : BackEvent) → journal_of (h ++ e ∷ []) ≡ journal_of h ++ logged_by h e }
    ensures clean { garbage_of [] ≡ [] }
    ensures garbage { (h : List BackEvent) (e : BackEvent) → garbage_of (h ++ e ∷ []) ≡ garbage_after (garbage_of h) e }
    ensures queue { (h : List BackEvent) (e : BackEvent) → queue_history (h ++ e ∷ []) ≡ queue_history h ++ queue_event e }
    ensures collects { (read : List ℕ) (list : List Garbage) → without_covered read (length (collect list read).0 + 1) list ≡ (collect list read).1 }
{}

/// The log of the device is sound, an object that the host may read has what the list of its group evaluates to, and each
/// batch finds the layouts that it names.
pub fn runs_are_sound()
    ensures sound { (h : List BackEvent) → IsRun h → IsSound (log_of (journal_of h)) }
    ensures layouts { (h : List BackEvent) (batch : Batch) → IsRun h → queue.first_flushed (queue_history h) ≡ Some batch →
        FindItsLayouts (log_of (journal_of h)) batch }
    ensures visible { (h : List BackEvent) (g id at size : ℕ) → IsRun h → HostMay (link_of h g) id at size →
        own.IsReadable (own.log_of (link_of h g).mine) id at size → IsVisible (log_of (journal_of h)) id at (at + size) }
    ensures agrees { (h : List BackEvent) (bytes_of : ℕ → List ℕ) (g id at size : ℕ) → IsRun h → IsInOrder (journal_of h) bytes_of →
        HostMay (link_of h g) id at size →
        Agrees (part (bytes_of id) at size) (cells size (λ i. contents_of (link_of h g) id (at + i))) }
{
    runs_meet_the_device();
}

/// What the calls on the device need holds, and so does what the submission queue needs.
pub fn runs_meet_the_device()
    // an object that was never made
    ensures fresh { (h : List BackEvent) (g : ℕ) → IsRun h → IsFresh (link_of h g) (creates (journal_of h)) }
    // a buffer that the host may use
    ensures some { (h : List BackEvent) (g id at size : ℕ) → HostMay (link_of h g) id at size → 0 < size }
    ensures inside { (h : List BackEvent) (g id at size : ℕ) → IsRun h → HostMay (link_of h g) id at size →
        ReachesTo (kind_of (journal_of h) id) (at + size) }
    ensures settled { (h : List BackEvent) (g id at size : ℕ) → IsRun h → HostMay (link_of h g) id at size → IsLeftAlone h id }
    // a batch, given what is known of its layouts
    ensures accepts { (h : List BackEvent) (batch : Batch) → IsRun h → queue.first_flushed (queue_history h) ≡ Some batch →
        FindItsLayouts (log_of (journal_of h)) batch → IsAcceptable (journal_of h) batch }
    ensures pushes { (h : List BackEvent) (batch : Batch) → IsRun h → batch.index < 64 →
        MayEnqueue (link_of h (batch.index / 8)) batch → queue.MayPush (queue_history h) batch }
    // a node that the device ran, which it had not run before
    ensures runs { (h : List BackEvent) (batch node : ℕ) (n : Node) → IsRun h → node_at (accepted (journal_of h)) batch node ≡ Some n →
        (Contains (order_of (journal_of h)) (place_of (journal_of h) batch node) → ⊥) → queue.MayRun (queue_history h) batch node }
    // garbage that is covered, after some of it was destroyed
    ensures destroys { (h : List BackEvent) (read : List ℕ) (k : ℕ) (item : Garbage) → IsRun h → WereRead h read →
        slice_get (covered_in h read) k ≡ Some item →
        IsSome (kind_of (journal_of h ++ destroys (take k (covered_in h read))) item.handle.0) }
    ensures left_alone { (h : List BackEvent) (read : List ℕ) (k : ℕ) (item : Garbage) → IsRun h → WereRead h read →
        slice_get (covered_in h read) k ≡ Some item → IsLeftAlone h item.handle.0 }
    ensures stays_settled { (h : List BackEvent) (list : List Garbage) (id : ℕ) →
        IsSettled (log_of (journal_of h)) (order_of (journal_of h)) id →
        IsSettled (log_of (journal_of h ++ destroys list)) (order_of (journal_of h ++ destroys list)) id }
    // no later batch touches it
    ensures forgotten { (h more : List BackEvent) (read : List ℕ) (item : Garbage) (batch : Batch) → IsRun (h ++ more) → WereRead h read →
        Contains (covered_in h read) item → batch.index < 64 → MayEnqueue (link_of (h ++ more) (batch.index / 8)) batch →
        own.batch_touches batch item.handle.0 ≡ false }
    // a back that has nothing left to do has done all
    ensures idle { (h : List BackEvent) (batch node : ℕ) → IsRun h → AllRan (journal_of h) → queue.MayRun (queue_history h) batch node → ⊥ }
    ensures done { (h : List BackEvent) (g index number : ℕ) → IsRun h → queue.first_flushed (queue_history h) ≡ None → AllRan (journal_of h) →
        ((place : ℕ) → queue.CanRetire (queue_history h) place → ⊥) → HasBatch (link_of h g) index number → number ≤ completed h index }
    ensures less { (h : List BackEvent) (e : BackEvent) → IsRun h → MayHappen h e → IsProgress e → work_left (h ++ e ∷ []) < work_left h }
{}
