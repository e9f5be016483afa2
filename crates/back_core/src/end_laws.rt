// What runs leave on the device.
ghost use Rattle.std.specs.Prelude.{◌≡◌, ℕ, ◌≤◌, List, [], ◌∷◌, ◌++◌, length, slice_index, All, Some, None, IsSome, true};
ghost use Rattle.vk_types.specs.declared.stops.Stop.{Stop};
ghost use Rattle.vk_types.specs.declared.batches.QueueSerial.{QueueSerial};
ghost use Rattle.resource_use.specs.Uses.{number_of, are_covered, AreDistinct};
ghost use Rattle.vk_device.specs.Journal.{kind_of};
ghost use Rattle.garbage.specs.Collecting.{collect};
ghost use Rattle.back_core.specs.declared.back_event.BackEvent.{BackEvent};
ghost use Rattle.back_core.specs.History.{own_part, completed, link_of};
ghost use Rattle.back_core.specs.Frame.{IsPartOf, GoesOn, IsGoing, uploaded, host_bytes};
ghost use Rattle.back_core.specs.Run.{garbage_of, covered_in, destroys, journal_of, IsRun};
ghost use Rattle.back_core.specs.Back.{closed_by, stopped_by};
ghost use Rattle.back_core.specs.Steps.{AreCompleted, IsAllGiven, IsWhole, CleansWhole, HasGoneOn, cleaned};

/// A run of any number of groups in which no cleanup was stopped, and each object was given away: once all that waits is
/// covered, a cleanup leaves no object on the device.
pub fn runs_end_clean()
    ensures clean { (h : List BackEvent) (read : List ℕ) → IsRun h → CleansWhole h →
        ((g id : ℕ) → IsSome ((link_of h g).kinds id) → IsSome ((link_of h g).given id)) →
        ((g id : ℕ) (uses : List QueueSerial) → (link_of h g).given id ≡ Some uses → are_covered read uses ≡ true) →
        (id : ℕ) → kind_of (journal_of h ++ destroys (collect (garbage_of h) read).0) id ≡ None }
    // the same after the cleanup, where each completed number was read
    ensures cleaned { (h : List BackEvent) (count : ℕ) (read : List ℕ) → IsRun h → CleansWhole h → ((g : ℕ) → IsAllGiven h g) → AreCompleted h read →
        count ≡ length (collect (garbage_of h) read).0 → (id : ℕ) → kind_of (journal_of (cleaned h read count)) id ≡ None }
    // uses are covered where each index's number is
    ensures covers { (read : List ℕ) (uses : List QueueSerial) → AreDistinct uses →
        ((index : ℕ) → number_of uses index ≤ slice_index read index) → are_covered read uses ≡ true }
{}

/// A cleanup that was not stopped destroyed all that its numbers covered, and no other event is a cleanup.
pub fn cleanups_stay_whole()
    ensures starts { CleansWhole [] }
    ensures goes_on { (h : List BackEvent) (e : BackEvent) → CleansWhole h → IsWhole h e → CleansWhole (h ++ e ∷ []) }
    ensures cleaned { (h : List BackEvent) (read : List ℕ) (count : ℕ) → CleansWhole h → count ≡ length (covered_in h read) → CleansWhole (cleaned h read count) }
    ensures calls { (h k : List BackEvent) (g : ℕ) → GoesOn g (Some h) (Some k) → CleansWhole h → CleansWhole k }
    ensures batches { (h k : List BackEvent) → HasGoneOn h k → CleansWhole h → CleansWhole k }
    ensures closes { (h : List BackEvent) → CleansWhole h → CleansWhole (closed_by h) }
    ensures stops { (h : List BackEvent) (stop : Stop) → CleansWhole h → CleansWhole (stopped_by h stop) }
{}

/// What went well goes on to do so: a back that was not stopped is not stopped by steps of batches, nor by a cleanup. Neither has the host
/// write anything.
pub fn backs_keep_going()
    ensures starts { IsGoing (Some []) }
    ensures batches { (h k : List BackEvent) → HasGoneOn h k → IsGoing (Some h) → IsGoing (Some k) }
    ensures cleaned { (h : List BackEvent) (read : List ℕ) (count : ℕ) → IsGoing (Some h) → IsGoing (Some (cleaned h read count)) }
    ensures batches_write { (h k : List BackEvent) → HasGoneOn h k → host_bytes (journal_of k) ≡ host_bytes (journal_of h) }
    ensures cleanups_write { (h : List BackEvent) (read : List ℕ) (count : ℕ) → host_bytes (journal_of (cleaned h read count)) ≡ host_bytes (journal_of h) }
{}

/// In a run of one group no other group made anything, and there was no cleanup. What a group gave away stays so.
pub fn runs_of_one_group()
    ensures given { (h : List BackEvent) (g : ℕ) → All (IsPartOf g) h → IsAllGiven h g → (b : ℕ) → IsAllGiven h b }
    ensures whole { (h : List BackEvent) (g : ℕ) → All (IsPartOf g) h → CleansWhole h }
    // the journal has the host writes of the group's list, and no others
    ensures wrote { (h : List BackEvent) (g : ℕ) → All (IsPartOf g) h → host_bytes (journal_of h) ≡ uploaded (link_of h g).mine }
    ensures stays { (h k : List BackEvent) (g : ℕ) → own_part k g ≡ own_part h g → ((index : ℕ) → completed h index ≤ completed k index) → IsAllGiven h g → IsAllGiven k g }
{}
