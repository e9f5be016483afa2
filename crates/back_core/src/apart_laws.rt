// What share groups over one back leave to each other.
ghost use Rattle.std.specs.Prelude.{◌≡◌, ◌≢◌, ◌≤◌, ◌+◌, ℕ, false, List, [], ◌∷◌, ◌++◌, Some};
ghost use Rattle.back_core.specs.declared.back_event.BackEvent.{BackEvent};
ghost use Rattle.back_core.specs.Answers.{Learns};
ghost use Rattle.back_core.specs.History.{own_part, link_of, completed, is_own, own_events};
ghost use Rattle.back_core.specs.Own.{Own};
ghost use Rattle.back_core.specs.Frame.{GoesOn, uploaded, host_bytes};
ghost use Rattle.back_core.specs.Run.{journal_of, IsRun};
ghost use Rattle.vk_device.specs.Journal.{kind_of};

/// The calls of one group leave another one its own part, and so do the steps of the batches, cleanups, the change to
/// closing and stops. All that the other one may learn is that completed numbers have risen.
pub fn groups_are_apart()
    ensures calls { (h k : List BackEvent) (a b : ℕ) → GoesOn a (Some h) (Some k) → a ≢ b → Learns (link_of h b) (link_of k b) }
    ensures own { (h k : List BackEvent) (a b : ℕ) → GoesOn a (Some h) (Some k) → a ≢ b → own_part k b ≡ own_part h b }
    ensures completed { (h k : List BackEvent) (a : ℕ) → GoesOn a (Some h) (Some k) → (index : ℕ) → completed h index ≤ completed k index }
    // an event that is not of a group's own calls
    ensures others { (h : List BackEvent) (g : ℕ) (e : BackEvent) → is_own g e ≡ false → own_part (h ++ e ∷ []) g ≡ own_part h g }
    ensures learns { (h : List BackEvent) (g : ℕ) (e : BackEvent) → is_own g e ≡ false → Learns (link_of h g) (link_of (h ++ e ∷ []) g) }
    ensures rises { (h : List BackEvent) (e : BackEvent) (index : ℕ) → completed h index ≤ completed (h ++ e ∷ []) index }
    // a group's part depends on the events of its own calls alone
    ensures alone { (h : List BackEvent) (g : ℕ) → own_part h g ≡ own_part (own_events h g) g }
    ensures same { (h k : List BackEvent) (g : ℕ) → own_events h g ≡ own_events k g → own_part h g ≡ own_part k g }
    // the journal gains the host writes of the group's list, and no others
    ensures wrote { (h k : List BackEvent) (a : ℕ) (gained : List Own) → GoesOn a (Some h) (Some k) →
        (link_of k a).mine ≡ (link_of h a).mine ++ gained →
        host_bytes (journal_of k) ≡ host_bytes (journal_of h) + uploaded gained }
    // a group that made no object left the objects of the device as they were
    ensures objects { (h k : List BackEvent) (a : ℕ) → IsRun k → GoesOn a (Some h) (Some k) → (link_of k a).kinds ≡ (link_of h a).kinds →
        (id : ℕ) → kind_of (journal_of k) id ≡ kind_of (journal_of h) id }
{}
