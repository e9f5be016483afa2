// What is known of completed numbers from the history alone.
ghost use Rattle.std.specs.Prelude.{◌≡◌, ◌≤◌, ℕ, List, [], ◌∷◌, ◌++◌, false};
ghost use Rattle.submit_queue.specs.Histories.{Event, is_retire, completed};

/// A completed number is 0 at first, never falls, and changes only where a batch is retired.
pub fn completed_numbers()
    ensures starts { (i : ℕ) → completed [] i ≡ 0 }
    ensures rises { (h : List Event) (e : Event) (i : ℕ) → completed h i ≤ completed (h ++ e ∷ []) i }
    ensures stays { (h : List Event) (e : Event) → is_retire e ≡ false → (i : ℕ) → completed (h ++ e ∷ []) i ≡ completed h i }
{}
