// What a cleanup comes to.
ghost use Rattle.std.specs.Prelude.{◌≡◌, ℕ, List};
ghost use Rattle.garbage.specs.declared.entry.Garbage.{Garbage};
ghost use Rattle.garbage.specs.Collecting.{CleansUp, collect};

/// Taking covered entries out from the first place on, until none is covered, takes all that are covered, in order, and
/// leaves the others in order.
pub fn cleanups_collect()
    ensures { (read : List ℕ) (list taken left : List Garbage) → CleansUp read list 0 taken left → (taken, left) ≡ collect list read }
{}
