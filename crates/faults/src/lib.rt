//! Counts of faults of a source, a sink or a device. A count never falls, and one that stands at its last value
//! counts as risen.
#![tactic(auto)]

ghost use Rattle.std.specs.Prelude.{◌≡◌, ◌≤◌, ◌+◌, ◌-◌, ◌^◌, min};
ghost use Rattle.faults.specs.Faults.{Rose};

use std::marker::Model;

/// A count of faults, seen as its number. It starts at 0.
#[derive(Debug, Drop)]
pub struct FaultCount {
    count: u64,
}

impl Model for FaultCount {
    ghost use Rattle.std.specs.Prelude.{ℕ};

    ghost Value = { ℕ };

    ghost view = { λ f. f.count };
}

impl FaultCount {
    pub fn new() -> FaultCount
        ensures { result ≡ 0 }
    {
        FaultCount { count: 0 }
    }

    /// The number of faults so far, at most 2^64 - 1.
    pub fn get(&self) -> u64
        ensures { result ≡ self.now }
    {
        self.count
    }

    /// Counts one more fault. At the last value the count stands still.
    pub fn rise(&mut self)
        ensures exact { self.new ≡ min (self.old + 1) (2 ^ 64 - 1) }
        ensures rose { Rose self.old self.new }
        ensures later { self.old ≤ self.new }
    {
        self.count = self.count.saturating_add(1);
    }
}
