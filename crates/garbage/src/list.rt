// The garbage of a device, in the order in which it was given.
ghost use Rattle.std.specs.Prelude.{◌≡◌, ◌==◌, ◌+◌, ◌<◌, ◌≤◌, [], ◌∷◌, ◌++◌, length, IfNone, IfSome, OnOk};
ghost use Rattle.garbage.specs.Collecting.{AreKept, TakesOut};

use crate::turning::{new_turning, next_covered, put_back, seek};
use crate::{Garbage, Turning};
use std::alloc::{AllocError, Global};
use std::marker::Model;

/// Entries that wait for the device. Contracts see the list of them and the spare room, which is the count of entries
/// that can be put without memory. The list has to be empty when it ends: its handles are spent by nobody else.
#[derive(Debug)]
pub struct GarbageList {
    turning: Turning,
    // How many more entries can be put without memory.
    promised: usize,
}

impl Model for GarbageList {
    ghost use Rattle.garbage.specs.Steps.{GarbageAndRoom, in_order, HasRoom, WaitFor};

    ghost Value = { GarbageAndRoom };

    ghost view = { λ g. record { items = in_order g.turning; room = g.promised } };

    ghost invariant = { λ g. HasRoom g.turning g.promised × WaitFor g.turning.next g.turning.passed.items };
}

impl GarbageList {
    /// No entry. This takes no memory.
    pub fn new(alloc: Global) -> GarbageList
        ensures { result.items ≡ [] }
    {
        GarbageList {
            turning: new_turning(alloc),
            promised: 0,
        }
    }

    /// Makes room for one more entry than before. For want of memory the entries stay, and no room is lost.
    pub fn reserve_one(&mut self) -> Result<(), AllocError>
        ensures room { OnOk result (self.old.room + 1 ≤ self.new.room) }
        ensures kept { self.old.room ≤ self.new.room }
        ensures items { self.new.items ≡ self.old.items }
    {
        let passed = self.turning.passed.len();
        let coming = self.turning.coming.len();
        let fit = passed + coming + self.promised + 1;
        self.turning.passed.reserve(fit - passed)?;
        self.turning.coming.reserve(fit - coming)?;
        self.promised += 1;
        Ok(())
    }

    /// Puts an entry behind the others. This takes no memory.
    pub fn put(&mut self, item: Garbage)
        requires { 0 < self.old.room }
        ensures items { self.new.items ≡ self.old.items ++ item ∷ [] }
        ensures room { self.old.room ≤ self.new.room + 1 }
    {
        put_back(&mut self.turning.coming, item);
        self.promised -= 1;
    }

    /// Takes out the first covered entry at or after the place `from`, and gives its place; `None` exactly where no entry
    /// from there on is covered. The entries behind it move up by one place, so that a cleanup goes on from the place that
    /// it was given. Such a cleanup looks at each entry at most once; it looks only at the entries that were put since the last
    /// one, where no number that was read has reached what another entry waits for.
    pub fn take_covered(&mut self, from: usize, read: &[u64; 64]) -> Option<(usize, Garbage)>
        ensures some { IfSome result (λ found. TakesOut self.old.items self.new.items from read.now found.0 found.1) }
        ensures none { IfNone result (AreKept read.now self.old.items from (length self.old.items)) }
        ensures unchanged { IfNone result (self.new.items ≡ self.old.items) }
        ensures room { self.old.room ≤ self.new.room }
    {
        seek(&mut self.turning, from, read);
        next_covered(&mut self.turning, read)
    }

    /// Takes out the first entry; `None` exactly where there is none. This takes no memory.
    pub fn take_first(&mut self) -> Option<Garbage>
        ensures some { IfSome result (λ item. self.old.items ≡ item ∷ self.new.items) }
        ensures none { IfNone result (self.old.items ≡ []) }
        ensures unchanged { IfNone result (self.new.items ≡ self.old.items) }
        ensures room { self.old.room ≤ self.new.room }
    {
        match self.turning.passed.pop_front() {
            Some(item) => Some(item),
            None => self.turning.coming.pop_front(),
        }
    }

    /// Whether no entry is left.
    pub fn is_empty(&self) -> bool
        ensures { result ≡ (length self.now.items == 0) }
    {
        self.turning.passed.is_empty() && self.turning.coming.is_empty()
    }

    /// Ends a list without entries.
    pub fn destroy_empty(self)
        requires { length self.items ≡ 0 }
    {
        let GarbageList {
            turning,
            promised: _,
        } = self;
        let Turning {
            passed,
            coming,
            next: _,
        } = turning;
        passed.destroy_empty();
        coming.destroy_empty();
    }
}
