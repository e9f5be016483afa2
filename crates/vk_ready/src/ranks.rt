// Which slots are ready, found by rank.
ghost use Rattle.std.specs.Prelude.{◌≡◌, ◌<◌, ◌⊎◌, ◌↔◌, ℕ, [], length, slice_index, IfOk};
ghost use Rattle.vk_ready.specs.Slots.{Has, Rises};

use std::alloc::{AllocError, Global};
use std::marker::Model;

/// Slots below a room, in rising order. The room is cut in halves again and again, and the number at the middle of each part says
/// how many slots lie in its first half. So a slot goes in and comes out in as many steps as the room can be halved, and takes no memory.
#[derive(Debug, Drop)]
pub(crate) struct Ranks {
    halves: Vec<usize>,
    count: usize,
}

impl Model for Ranks {
    ghost use Rattle.std.specs.Vec.{vec_len};
    ghost use Rattle.vk_ready.specs.Halves.{SlotsAndRoom, slots_of, AreRanked};

    ghost Value = { SlotsAndRoom };

    ghost view = { λ r. record { slots = slots_of r.halves.items r.count; room = vec_len r.halves } };

    ghost invariant = { λ r. AreRanked r.halves.items r.count (slots_of r.halves.items r.count) };
}

impl Ranks {
    /// No slot, and no room. This takes no memory.
    pub(crate) fn new(alloc: Global) -> Ranks
        ensures slots { result.slots ≡ [] }
        ensures room { result.room ≡ 0 }
    {
        Ranks {
            halves: Vec::new(alloc),
            count: 0,
        }
    }

    /// No slot, with room for all below a number.
    pub(crate) fn with_room(alloc: Global, room: usize) -> Result<Ranks, AllocError>
        ensures { IfOk result (λ ranks. (ranks.slots ≡ []) × (ranks.room ≡ room)) }
    {
        Ok(Ranks {
            halves: vec![in alloc; 0; room]?,
            count: 0,
        })
    }

    /// The number below which each slot finds room.
    pub(crate) fn room(&self) -> usize
        ensures { result ≡ self.now.room }
    {
        self.halves.len()
    }

    /// How many slots there are.
    pub(crate) fn len(&self) -> usize
        ensures { result ≡ length self.now.slots }
    {
        self.count
    }

    /// Puts in a slot.
    pub(crate) fn offer(&mut self, slot: usize)
        requires inside { slot < self.old.room }
        requires other { Has self.old.slots slot → ⊥ }
        ensures rises { Rises self.new.slots }
        ensures holds { (k : ℕ) → Has self.new.slots k ↔ ((k ≡ slot) ⊎ Has self.old.slots k) }
        ensures room { self.new.room ≡ self.old.room }
    {
        let mut low = 0;
        let mut high = self.halves.len();
        while high - low > 1 {
            let middle = low + (high - low) / 2;
            if slot < middle {
                self.halves[middle] += 1;
                high = middle;
            } else {
                low = middle;
            }
        }
        self.count += 1;
    }

    /// Takes out the slot of this number, counted from 0 in rising order.
    pub(crate) fn withdraw(&mut self, number: usize) -> usize
        requires { number < length self.old.slots }
        ensures slot { result ≡ slice_index self.old.slots number }
        ensures rises { Rises self.new.slots }
        ensures others { (k : ℕ) → Has self.new.slots k ↔ ((k ≡ result → ⊥) × Has self.old.slots k) }
        ensures room { self.new.room ≡ self.old.room }
    {
        let mut low = 0;
        let mut high = self.halves.len();
        let mut rest = number;
        while high - low > 1 {
            let middle = low + (high - low) / 2;
            let half = self.halves[middle];
            if rest < half {
                self.halves[middle] = half - 1;
                high = middle;
            } else {
                rest -= half;
                low = middle;
            }
        }
        self.count -= 1;
        low
    }
}
