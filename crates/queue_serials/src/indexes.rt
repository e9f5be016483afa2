// Which indexes of a group are live, and the last number of each.
ghost use Rattle.std.specs.Prelude.{◌≡◌, ◌+◌, ◌*◌, ◌^◌, ◌<◌, ◌≤◌, ℕ, true, false, slice_index_or, IfSome, MatchOption, MatchResult};
ghost use Rattle.queue_serials.specs.Indexes.{unused, IsOfGroup, is_live, last_of, with_live, with_last, IsLowestFree, AreAllLive};

use std::marker::Model;
use vk_types::SerialIndex;

/// Why an index is not given: all eight of the group are live.
#[derive(Clone, Copy, Debug, PartialEq, Eq)]
pub struct Full;

/// The eight indexes of a group. Contracts see which are live, and the last number of each.
#[derive(Debug, Drop)]
pub struct Indexes {
    group: u8,
    live: [bool; 8],
    last: [u64; 8],
}

impl Model for Indexes {
    ghost use Rattle.std.specs.Prelude.{◌<◌};
    ghost use Rattle.queue_serials.specs.Indexes.{IndexTable};

    ghost Value = { IndexTable };

    ghost view = { λ t. record { group = t.group; live = t.live; last = t.last } };

    ghost invariant = { λ t. t.group < 8 };
}

impl Indexes {
    /// The indexes of a group: none is live, and the last number of each is 0.
    pub fn new(group: u8) -> Indexes
        requires { group < 8 }
        ensures { result ≡ unused group }
    {
        Indexes {
            group,
            live: [false; 8],
            last: [0; 8],
        }
    }

    /// Makes the lowest index that is not live a live one and gives it; `Full` exactly where all eight are live. An
    /// index that is taken again goes on counting.
    pub fn take(&mut self) -> Result<SerialIndex, Full>
        ensures lowest { MatchResult result (λ index. IsLowestFree self.old index) (λ _. AreAllLive self.old) }
        ensures table { MatchResult result (λ index. self.new ≡ with_live self.old index true) (λ _. self.new ≡ self.old) }
    {
        match self.free_place() {
            Some(place) => {
                self.live[usize::from(place)] = true;
                Ok(SerialIndex::new(8 * self.group + place))
            }
            None => Err(Full),
        }
    }

    /// Ends the life of an index; its last number stays.
    pub fn give_back(&mut self, index: SerialIndex)
        requires group { IsOfGroup self.old index }
        requires live { is_live self.old index ≡ true }
        ensures { self.new ≡ with_live self.old index false }
    {
        let place = self.place(index);
        self.live[place] = false;
    }

    /// The last number that the index gave, 0 before the first.
    pub fn last(&self, index: SerialIndex) -> u64
        requires { IsOfGroup self.now index }
        ensures { result ≡ last_of self.now index }
    {
        self.last[self.place(index)]
    }

    /// The index's next number, one more than its last, which it becomes.
    pub fn next(&mut self, index: SerialIndex) -> u64
        requires group { IsOfGroup self.old index }
        requires below { last_of self.old index + 1 < 2 ^ 64 }
        ensures number { result ≡ last_of self.old index + 1 }
        ensures table { self.new ≡ with_last self.old index result }
        ensures last { last_of self.new index ≡ result }
    {
        let place = self.place(index);
        let number = self.last[place] + 1;
        self.last[place] = number;
        number
    }

    // The lowest place that is not live.
    fn free_place(&self) -> Option<u8>
        ensures group { self.now.group < 8 }
        ensures free { IfSome result (λ place. (place < 8) × (slice_index_or self.now.live place false ≡ false)) }
        ensures below { MatchOption result ((k : ℕ) → k < 8 → slice_index_or self.now.live k false ≡ true) (λ place. (k : ℕ) → k < place → slice_index_or self.now.live k false ≡ true) }
    {
        for place in 0..8u8 {
            if !self.live[usize::from(place)] {
                return Some(place);
            }
        }
        None
    }

    // The index's place in the group.
    fn place(&self, index: SerialIndex) -> usize
        requires { IsOfGroup self.now index }
        ensures place { result + 8 * self.now.group ≡ index }
        ensures bound { result < 8 }
    {
        usize::from(index.get() - 8 * self.group)
    }
}
