// A list that a cleanup passes over once, as two parts.
ghost use Rattle.std.specs.Prelude.{◌≡◌, ℕ, ◌+◌, ◌<◌, ◌≤◌, [], ◌∷◌, ◌++◌, ◌⊎◌, length, slice_index, min, IfNone, IfSome, IsTrue};
ghost use Rattle.std.specs.VecDeque.{deque_len, deque_capacity};
ghost use Rattle.garbage.specs.Collecting.{AreKept, TakesOut};
ghost use Rattle.garbage.specs.Steps.{in_order, count, HasRoom, OnlyTurns, AreLess, WaitFor};

use crate::Garbage;
use std::alloc::Global;
use std::collections::VecDeque;
use std::mem;
use vk_types::QueueSerial;

/// The entries that a cleanup passed, and then those that are to come. Each part has room for all of them.
#[derive(Debug)]
pub(crate) struct Turning {
    pub(crate) passed: VecDeque<Garbage>,
    pub(crate) coming: VecDeque<Garbage>,
    /// For each index of serials a number that is at most the least that an entry which was passed waits for. So numbers
    /// that are all less cover none of the entries that were passed.
    pub(crate) next: [u64; 64],
}

/// No entry.
pub(crate) fn new_turning(alloc: Global) -> Turning
    ensures order { in_order result ≡ [] }
    ensures room { HasRoom result 0 }
    ensures waits { WaitFor result.next result.passed.items }
{
    Turning {
        passed: VecDeque::new(alloc),
        coming: VecDeque::new(alloc),
        next: [u64::MAX; 64],
    }
}

/// Whether each number that was read is less than the next one.
pub(crate) fn are_less(read: &[u64; 64], next: &[u64; 64]) -> bool
    ensures { IsTrue result → AreLess read.now next.now }
{
    read.iter().zip(next).all(|(number, least)| number < least)
}

/// Notes that an entry waits for a number.
pub(crate) fn note_wait(next: &mut [u64; 64], serial: QueueSerial)
    ensures lower { (i : ℕ) → slice_index next.new i ≤ slice_index next.old i }
    ensures noted { slice_index next.new serial.index ≤ serial.number }
    ensures bound { serial.index < 64 }
{
    let at = usize::from(serial.index.get());
    next[at] = next[at].min(serial.number);
}

/// Puts an entry behind the others, where there is room for it.
pub(crate) fn put_back(to: &mut VecDeque<Garbage>, item: Garbage)
    requires { deque_len to.old < deque_capacity to.old }
    ensures items { to.new.items ≡ to.old.items ++ item ∷ [] }
    ensures len { deque_len to.new ≡ deque_len to.old + 1 }
    ensures capacity { deque_capacity to.new ≡ deque_capacity to.old }
{
    to.push_back(item).unwrap()
}

/// Passes entries until so many were passed, or none is to come.
pub(crate) fn pass(turning: &mut Turning, limit: usize)
    requires room { HasRoom turning.old 0 }
    requires before { deque_len turning.old.passed ≤ limit }
    ensures turns { OnlyTurns turning.old turning.new }
    ensures room { HasRoom turning.new 0 }
    ensures before { deque_len turning.new.passed ≤ limit }
    ensures reached { (deque_len turning.new.passed ≡ limit) ⊎ (deque_len turning.new.coming ≡ 0) }
{
    while turning.passed.len() < limit {
        match turning.coming.pop_front() {
            Some(item) => put_back(&mut turning.passed, item),
            None => return,
        }
    }
}

/// Goes to a place of the list, or to its end where that lies before. It stays behind the place where no entry between them
/// is covered.
pub(crate) fn seek(turning: &mut Turning, place: usize, read: &[u64; 64])
    requires room { HasRoom turning.old 0 }
    requires waits { WaitFor turning.old.next turning.old.passed.items }
    ensures turns { OnlyTurns turning.old turning.new }
    ensures room { HasRoom turning.new 0 }
    ensures waits { WaitFor turning.new.next turning.new.passed.items }
    ensures kept { AreKept read.now turning.new.passed.items place (length turning.new.passed.items) }
    ensures reached { (place ≤ length turning.new.passed.items) ⊎ (length turning.new.coming.items ≡ 0) }
{
    if place < turning.passed.len() && !are_less(read, &turning.next) {
        turn_round(turning);
    }
    if turning.passed.len() < place {
        pass(turning, place);
        turning.next = [0; 64];
    }
}

/// Goes back to the start of the list.
pub(crate) fn turn_round(turning: &mut Turning)
    requires { HasRoom turning.old 0 }
    ensures turns { OnlyTurns turning.old turning.new }
    ensures room { HasRoom turning.new 0 }
    ensures start { deque_len turning.new.passed ≡ 0 }
{
    let all = turning.passed.len() + turning.coming.len();
    pass(turning, all);
    mem::swap(&mut turning.passed, &mut turning.coming);
    turning.next = [u64::MAX; 64];
}

/// Takes out the next entry that is covered, with its place, and passes the others before it.
pub(crate) fn next_covered(turning: &mut Turning, read: &[u64; 64]) -> Option<(usize, Garbage)>
    requires room { HasRoom turning.old 0 }
    requires waits { WaitFor turning.old.next turning.old.passed.items }
    ensures none { IfNone result (OnlyTurns turning.old turning.new) }
    ensures kept { IfNone result (AreKept read.now (in_order turning.new) (length turning.old.passed.items) (length (in_order turning.new))) }
    ensures some { IfSome result (λ found. TakesOut (in_order turning.old) (in_order turning.new) (length turning.old.passed.items) read.now found.0 found.1) }
    ensures count { IfSome result (λ _. count turning.new + 1 ≡ count turning.old) }
    ensures room { HasRoom turning.new 0 }
    ensures waits { WaitFor turning.new.next turning.new.passed.items }
    ensures capacity { min (deque_capacity turning.new.passed) (deque_capacity turning.new.coming) ≡ min (deque_capacity turning.old.passed) (deque_capacity turning.old.coming) }
{
    while let Some(item) = turning.coming.pop_front() {
        match item.uses.waits_for(read) {
            Some(serial) => note_wait(&mut turning.next, serial),
            None => return Some((turning.passed.len(), item)),
        }
        put_back(&mut turning.passed, item);
    }
    None
}
