//! The turnstile.
ghost use Rattle.std.specs.Prelude.{◌≡◌, ℕ, ◌+◌, ◌<◌, ◌≤◌, [], ◌∷◌, ◌++◌, true, false, length, slice_index, slice_set, Contains, IfOk, IfErr, Some, None, ◌≢◌};
ghost use mathlib.Core.List.{IsPrefix};
ghost use Rattle.turnstile.specs.Histories.{own, added, NamesOnly, NamesNone, longer, greatest};
ghost use Rattle.turnstile.specs.Steps.{Gains};
ghost use Rattle.turnstile.specs.Passes.{first_pass, new_pass, JoinedBelow};
ghost use Rattle.turnstile.specs.Turns.{IsTurnOf};

use crate::chronicle::Chronicle;
use crate::pass::{Pass, Turn};
use crate::rule::{
    Board, COUNT, Gain, HOLDERS, JoinPass, Leave, LoadCount, LoadPublished, Opening, Place,
    SplitPass, Store, TakeLonger, WORDS,
};
use atomic_table::{Refused, Table};
use std::alloc::{AllocFailed, Global};
use std::marker::Model;
use std::snapshot::Snapshot;
use std::sync::Wait;

/// A value that one pass at a time may have, with 64 published numbers that are read without waiting. It is a table of one slot, which has the value, and 66 words.
#[derive(Drop)]
pub struct Turnstile<V: Chronicle> {
    board: Board<V>,
    seats: u32,
}

impl<V: Chronicle> Model for Turnstile<V> {
    ghost use Rattle.std.specs.Prelude.{◌≡◌};
    ghost use Rattle.turnstile.specs.Views.{TurnstileModel};

    ghost Value = { TurnstileModel };

    ghost view = { λ t. record { name = t.board.shared.table_id; seats = t.seats } };

    ghost invariant = { λ t. (t.board.shared.table_id.words ≡ 66) × (t.board.shared.table_id.slots ≡ 1) };
}

// What the words hold at the start.
fn first_words<V: Chronicle>(value: &V) -> [u64; WORDS]
    ensures ends { (length result ≡ 66) × (slice_index result 0 ≡ length (V.history value.now)) × (slice_index result 65 ≡ 0) }
    ensures shown { (word : ℕ) → 0 < word → word < 65 → slice_index result word ≡ V.published value.now word }
{
    let mut words = [0; WORDS];
    words[COUNT] = value.count();
    for word in 1..HOLDERS {
        words[word] = value.published(word as u32);
    }
    words
}

// The only value.
fn only<V>(mut slots: Vec<Option<V>>) -> V
    requires { (value : V) × (slots.items ≡ Some value ∷ []) }
    ensures { slots.items ≡ Some result ∷ [] }
{
    let slot = slots.pop().unwrap();
    slots.destroy_empty();
    slot.unwrap()
}

impl<V: Chronicle> Turnstile<V> {
    /// A turnstile with its pass 0, for at most `seats` passes, which has seen the value's history. No entry may name a pass yet.
    /// The words begin with the number of the history's entries and with the value's published numbers.
    ///
    /// # Errors
    ///
    /// The value comes back where there is no memory.
    pub fn new(alloc: Global, value: V, seats: u32) -> Result<(Turnstile<V>, Pass<V>), V>
        requires seats { 0 < seats }
        requires unnamed { NamesNone V.names (V.history value) }
        ensures ok { IfOk result (λ r. (r.0.seats ≡ seats) × (r.1 ≡ first_pass r.0.name (V.history value) r.1.words)) }
        ensures count { IfOk result (λ r. (length r.1.words ≡ 66) × (slice_index r.1.words 0 ≡ length (V.history value))) }
        ensures shown { IfOk result (λ r. (word : ℕ) → 0 < word → word < 65 → slice_index r.1.words word ≡ V.published value word) }
        ensures err { IfErr result (λ v. v ≡ value) }
    {
        let words = first_words(&value);
        let about = Opening {
            value: Snapshot::of(&value),
            words: Snapshot::of(&words),
        };
        let mut slots = Vec::new(alloc);
        if let Err(failed) = slots.push(Some(value)) {
            let AllocFailed { value } = failed;
            slots.destroy_empty();
            return Err(value.unwrap());
        }
        match Table::new(alloc, &words, slots, &about) {
            Ok((board, seat)) => Ok((Turnstile { board, seats }, Pass { seat })),
            Err(Refused { slots }) => Err(only(slots)),
        }
    }

    /// Takes a turn: the value is with the pass until `put`. It waits while another pass has a turn, and may wait forever.
    /// The history begins with all that the pass has seen, and its entries that name the pass, or one that was joined into it, are those that it had seen.
    /// Each published number of the value is what its word holds, and not below what the pass knew of the word.
    pub fn take<R: Wait>(&self, rt: &R, pass: &mut Pass<V>) -> Turn<V>
        requires name { pass.old.name ≡ self.now.name }
        requires idle { pass.old.holds ≡ false }
        ensures begins { IsPrefix pass.old.seen (V.history result.value) }
        ensures own { own V.names pass.old.number (V.history result.value) ≡ own V.names pass.old.number pass.old.seen }
        ensures joined { (k : ℕ) → Contains pass.old.joined k → own V.names k (V.history result.value) ≡ own V.names k pass.old.seen }
        ensures pass { pass.new ≡ record pass.old { seen = V.history result.value; holds = true; words = pass.new.words } }
        ensures words { length pass.new.words ≡ 66 }
        ensures known { (word : ℕ) → word < 65 → slice_index pass.old.words word ≤ slice_index pass.new.words word }
        ensures count { (slice_index pass.new.words 0 ≡ length (V.history result.value)) × (pass.old.counted ≤ length (V.history result.value)) }
        ensures shown { (word : ℕ) → 0 < word → word < 65 → slice_index pass.new.words word ≡ V.published result.value word }
        ensures loads { (word : ℕ) → 0 < word → word < 65 → greatest word pass.old.loads ≤ V.published result.value word }
        ensures turn { IsTurnOf result pass.new }
    {
        self.gain(rt, &mut pass.seat);
        let value = self.board.shared.exchange(&mut pass.seat, 0, None).unwrap();
        Turn {
            value,
            taken: Snapshot::of(pass),
        }
    }

    /// Gives the value back. It does not wait and takes no memory.
    /// The history may only have grown, by entries that name this pass or none, and each published number must be what its word holds.
    pub fn put(&self, pass: &mut Pass<V>, turn: Turn<V>)
        requires name { pass.old.name ≡ self.now.name }
        requires turn { IsTurnOf turn pass.old }
        requires begins { IsPrefix pass.old.seen (V.history turn.value) }
        requires names { NamesOnly V.names pass.old.number (added pass.old.seen (V.history turn.value)) }
        requires shown { (word : ℕ) → 0 < word → word < 65 → slice_index pass.old.words word ≡ V.published turn.value word }
        ensures pass { pass.new ≡ record pass.old { seen = V.history turn.value; holds = false; words = slice_set pass.old.words 0 (length (V.history turn.value)) } }
        ensures own { own V.names pass.old.number pass.new.seen ≡ own V.names pass.old.number pass.old.seen ++ own V.names pass.old.number (added pass.old.seen (V.history turn.value)) }
        ensures others { (k : ℕ) → k ≢ pass.old.number → own V.names k pass.new.seen ≡ own V.names k pass.old.seen }
    {
        let Turn { value, taken: _ } = turn;
        let count = value.count();
        let shared = &self.board.shared;
        shared.store::<Store>(&mut pass.seat, COUNT, count);
        let before = shared.exchange(&mut pass.seat, 0, Some(value));
        let None = before else { unreachable!() };
        shared.store::<Leave>(&mut pass.seat, HOLDERS, 0);
        shared.wake_one(HOLDERS);
    }

    /// Stores in a word, from 1 to 64, the number that the turn's value has for it, which must not be below what the word holds.
    /// From then on every pass can find it. It does not wait and takes no memory.
    pub fn publish(&self, pass: &mut Pass<V>, turn: &Turn<V>, word: u32)
        requires name { pass.old.name ≡ self.now.name }
        requires turn { IsTurnOf turn.now pass.old }
        requires word { (0 < word) × (word < 65) }
        requires rises { slice_index pass.old.words word ≤ V.published turn.now.value word }
        ensures { pass.new ≡ record pass.old { words = slice_set pass.old.words word (V.published turn.now.value word) } }
    {
        let number = turn.value.published(word);
        let shared = &self.board.shared;
        shared.store::<Store>(&mut pass.seat, word as usize, number);
    }

    /// The number in a word, from 1 to 64, by one load. It does not wait, also while another pass has a turn, and takes no memory.
    /// It is not below what the pass found there before, and no later turn of the pass finds less.
    pub fn published(&self, pass: &mut Pass<V>, word: u32) -> u64
        requires name { pass.old.name ≡ self.now.name }
        requires word { (0 < word) × (word < 65) }
        ensures pass { pass.new ≡ record pass.old { loads = pass.old.loads ++ (word, result) ∷ [] } }
        ensures rises { (greatest word pass.old.loads ≤ result) × (slice_index pass.old.words word ≤ result) }
        ensures greatest { greatest word pass.new.loads ≡ result }
        ensures others { (k : ℕ) → k ≢ word → greatest k pass.new.loads ≡ greatest k pass.old.loads }
    {
        let shared = &self.board.shared;
        shared.load::<LoadPublished>(&mut pass.seat, word as usize)
    }

    /// The number of entries that the history has at least, by one load. It does not wait and takes no memory.
    /// It counts at least all that the pass has seen, and no later turn of the pass finds fewer.
    pub fn counted(&self, pass: &mut Pass<V>) -> u64
        requires { pass.old.name ≡ self.now.name }
        ensures pass { pass.new ≡ record pass.old { counted = result } }
        ensures rises { (pass.old.counted ≤ result) × (length pass.old.seen ≤ result) }
    {
        self.board.shared.load::<LoadCount>(&mut pass.seat, COUNT)
    }

    /// Makes the next pass, out of pass 0. It has seen as much as pass 0, has no entry and has made no load.
    /// The first call gives number 1, the next number 2, and so on. It takes no memory.
    pub fn split(&self, pass: &mut Pass<V>) -> Pass<V>
        requires name { pass.old.name ≡ self.now.name }
        requires first { pass.old.number ≡ 0 }
        requires idle { pass.old.holds ≡ false }
        requires seats { pass.old.made < self.now.seats }
        ensures pass { pass.new ≡ record pass.old { made = pass.old.made + 1 } }
        ensures made { result ≡ new_pass pass.old }
        ensures own { own V.names result.number result.seen ≡ [] }
    {
        Pass {
            seat: self.board.shared.split_seat::<SplitPass>(&mut pass.seat),
        }
    }

    /// Takes in what another pass has seen, and spends that pass. The loads stay those of the pass that is kept. It takes no memory.
    /// The entries that name the other pass stay, from now on, those that it had seen.
    pub fn join(&self, pass: &mut Pass<V>, other: Pass<V>)
        requires name { (pass.old.name ≡ self.now.name) × (other.name ≡ self.now.name) }
        requires idle { (pass.old.holds ≡ false) × (other.holds ≡ false) }
        ensures pass { pass.new ≡ record pass.old { joined = pass.old.joined ++ other.number ∷ other.joined; seen = longer pass.old.seen other.seen } }
        ensures begins { IsPrefix pass.old.seen pass.new.seen × IsPrefix other.seen pass.new.seen }
        ensures own { own V.names pass.old.number pass.new.seen ≡ own V.names pass.old.number pass.old.seen }
        ensures other { own V.names other.number pass.new.seen ≡ own V.names other.number other.seen }
        ensures joined { (k : ℕ) → Contains pass.old.joined k → own V.names k pass.new.seen ≡ own V.names k pass.old.seen }
        ensures guests { (k : ℕ) → Contains other.joined k → own V.names k pass.new.seen ≡ own V.names k other.seen }
    {
        let Pass { seat } = other;
        let shared = &self.board.shared;
        shared.join_seat::<JoinPass>(&mut pass.seat, seat);
        shared.load::<TakeLonger>(&mut pass.seat, COUNT);
    }

    /// The value, once every other pass was joined into pass 0 and no turn is out. Its history is exactly what pass 0 has seen.
    pub fn close(self, pass: Pass<V>) -> V
        requires name { pass.name ≡ self.name }
        requires first { pass.number ≡ 0 }
        requires idle { pass.holds ≡ false }
        requires joined { JoinedBelow pass.made pass.joined }
        ensures history { V.history result ≡ pass.seen }
        ensures known { (word : ℕ) → 0 < word → word < 65 → slice_index pass.words word ≤ V.published result word }
        ensures loads { (word : ℕ) → 0 < word → word < 65 → greatest word pass.loads ≤ V.published result word }
        ensures counted { pass.counted ≤ length (V.history result) }
    {
        let Turnstile { board, seats: _ } = self;
        let Pass { seat } = pass;
        let mut closed = board.close_with(seat);
        let slot = closed.take(0);
        closed.free();
        slot.unwrap()
    }

    // Waits until word 65 is 0, makes it 1 and takes the slot.
    fn gain<R: Wait>(&self, rt: &R, seat: &mut Place<V>)
        requires { (seat.old.table_id ≡ self.now.name) × (seat.old.me.0.live ≡ true) × (seat.old.me.1 ≡ []) }
        ensures { (seat.new.table_id ≡ seat.old.table_id) × ((x : V) × (seat.new.me.1 ≡ (0, Some x) ∷ []) × Gains V.history V.published V.names seat.old.me.0 seat.new.me.0 x) }
    {
        for _ in rt.forever() {
            if self
                .board
                .shared
                .compare_exchange::<Gain>(seat, HOLDERS, 0, 1)
                == 0
            {
                return;
            }
            self.board.shared.park(rt, HOLDERS, 1);
        }
        unreachable!()
    }
}
