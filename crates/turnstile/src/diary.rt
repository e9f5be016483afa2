//! A worked example: a diary behind a turnstile. Each pass writes notes under its own number, and the page is published.
ghost use Rattle.std.specs.Prelude.{◌≡◌, ℕ, [], ◌∷◌, ◌++◌, false, Some, replicate, MatchBool, if◌then◌else◌, ◌==◌, ◌≤◌, ◌+◌, min, length, slice_index};
ghost use Rattle.turnstile.specs.Histories.{own, greatest};
ghost use Rattle.turnstile.specs.Passes.{first_pass};

use crate::chronicle::Chronicle;
use crate::pass::Pass;
use crate::turnstile::Turnstile;
use std::sync::Wait;
use std::thread::{Threads, join};

/// The word in which the page is published.
pub const PAGE: u32 = 1;

/// An entry of the history.
#[derive(Drop)]
pub struct Note {
    pub by: Option<u64>,
}

/// What several threads share.
#[derive(Drop)]
pub struct Diary {
    pub notes: Vec<Note>,
    pub page: u64,
}

impl Chronicle for Diary {
    type Entry = Note;

    ghost history = { λ d. d.notes.items };

    ghost names = { λ n. n.by };

    ghost published = { λ d word. if word == 1 then d.page else 0 };

    fn count(&self) -> u64 {
        self.notes.len() as u64
    }

    fn published(&self, word: u32) -> u64 {
        if word == PAGE { self.page } else { 0 }
    }
}

impl Diary {
    /// Adds a note of the pass with this number. It says whether there was memory.
    pub fn note(&mut self, by: u64) -> bool
        ensures notes { MatchBool result (self.new.notes.items ≡ self.old.notes.items ++ record { by = Some by } ∷ []) (self.new.notes.items ≡ self.old.notes.items ++ []) }
        ensures page { self.new.page ≡ self.old.page }
    {
        self.notes.push(Note { by: Some(by) }).is_ok()
    }

    /// Goes to the next page, if there is one.
    pub fn next_page(&mut self)
        ensures notes { self.new.notes.items ≡ self.old.notes.items }
        ensures page { self.new.page ≡ min (self.old.page + 1) 18446744073709551615 }
    {
        if self.page < u64::MAX {
            self.page += 1;
        }
    }
}

/// One turn, in which the pass writes a note. It says whether there was memory.
pub fn write<R: Wait>(rt: &R, turnstile: &Turnstile<Diary>, pass: &mut Pass<Diary>, by: u64) -> bool
    requires name { pass.old.name ≡ turnstile.now.name }
    requires number { (pass.old.number ≡ by) × (pass.old.holds ≡ false) }
    ensures kept { (pass.new.name ≡ pass.old.name) × (pass.new.number ≡ by) × (pass.new.joined ≡ pass.old.joined) × (pass.new.holds ≡ false) }
    ensures own { MatchBool result (own (λ n. n.by) by pass.new.seen ≡ own (λ n. n.by) by pass.old.seen ++ record { by = Some by } ∷ []) (own (λ n. n.by) by pass.new.seen ≡ own (λ n. n.by) by pass.old.seen) }
{
    let mut turn = turnstile.take(rt, pass);
    let wrote = turn.value.note(by);
    turnstile.put(pass, turn);
    wrote
}

/// One turn, in which the page goes on, and is published.
pub fn turn_page<R: Wait>(rt: &R, turnstile: &Turnstile<Diary>, pass: &mut Pass<Diary>)
    requires { (pass.old.name ≡ turnstile.now.name) × (pass.old.holds ≡ false) }
    ensures kept { (pass.new.name ≡ pass.old.name) × (pass.new.number ≡ pass.old.number) × (pass.new.made ≡ pass.old.made) × (pass.new.joined ≡ pass.old.joined) × (pass.new.holds ≡ false) }
    ensures loads { pass.new.loads ≡ pass.old.loads }
    ensures page { min (slice_index pass.old.words 1 + 1) 18446744073709551615 ≤ slice_index pass.new.words 1 }
{
    let mut turn = turnstile.take(rt, pass);
    turn.value.next_page();
    turnstile.publish(pass, &turn, PAGE);
    turnstile.put(pass, turn);
}

/// Reads the page once and then `rounds` times, with no turn. It answers the last number, and whether one was below an earlier one, which never is.
pub fn watch(turnstile: &Turnstile<Diary>, pass: &mut Pass<Diary>, rounds: u64) -> (u64, bool)
    requires { pass.old.name ≡ turnstile.now.name }
    ensures kept { (pass.new.name ≡ pass.old.name) × (pass.new.number ≡ pass.old.number) × (pass.new.joined ≡ pass.old.joined) × (pass.new.holds ≡ pass.old.holds) }
    ensures rounds { length pass.new.loads ≡ length pass.old.loads + 1 + rounds }
    ensures last { result.0 ≡ greatest 1 pass.new.loads }
    ensures never { result.1 ≡ false }
{
    let mut last = turnstile.published(pass, PAGE);
    let mut fell = false;
    for _ in 0..rounds {
        let page = turnstile.published(pass, PAGE);
        fell = fell || page < last;
        last = page;
    }
    (last, fell)
}

/// Some turns, in each of which the page goes on.
pub fn turn_pages<R: Wait>(
    rt: &R,
    turnstile: &Turnstile<Diary>,
    mut pass: Pass<Diary>,
    turns: u64,
) -> Pass<Diary>
    requires { (pass.name ≡ turnstile.now.name) × (pass.holds ≡ false) }
    ensures kept { (result.name ≡ pass.name) × (result.number ≡ pass.number) × (result.made ≡ pass.made) × (result.joined ≡ pass.joined) × (result.holds ≡ false) }
    ensures page { min (slice_index pass.words 1 + turns) 18446744073709551615 ≤ slice_index result.words 1 }
{
    for _ in 0..turns {
        turn_page(rt, turnstile, &mut pass);
    }
    pass
}

/// What a thread did in its turns.
#[derive(Drop)]
pub struct Written {
    pub notes: u64,
    /// Turns in which there was no memory for a note.
    pub missed: u64,
}

/// Some turns. It answers how many notes it wrote, which are all of its notes.
pub fn write_often<R: Wait>(
    rt: &R,
    turnstile: &Turnstile<Diary>,
    mut pass: Pass<Diary>,
    by: u64,
    turns: u64,
) -> (Pass<Diary>, Written)
    requires name { pass.name ≡ turnstile.now.name }
    requires number { (pass.number ≡ by) × (pass.holds ≡ false) }
    requires new { own (λ n. n.by) by pass.seen ≡ [] }
    ensures kept { (result.0.name ≡ pass.name) × (result.0.number ≡ by) × (result.0.joined ≡ pass.joined) × (result.0.holds ≡ false) }
    ensures own { own (λ n. n.by) by result.0.seen ≡ replicate result.1.notes (record { by = Some by }) }
    ensures turns { result.1.notes + result.1.missed ≡ turns }
{
    let mut notes = 0;
    for _ in 0..turns {
        if write(rt, turnstile, &mut pass, by) {
            notes += 1;
        }
    }
    let missed = turns - notes;
    (pass, Written { notes, missed })
}

/// Two threads write in one diary. It has the notes of each, as many as each says that it wrote, and no others of them.
pub fn two_writers<R: Threads + Wait + Sync>(
    rt: &R,
    turnstile: Turnstile<Diary>,
    mut zero: Pass<Diary>,
    turns: u64,
) -> (Diary, Written, Written)
    requires new { zero ≡ first_pass turnstile.name [] zero.words }
    requires seats { turnstile.seats ≡ 3 }
    ensures first { own (λ n. n.by) 1 result.0.notes.items ≡ replicate result.1.notes (record { by = Some 1 }) }
    ensures second { own (λ n. n.by) 2 result.0.notes.items ≡ replicate result.2.notes (record { by = Some 2 }) }
    ensures turns { (result.1.notes + result.1.missed ≡ turns) × (result.2.notes + result.2.missed ≡ turns) }
{
    let one = turnstile.split(&mut zero);
    let two = turnstile.split(&mut zero);
    let shared = &turnstile;
    let ((one, a), (two, b)) = join(
        rt,
        move || -> (Pass<Diary>, Written)
            requires { (one.name ≡ shared.now.name) × (one.number ≡ 1) × (one.holds ≡ false) × (own (λ n. n.by) 1 one.seen ≡ []) }
            ensures { (result.0.name ≡ one.name) × (result.0.number ≡ 1) × (result.0.joined ≡ one.joined) × (result.0.holds ≡ false) × (own (λ n. n.by) 1 result.0.seen ≡ replicate result.1.notes (record { by = Some 1 })) × (result.1.notes + result.1.missed ≡ turns) }
        { write_often(rt, shared, one, 1, turns) },
        move || -> (Pass<Diary>, Written)
            requires { (two.name ≡ shared.now.name) × (two.number ≡ 2) × (two.holds ≡ false) × (own (λ n. n.by) 2 two.seen ≡ []) }
            ensures { (result.0.name ≡ two.name) × (result.0.number ≡ 2) × (result.0.joined ≡ two.joined) × (result.0.holds ≡ false) × (own (λ n. n.by) 2 result.0.seen ≡ replicate result.1.notes (record { by = Some 2 })) × (result.1.notes + result.1.missed ≡ turns) }
        { write_often(rt, shared, two, 2, turns) },
    );
    turnstile.join(&mut zero, one);
    turnstile.join(&mut zero, two);
    (turnstile.close(zero), a, b)
}

/// One thread turns pages while another reads the page. It answers the diary, the last page that was read, and whether a page was below one that was read before.
pub fn writer_and_reader<R: Threads + Wait + Sync>(
    rt: &R,
    turnstile: Turnstile<Diary>,
    mut zero: Pass<Diary>,
    turns: u64,
) -> (Diary, u64, bool)
    requires new { zero ≡ first_pass turnstile.name [] zero.words }
    requires seats { turnstile.seats ≡ 2 }
    ensures page { min (slice_index zero.words 1 + turns) 18446744073709551615 ≤ result.0.page }
    ensures never { result.2 ≡ false }
{
    let mut reader = turnstile.split(&mut zero);
    let shared = &turnstile;
    let (mut zero, (reader, last, fell)) = join(
        rt,
        move || -> Pass<Diary>
            requires { (zero.name ≡ shared.now.name) × (zero.holds ≡ false) }
            ensures { (result.name ≡ zero.name) × (result.number ≡ zero.number) × (result.made ≡ zero.made) × (result.joined ≡ zero.joined) × (result.holds ≡ false) × (min (slice_index zero.words 1 + turns) 18446744073709551615 ≤ slice_index result.words 1) }
        { turn_pages(rt, shared, zero, turns) },
        move || -> (Pass<Diary>, u64, bool)
            requires { reader.name ≡ shared.now.name }
            ensures { (result.0.name ≡ reader.name) × (result.0.number ≡ reader.number) × (result.0.joined ≡ reader.joined) × (result.0.holds ≡ reader.holds) × (result.2 ≡ false) }
        {
            let mut pass = reader;
            let (last, fell) = watch(shared, &mut pass, turns);
            (pass, last, fell)
        },
    );
    turnstile.join(&mut zero, reader);
    (turnstile.close(zero), last, fell)
}
