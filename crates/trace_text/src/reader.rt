//! Reading a trace line by line.

ghost use Rattle.std.specs.Prelude.{◌≡◌, ◌<◌, ◌≤◌, ◌^◌, ◌+◌, length, vec_len, IfSome, OnOk, Some, slice_get};
ghost use Rattle.std.specs.Option.{option_map};
ghost use Rattle.trace_words.specs.Faults.{Gives, Reads};
ghost use Rattle.trace_words.specs.Lexing.{words_of};
ghost use Rattle.trace_text.specs.Limits.{cost_of};
ghost use Rattle.trace_text.specs.Reading.{Plan, plan, state_of, Steps, is_skipped, is_text, first_line, thread_numbers, group_of, header_line, thread_of, earlier_line, after_of, sound_call, with_line, call_line, body_line, line_after};

use crate::call_word::CALL_WORDS;
use crate::calls::call;
use crate::limits::{cost, has_stated_length, is_supported};
use crate::phase::Phase;
use crate::trace::{Line, ThreadPlan};
use gl_calls::Call;
use std::alloc::{AllocError, Global};
use trace_words::{Fault, Stop, Words, at_first, decimal, is_decimal_word, word_in};

const MOST_THREADS: usize = 16;

const HIGHEST_GROUP: u64 = 7;

const MOST_CALLS: usize = 65_536;

const MOST_COST: u128 = 268_435_456;

/// What was read of a trace.
#[derive(Drop)]
pub struct Reader {
    pub phase: Phase,
    pub threads: Vec<ThreadPlan>,
    pub cost: u64,
    /// For each line number so far, from 0 on, the group of the call on that line.
    pub owners: Vec<Option<u8>>,
}

/// Reads the next line.
#[tactic(auto, unfolding(crate::specs::Reading::line_after))]
pub fn read_line(reader: &mut Reader, alloc: Global, line: &[u8]) -> Result<(), Stop>
    requires { vec_len reader.old.owners < 2 ^ 32 }
    ensures state { Steps result (state_of reader.new) (line_after (state_of reader.old) line.now) }
    ensures count { OnOk result (vec_len reader.new.owners ≡ vec_len reader.old.owners + 1) }
{
    if is_skipped_line(line) {
        reader.owners.push(None)?;
        return Ok(());
    }
    if !is_text_line(line) {
        return Err(Stop::Fault(Fault::NotText));
    }
    match reader.phase {
        Phase::Start => read_first(reader, line),
        Phase::Header => read_header(reader, alloc, line),
        Phase::Body => read_body(reader, alloc, &mut Words::new(line)),
        Phase::Ended => Err(Stop::Fault(Fault::Word)),
    }
}

fn is_skipped_line(line: &[u8]) -> bool
    ensures { result ≡ is_skipped line.now }
{
    match line {
        [] => true,
        [first, ..] => *first == b'#',
    }
}

fn is_text_line(line: &[u8]) -> bool
    ensures { result ≡ is_text line.now }
{
    line.iter().all(|byte| 32 <= *byte && *byte <= 126)
}

fn read_first(reader: &mut Reader, line: &[u8]) -> Result<(), Stop>
    ensures state { Steps result (state_of reader.new) (first_line (state_of reader.old) line.now) }
    ensures count { OnOk result (vec_len reader.new.owners ≡ vec_len reader.old.owners + 1) }
{
    if line != b"angle-trace 1".as_slice() {
        return Err(Stop::Fault(Fault::Word));
    }
    reader.phase = Phase::Header;
    reader.owners.push(None)?;
    Ok(())
}

#[tactic(auto, unfolding(crate::specs::Reading::header_line))]
fn read_header(reader: &mut Reader, alloc: Global, line: &[u8]) -> Result<(), Stop>
    ensures state { Steps result (state_of reader.new) (header_line (state_of reader.old) line.now) }
    ensures count { OnOk result (vec_len reader.new.owners ≡ vec_len reader.old.owners + 1) }
{
    if line == b"begin".as_slice() {
        reader.phase = Phase::Body;
        reader.owners.push(None)?;
        return Ok(());
    }
    let (number, group) = numbers_of_thread(line).ok_or(Fault::Word)?;
    let group = next_group(reader.threads.len(), number, group).ok_or(Fault::Profile)?;
    let lines = Vec::new(alloc);
    reader.threads.push(ThreadPlan { group, lines })?;
    reader.owners.push(None)?;
    Ok(())
}

/// The words for the numbers in `thread T group G`.
#[tactic(auto, unfolding(crate::specs::Reading::thread_numbers))]
fn numbers_of_thread(line: &[u8]) -> Option<(&[u8], &[u8])>
    ensures { option_map (λ numbers. (numbers.0.now, numbers.1.now)) result ≡ thread_numbers line.now }
{
    let (first, rest) = at_first(line, b' ')?;
    if first != b"thread".as_slice() {
        return None;
    }
    let (number, rest) = at_first(rest, b' ')?;
    let (third, group) = at_first(rest, b' ')?;
    if third == b"group".as_slice() && is_decimal_word(number) && is_decimal_word(group) {
        Some((number, group))
    } else {
        None
    }
}

/// The group of the thread, where its number is the next one.
fn next_group(count: usize, number: &[u8], group: &[u8]) -> Option<u8>
    ensures { result ≡ group_of count number.now group.now }
{
    let number = decimal(number)?;
    if number != count as u64 || count >= MOST_THREADS {
        return None;
    }
    let group = decimal(group)?;
    if group <= HIGHEST_GROUP {
        Some(group as u8)
    } else {
        None
    }
}

#[tactic(auto, unfolding(crate::specs::Reading::body_line))]
fn read_body(reader: &mut Reader, alloc: Global, words: &mut Words) -> Result<(), Stop>
    requires { vec_len reader.old.owners < 2 ^ 32 }
    ensures state { Steps result (state_of reader.new) (body_line (state_of reader.old) words.old) }
    ensures count { OnOk result (vec_len reader.new.owners ≡ vec_len reader.old.owners + 1) }
{
    let first = words.next().ok_or(Fault::Thread)?;
    if first != b"end".as_slice() {
        return read_call(reader, alloc, first, words);
    }
    if words.count() != 0 {
        return Err(Stop::Fault(Fault::Word));
    }
    reader.phase = Phase::Ended;
    reader.owners.push(None)?;
    Ok(())
}

#[tactic(auto, unfolding(crate::specs::Reading::call_line))]
fn read_call(
    reader: &mut Reader,
    alloc: Global,
    first: &[u8],
    words: &mut Words,
) -> Result<(), Stop>
    requires { vec_len reader.old.owners < 2 ^ 32 }
    ensures state { Steps result (state_of reader.new) (call_line (state_of reader.old) first.now words.old) }
    ensures count { OnOk result (vec_len reader.new.owners ≡ vec_len reader.old.owners + 1) }
{
    let (thread, plan) = thread(reader, first).ok_or(Fault::Thread)?;
    let group = plan.group;
    let is_full = plan.lines.len() >= MOST_CALLS;
    let after = after(reader, group, words.next_after_at())?;
    let call = read_sound_call(alloc, words)?;
    let cost = u128::from(reader.cost) + cost(&call);
    if is_full || cost > MOST_COST {
        return Err(Stop::Fault(Fault::TooLong));
    }
    let number = reader.owners.len() as u32;
    add_line(
        reader,
        thread,
        Line {
            number,
            after,
            call,
        },
        cost as u64,
    )?;
    Ok(())
}

/// The thread that the word numbers.
#[tactic(auto, unfolding(crate::specs::Reading::thread_of))]
fn thread<'a>(reader: &'a Reader, word: &[u8]) -> Option<(usize, &'a ThreadPlan)>
    ensures value { option_map (λ thread. (thread.0, plan thread.1.now)) result ≡ thread_of (state_of reader.now) word.now }
    ensures place { IfSome result (λ thread. slice_get reader.now.threads.items thread.0 ≡ Some thread.1.now) }
{
    let number = decimal(word)? as usize;
    let plan = reader.threads.get(number)?;
    Some((number, plan))
}

fn after(reader: &Reader, group: u8, word: Option<&[u8]>) -> Result<Option<u32>, Fault>
    requires { vec_len reader.now.owners < 2 ^ 32 }
    ensures { result ≡ after_of (state_of reader.now) group (option_map (λ name. name.now) word.entry) }
{
    match word {
        None => Ok(None),
        Some(word) => Ok(Some(earlier(reader, group, word).ok_or(Fault::Profile)?)),
    }
}

/// The earlier line of the group that the word numbers.
#[tactic(auto, unfolding(crate::specs::Reading::earlier_line))]
fn earlier(reader: &Reader, group: u8, word: &[u8]) -> Option<u32>
    requires { vec_len reader.now.owners < 2 ^ 32 }
    ensures { result ≡ earlier_line (state_of reader.now) group word.now }
{
    let number = decimal(word)?;
    let owner = (*reader.owners.get(number as usize)?)?;
    if owner == group {
        Some(number as u32)
    } else {
        None
    }
}

#[tactic(auto, unfolding(crate::specs::Reading::sound_call))]
fn read_sound_call(alloc: Global, words: &mut Words) -> Result<Call, Stop>
    ensures { Gives result (sound_call words.old) }
{
    let word = words.next().ok_or(Fault::Word)?;
    let word = word_in(&CALL_WORDS, word).ok_or(Fault::Word)?;
    let call = call(alloc, word, words)?;
    if !has_stated_length(&call) {
        return Err(Stop::Fault(Fault::Length));
    }
    if !is_supported(&call) {
        return Err(Stop::Fault(Fault::Profile));
    }
    Ok(call)
}

/// Adds a line to a thread.
fn add_line(reader: &mut Reader, thread: usize, line: Line, cost: u64) -> Result<(), AllocError>
    requires place { thread < vec_len reader.old.threads }
    requires sum { cost ≡ reader.old.cost + cost_of line.call }
    ensures count { OnOk result (vec_len reader.new.owners ≡ vec_len reader.old.owners + 1) }
    ensures state { OnOk result ((p : Plan) → slice_get (state_of reader.old).threads thread ≡ Some p → state_of reader.new ≡ with_line (thread, p) line (state_of reader.old)) }
{
    let plan = &mut reader.threads[thread];
    let group = plan.group;
    plan.lines.push(line)?;
    reader.cost = cost;
    reader.owners.push(Some(group))?;
    Ok(())
}
