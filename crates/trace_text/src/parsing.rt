//! The trace that a text spells.

ghost use Rattle.std.specs.Prelude.{◌≡◌, ◌+◌, ◌≤◌, ◌<◌, ◌^◌, length, vec_len, OnOk, IfOk, Ok, List, map};
ghost use Rattle.trace_words.specs.Lexing.{lines_of};
ghost use Rattle.trace_text.specs.Reading.{Plan, plan, state_of, at_start, kind_of, line_after, lines_after, or_place, and_end, trace_of, at_end, at_line, GivesTrace, GivesState, StepsAt};
ghost use Rattle.trace_text.specs.Traces.{Spells};

use crate::phase::Phase;
use crate::reader::{Reader, read_line};
use crate::stop::ParseStop;
use crate::trace::Trace;
use std::alloc::{AllocError, Global};
use trace_words::{Fault, Lines, Stop};

const MOST_BYTES: usize = 67_108_864;

/// The trace that the text spells, or its first fault.
pub fn parse(alloc: Global, text: &[u8]) -> Result<Trace, ParseStop>
    // What is accepted is spelled so.
    ensures spelled { IfOk result (λ trace. Spells text.now (map plan trace.threads.items)) }
    // What is spelled so is accepted, unless memory runs out.
    ensures accepted { (threads : List Plan) → Spells text.now threads → GivesTrace result (Ok threads) }
    // Which fault it is, and on which line.
    ensures exact { GivesTrace result (trace_of text.now) }
{
    read_text(alloc, text)
}

#[tactic(auto, unfolding(crate::specs::Reading::trace_of))]
fn read_text(alloc: Global, text: &[u8]) -> Result<Trace, ParseStop>
    ensures { GivesTrace result (trace_of text.now) }
{
    if text.len() > MOST_BYTES {
        return Err(fault_at(0, Fault::TooLong));
    }
    let reader = read_lines(alloc, text)?;
    trace_at_end(reader)
}

fn read_lines(alloc: Global, text: &[u8]) -> Result<Reader, ParseStop>
    requires { length text.now ≤ 67108864 }
    ensures state { GivesState result (lines_after at_start (lines_of text.now)) }
    ensures count { IfOk result (λ reader. vec_len reader.owners ≤ 67108866) }
{
    let mut reader = new_reader(alloc)?;
    let mut lines = Lines::new(text);
    while let Some(line) = lines.next() {
        read_numbered(&mut reader, alloc, line)?;
    }
    Ok(reader)
}

fn new_reader(alloc: Global) -> Result<Reader, AllocError>
    ensures state { IfOk result (λ reader. state_of reader ≡ at_start) }
    ensures count { IfOk result (λ reader. vec_len reader.owners ≡ 1) }
{
    let mut owners = Vec::new(alloc);
    owners.push(None)?;
    Ok(Reader {
        phase: Phase::Start,
        threads: Vec::new(alloc),
        cost: 0,
        owners,
    })
}

/// Reads the next line, and says where a fault is.
fn read_numbered(reader: &mut Reader, alloc: Global, line: &[u8]) -> Result<(), ParseStop>
    requires { vec_len reader.old.owners < 2 ^ 32 }
    ensures state { StepsAt result (state_of reader.new) (or_place (vec_len reader.old.owners) (line_after (state_of reader.old) line.now) Ok) }
    ensures count { OnOk result (vec_len reader.new.owners ≡ vec_len reader.old.owners + 1) }
{
    let number = reader.owners.len() as u32;
    match read_line(reader, alloc, line) {
        Ok(()) => Ok(()),
        Err(Stop::Memory) => Err(ParseStop::Memory),
        Err(Stop::Fault(fault)) => Err(fault_at(number, fault)),
    }
}

/// The trace, if the text has ended.
fn trace_at_end(reader: Reader) -> Result<Trace, ParseStop>
    requires { vec_len reader.owners < 2 ^ 32 }
    ensures { GivesTrace result (at_end reader.phase (state_of reader)) }
{
    let Reader {
        phase,
        threads,
        cost: _,
        owners,
    } = reader;
    match phase {
        Phase::Ended => Ok(Trace { threads }),
        _ => Err(fault_at(owners.len() as u32, Fault::Word)),
    }
}

fn fault_at(line: u32, fault: Fault) -> ParseStop
    ensures { result ≡ ParseStop.Fault line (kind_of fault) }
{
    let kind = match fault {
        Fault::NotText => 1,
        Fault::Word => 2,
        Fault::Count => 3,
        Fault::Number => 4,
        Fault::Data => 5,
        Fault::Thread => 6,
        Fault::Profile => 7,
        Fault::TooLong => 8,
        Fault::Length => 9,
    };
    ParseStop::Fault { line, kind }
}
