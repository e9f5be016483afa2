// The commands `once` and `gen`, from the words to the status.
ghost use Rattle.std.specs.Prelude.{◌≡◌, ◌≢◌, ◌≤◌, ◌<◌, ◌⊎◌, ◌↔◌, ℕ, Bool, IsTrue, List, [], length, map, Some, None, false, IfOk, IfErr, MatchOption};
ghost use Rattle.std.specs.String.{string_bytes};
ghost use Rattle.std.specs.Io.KnownBytes.{Appends};
ghost use Rattle.faults.specs.Faults.{Rose};
ghost use Rattle.trace_io.specs.declared.status.Status.{Status};
ghost use Rattle.vk_device.specs.Journal.{IsClean};
ghost use Rattle.command_line.specs.declared.command.Command.{Command};
ghost use Rattle.command_line.specs.Commands as commands;
ghost use Rattle.trace_text.specs.Reading.{Plan, plan};
ghost use Rattle.trace_text.specs.Traces.{Spells};
ghost use Rattle.world_core.specs.World as world;
ghost use Rattle.trace_run.specs.Runs.{first_unbuilt};
ghost use Rattle.trace_run.specs.Once.{SpellsOnce, SpellsGen, IsServed, Names, IsBrought, Gives, Answered, WasLost, WasCutOff};
ghost use Rattle.trace_run.specs.Once.{MayAnswer, MayRefuse, MayRefuseLong, Refused, IsRefusedAt, StopsAt, IsSaid, IsUnread};
ghost use Rattle.trace_run.specs.Once.{command_for, text_of_number, usage_line};

use crate::built;
use crate::run::run;
use crate::saying::{Output, Said, say};
use command_line::{Command, command_of};
use std::alloc::Global;
use trace_gen::generate;
use trace_io::{ReadStop, Sink, Source, Status, read_all};
use trace_text::{ParseStop, Trace, parse, traces_are_in_order};
use vk_device::{Device, devices_stay_in_order};

/// The most bytes of a text.
const LIMIT: usize = 67_108_864;

// The kinds of refusal beside the faults of a line: too many bytes came, and a call is not built.
const TOO_LONG: u8 = 8;

const UNBUILT: u8 = 10;

/// Serves the command `once --seed N`, with a summary or without: reads a trace from the source, runs it on the device in the order of
/// the schedule of N, writes the replies into the sink, and hands the device back. At status 6 the replies so far are written, at status 4
/// and 7 nothing. Serves the command `gen N` too: makes the trace of the number N, runs it in the same way, and writes the summary without
/// replies; it reads nothing.
pub fn run_once<S: Source, K: Sink, D: Device>(
    alloc: Global,
    words: &[String],
    source: &mut S,
    sink: &mut K,
    device: D,
) -> (Status, D)
    requires { D.journal device ≡ [] }
    ensures ok { result.0 ≡ Status.Ok →
        Answered (map string_bytes words.now) (S.left source.old) (S.left source.new) (K.taken sink.old) (K.taken sink.new)
        (D.journal result.1) }
    ensures usage { result.0 ≡ Status.Usage → ¬ IsServed (map string_bytes words.now) }
    ensures usage_line { result.0 ≡ Status.Usage → Appends (K.taken sink.old) (K.taken sink.new) usage_line }
    ensures served { IsServed (map string_bytes words.now) → result.0 ≢ Status.Usage }
    ensures unserved { ¬ IsServed (map string_bytes words.now) → (result.0 ≡ Status.Usage) ⊎ (result.0 ≡ Status.WriteFault) }
    ensures untouched { ¬ IsServed (map string_bytes words.now) → (source.new ≡ source.old) × (result.1 ≡ device) }
    ensures unread { (number : ℕ) → SpellsGen (map string_bytes words.now) number → source.new ≡ source.old }
    ensures trace { (line kind : ℕ) → result.0 ≡ Status.Trace line kind →
        Refused (map string_bytes words.now) (S.left source.old) (S.left source.new) (K.taken sink.old) (K.taken sink.new) line kind }
    ensures refused { (text : List ℕ) (line kind : ℕ) → S.left source.old ≡ Some text → length text ≤ 67108864 →
        SpellsOnce (map string_bytes words.now) → IsRefusedAt text line kind → MayRefuse line kind result.0 }
    ensures made_refused { (number line kind : ℕ) → SpellsGen (map string_bytes words.now) number →
        IsRefusedAt (text_of_number number) line kind → MayRefuse line kind result.0 }
    ensures too_long { (text : List ℕ) → S.left source.old ≡ Some text → 67108864 < length text → SpellsOnce (map string_bytes words.now) →
        MayRefuseLong result.0 }
    ensures answered { (text : List ℕ) (threads : List Plan) → S.left source.old ≡ Some text → SpellsOnce (map string_bytes words.now) →
        Spells text threads → first_unbuilt threads ≡ None → MayAnswer result.0 }
    ensures made_answered { (number : ℕ) (threads : List Plan) → SpellsGen (map string_bytes words.now) number →
        Spells (text_of_number number) threads → first_unbuilt threads ≡ None → MayAnswer result.0 }
    ensures read_fault { result.0 ≡ Status.ReadFault → Rose (S.faults source.old) (S.faults source.new) }
    ensures write_fault { result.0 ≡ Status.WriteFault → Rose (K.faults sink.old) (K.faults sink.new) }
    ensures cut_off { result.0 ≡ Status.WriteFault →
        WasCutOff (map string_bytes words.now) (S.left source.old) (S.left source.new) (K.taken sink.old) (K.taken sink.new)
        (D.faults device) (D.faults result.1) (D.journal result.1) }
    ensures lost { result.0 ≡ Status.DeviceLost →
        WasLost (map string_bytes words.now) (S.left source.old) (S.left source.new) (K.taken sink.old) (K.taken sink.new)
        (D.faults device) (D.faults result.1) }
    ensures silent { (result.0 ≡ Status.ReadFault) ⊎ (result.0 ≡ Status.Memory) → K.taken sink.new ≡ K.taken sink.old }
    ensures clean { IsClean (D.journal result.1) }
{
    let (said, device) = outcome(alloc, words, source, device);
    let status = say(alloc, sink, &said);
    (status, device)
}

fn outcome<S: Source, D: Device>(
    alloc: Global,
    words: &[String],
    source: &mut S,
    device: D,
) -> (Said, D)
    requires { D.journal device ≡ [] }
    ensures said { IsSaid (map string_bytes words.now) (S.left source.old) (S.left source.new) (S.faults source.old) (S.faults source.new)
        (D.faults device) (D.faults result.1) (D.journal result.1) result.0 }
    ensures unserved { ¬ IsServed (map string_bytes words.now) → result.0 ≡ Said.Usage }
    ensures untouched { ¬ IsServed (map string_bytes words.now) → (source.new ≡ source.old) × (result.1 ≡ device) }
    ensures unread { (number : ℕ) → SpellsGen (map string_bytes words.now) number → source.new ≡ source.old }
    ensures clean { IsClean (D.journal result.1) }
{
    devices_stay_in_order::<D>();
    match order_in(words) {
        None => (Said::Usage, device),
        Some((seed, output)) => match trace_in(alloc, source, seed, output) {
            Ok(trace) => run(alloc, device, trace, seed, output),
            Err(said) => (said, device),
        },
    }
}

// The trace that is to be run, or what there is to say in its place.
fn trace_in<S: Source>(
    alloc: Global,
    source: &mut S,
    seed: u64,
    output: Output,
) -> Result<Trace, Said>
    ensures gives { IfOk result (λ trace. Gives seed output (S.left source.old) (S.left source.new) (map plan trace.threads.items)) }
    ensures served { IfOk result (λ trace. world.IsServed (map plan trace.threads.items)) }
    ensures unread { IfErr result
        (λ said. IsUnread seed output (S.left source.old) (S.left source.new) (S.faults source.old) (S.faults source.new) said) }
    ensures untouched { output ≡ Output.SummaryAlone → source.new ≡ source.old }
{
    let text = text_in(alloc, source, seed, output)?;
    match served_trace(alloc, &text) {
        Ok(trace) => Ok(trace),
        Err(ParseStop::Fault { line, kind }) => Err(Said::Refused { line, kind }),
        Err(ParseStop::Memory) => Err(Said::Memory),
    }
}

/// The trace that a text spells, if each of its calls is built: a world may be made of it. The kinds of fault are those of `parse`, and 10
/// at the first line whose call is not built.
pub fn served_trace(alloc: Global, text: &[u8]) -> Result<Trace, ParseStop>
    ensures spelled { IfOk result (λ trace. Spells text.now (map plan trace.threads.items)) }
    ensures built { IfOk result (λ trace. first_unbuilt (map plan trace.threads.items) ≡ None) }
    ensures served { IfOk result (λ trace. world.IsServed (map plan trace.threads.items)) }
    ensures refused { IfErr result (λ stop. StopsAt text.now stop) }
{
    traces_are_in_order();
    let trace = parse(alloc, text)?;
    match built::first_unbuilt(&trace.threads) {
        Some(line) => Err(ParseStop::Fault {
            line,
            kind: UNBUILT,
        }),
        None => Ok(trace),
    }
}

// The text that is to be run, or what there is to say in its place.
fn text_in<S: Source>(
    alloc: Global,
    source: &mut S,
    seed: u64,
    output: Output,
) -> Result<Vec<u8>, Said>
    ensures brought { IfOk result (λ text. IsBrought seed output (S.left source.old) (S.left source.new) text.items) }
    ensures unread { IfErr result
        (λ said. IsUnread seed output (S.left source.old) (S.left source.new) (S.faults source.old) (S.faults source.new) said) }
    ensures untouched { output ≡ Output.SummaryAlone → source.new ≡ source.old }
{
    match output {
        Output::Replies | Output::RepliesAndSummary => match read_all(alloc, source, LIMIT) {
            Ok(text) => Ok(text),
            Err(ReadStop::TooLong) => Err(Said::Refused {
                line: 0,
                kind: TOO_LONG,
            }),
            Err(ReadStop::Failed) => Err(Said::ReadFault),
            Err(ReadStop::Memory) => Err(Said::Memory),
        },
        Output::SummaryAlone => match generate(alloc, seed) {
            Ok(text) => Ok(text),
            Err(_) => Err(Said::Memory),
        },
    }
}

// The seed of the command, or the number of its trace, and what is written of the run, where the words are those of a command that is
// served.
fn order_in(words: &[String]) -> Option<(u64, Output)>
    ensures { MatchOption result (¬ IsServed (map string_bytes words.now)) (λ order. Names (map string_bytes words.now) order.0 order.1) }
{
    match command_of(words) {
        Some(Command::Once { seed, summary }) => Some((seed, replies_with(summary))),
        Some(Command::Gen { number }) => Some((number, Output::SummaryAlone)),
        Some(Command::Threads { .. }) => None,
        None => None,
    }
}

// The replies, with a summary or without.
fn replies_with(summary: bool) -> Output
    ensures { (seed : ℕ) → command_for seed result ≡ Command.Once seed summary }
{
    if summary {
        Output::RepliesAndSummary
    } else {
        Output::Replies
    }
}

/// The number N of a command `once --seed N`, with a summary or without, or `gen N`, and 0 of any other words.
pub fn seed_of(words: &[String]) -> u64
    ensures once { (seed : ℕ) (summary : Bool) → commands.Spells (map string_bytes words.now) (Command.Once seed summary) → result ≡ seed }
    ensures generated { (number : ℕ) → commands.Spells (map string_bytes words.now) (Command.Gen number) → result ≡ number }
    ensures threads { (workers : ℕ) → commands.Spells (map string_bytes words.now) (Command.Threads workers) → result ≡ 0 }
    ensures none { ((command : Command) → ¬ commands.Spells (map string_bytes words.now) command) → result ≡ 0 }
{
    match command_of(words) {
        Some(Command::Once { seed, .. }) => seed,
        Some(Command::Gen { number }) => number,
        Some(Command::Threads { .. }) => 0,
        None => 0,
    }
}

/// Whether the words are those of a command `threads --workers N`.
pub fn is_threads(words: &[String]) -> bool
    ensures { IsTrue result ↔ ((workers : ℕ) × commands.Spells (map string_bytes words.now) (Command.Threads workers)) }
{
    match command_of(words) {
        Some(Command::Threads { .. }) => true,
        Some(Command::Once { .. }) => false,
        Some(Command::Gen { .. }) => false,
        None => false,
    }
}
