// The calls of a trace, answered over a device.
ghost use Rattle.std.specs.Prelude.{◌≡◌, [], map, true, IfOk, OnOk, OnErr};
ghost use Rattle.vk_device.specs.Faults.{HasCause};
ghost use Rattle.vk_device.specs.Journal.{IsClean};
ghost use Rattle.trace_text.specs.Reading.{plan};
ghost use Rattle.play_model.specs.Plays.{opening_play};
ghost use Rattle.world_core.specs.World.{IsServed, play_of};
ghost use Rattle.trace_run.specs.Led.{WasLed, WasLedOn};
ghost use Rattle.trace_run.specs.Once.{IsRunOf, shown_of, tail_of};

use crate::saying::{Output, Said};
use reply_text::{GroupHistory, Tail};
use run_summary::counts_of;
use schedule::{calls_are_made, play};
use std::alloc::{AllocError, Global};
use trace_text::Trace;
use vk_device::{Device, Logged, devices_stay_in_order};
use vk_types::Stop;
use world_core::World;

/// Runs a trace on a device that did nothing: a world is led through the schedule of this seed, and closed.
pub(crate) fn run<D: Device>(
    alloc: Global,
    device: D,
    trace: Trace,
    seed: u64,
    output: Output,
) -> (Said, D)
    requires empty { D.journal device ≡ [] }
    requires served { IsServed (map plan trace.threads.items) }
    ensures said { IsRunOf (map plan trace.threads.items) seed output (D.faults device) (D.faults result.1) (D.journal result.1) result.0 }
    ensures clean { IsClean (D.journal result.1) }
{
    let mut world = match World::new(alloc, trace, device) {
        Ok(world) => world,
        Err(device) => return (Said::Memory, device),
    };
    let answer = play_and_close(&mut world, seed);
    world.is_lawful();
    let (groups, device) = world.finish();
    match answer {
        Ok(()) => match tail(alloc, &groups, device.journal(), output) {
            Ok(tail) => {
                let groups = shown(alloc, groups, output);
                (Said::Replies { groups, tail }, device)
            }
            Err(_) => (Said::Memory, device),
        },
        Err(Stop::Lost) => {
            let groups = shown(alloc, groups, output);
            (Said::Lost { groups }, device)
        }
        Err(Stop::Memory) => (Said::Memory, device),
    }
}

// Leads a world in which no line was answered through its schedule, and closes it.
fn play_and_close<D: Device>(world: &mut World<D>, seed: u64) -> Result<(), Stop>
    requires running { world.old.running ≡ true }
    requires fresh { play_of world.old ≡ opening_play world.old.threads }
    ensures whole { OnOk result (WasLed world.old.threads seed world.new) }
    ensures part { OnErr result (WasLedOn world.old.threads seed world.new) }
    ensures cause { HasCause (D.faults world.old.back.device) (D.faults world.new.back.device) result }
{
    calls_are_made::<D>();
    play(world, seed)?;
    world.close()
}

// The histories that are written.
fn shown(alloc: Global, groups: Vec<GroupHistory>, output: Output) -> Vec<GroupHistory>
    ensures { result.items ≡ shown_of output groups.items }
{
    match output {
        Output::Replies | Output::RepliesAndSummary => groups,
        Output::SummaryAlone => Vec::new(alloc),
    }
}

// How what is written of a run ends, where all lines were answered.
fn tail(
    alloc: Global,
    groups: &[GroupHistory],
    journal: &[Logged],
    output: Output,
) -> Result<Tail, AllocError>
    ensures { IfOk result (λ tail. tail ≡ tail_of output groups.now journal.now) }
{
    match output {
        Output::Replies => Ok(Tail::End),
        Output::RepliesAndSummary | Output::SummaryAlone => {
            Ok(Tail::Summary(counts_of(alloc, groups, journal)?))
        }
    }
}
