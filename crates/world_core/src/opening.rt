// What a world begins with.
ghost use Rattle.std.specs.Prelude.{◌≡◌, ◌<◌, ◌≤◌, ℕ, [], length, map, IfOk, OnOk, Some, false, slice_get};
ghost use Rattle.world_core.specs.World.{AreNew};
ghost use Rattle.world_core.specs.Inside.{OwnTheirs};
ghost use Rattle.trace_text.specs.Reading.{plan};
ghost use Rattle.trace_text.specs.declared.trace.Line.{Line};
ghost use Rattle.trace_text.specs.Orders.{IsLineOf};
ghost use Rattle.play_model.specs.Plays.{members, none_done};

use crate::ending::let_go;
use crate::world::GROUPS;
use back_core::Direct;
use front_core::Front;
use std::alloc::{AllocError, Global};
use trace_text::{Line, ThreadPlan};
use vk_device::Device;

/// No line of any thread was answered.
pub(crate) fn no_lines(alloc: Global, threads: &[ThreadPlan]) -> Result<Vec<usize>, AllocError>
    ensures { IfOk result (λ done. done.items ≡ none_done (map plan threads.now)) }
{
    let mut done = Vec::new(alloc);
    done.resize(threads.len(), 0)?;
    Ok(done)
}

/// No line was answered: a place for the number of each.
pub(crate) fn none_answered(alloc: Global, threads: &[ThreadPlan]) -> Result<Vec<bool>, AllocError>
    ensures { IfOk result (λ answered. (thread place : ℕ) (line : Line) → IsLineOf (map plan threads.now) thread place line →
        slice_get answered.items line.number ≡ Some false) }
{
    let mut past = 0;
    for thread in threads {
        past = past_lines(&thread.lines, past);
    }
    let mut answered = Vec::new(alloc);
    answered.resize(past, false)?;
    Ok(answered)
}

// A number past those of the lines, which is not below the one that is given.
fn past_lines(lines: &[Line], past: usize) -> usize
    ensures past { (place : ℕ) (line : Line) → slice_get lines.now place ≡ Some line → line.number < result }
    ensures later { past ≤ result }
{
    let mut past = past;
    for line in lines {
        past = past.max(line.number as usize + 1);
    }
    past
}

// The threads of a group.
fn members_of(alloc: Global, threads: &[ThreadPlan], group: u8) -> Result<Vec<u32>, AllocError>
    requires { length threads.now ≤ 16 }
    ensures { IfOk result (λ list. list.items ≡ members (map plan threads.now) group) }
{
    let mut list = Vec::new(alloc);
    let mut number = 0;
    for thread in threads {
        if thread.group == group {
            list.push(number)?;
        }
        number += 1;
    }
    Ok(list)
}

/// The front of each group.
pub(crate) fn open_fronts(
    alloc: Global,
    threads: &[ThreadPlan],
    fronts: &mut Vec<Front>,
) -> Result<(), AllocError>
    requires few { length threads.now ≤ 16 }
    requires empty { fronts.old.items ≡ [] }
    ensures eight { OnOk result (length fronts.new.items ≡ 8) }
    ensures low { length fronts.new.items ≤ 8 }
    ensures new { AreNew (map plan threads.now) fronts.new.items }
{
    fronts.reserve(usize::from(GROUPS))?;
    for group in 0..GROUPS {
        let list = members_of(alloc, threads, group)?;
        fronts.push_reserved(Front::new(alloc, group, &list)?);
    }
    Ok(())
}

/// Lets the fronts of the first groups go.
pub(crate) fn abandon_all<D: Device>(fronts: Vec<Front>, link: &mut Direct<D>)
    requires low { length fronts.items ≤ 8 }
    requires owns { OwnTheirs fronts.items link.old.back.history }
    ensures { D.faults link.old.back.device ≤ D.faults link.new.back.device }
{
    let mut fronts = fronts;
    while let Some(front) = fronts.pop() {
        let _ = let_go(front, link, fronts.len() as u8);
    }
    fronts.destroy_empty();
}
