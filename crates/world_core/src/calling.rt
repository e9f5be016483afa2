// How a thread makes the call of its next line.
ghost use Rattle.std.specs.Prelude.{◌≡◌, ◌<◌, ℕ, true, length, map, is_ok, IfOk, IfSome, OnErr, slice_get, Some, Contains};
ghost use Rattle.vk_device.specs.Faults.{HasCause};
ghost use Rattle.gl_model.specs.Sizes.{HasItsData};
ghost use Rattle.trace_text.specs.Reading.{plan};
ghost use Rattle.front_core.specs.Share.{is_built};
ghost use Rattle.front_core.specs.Front.{FrontModel};
ghost use Rattle.world_core.specs.declared.event.Event.TheVariants as event;
ghost use Rattle.world_core.specs.World.{histories_of};
ghost use Rattle.world_core.specs.Steps.{IsStep, HasAsked, HasBroken, HasFailed};
ghost use Rattle.world_core.specs.Inside.{Keeps, MayAsk, world_of, follows};

use crate::Stepped;
use back_core::{
    Direct, backs_keep_going, cleanups_stay_whole, groups_are_apart, what_a_group_sees,
};
use front_core::{Front, dues_grow, fronts_go_on_standing};
use gl_calls::Reply;
use play_model::plays_go_on;
use trace_text::{Line, ThreadPlan};
use vk_device::Device;
use vk_types::Stop;

/// Whether the line that is waited for was answered, or none is.
pub(crate) fn may_follow(answered: &[bool], after: Option<u32>) -> bool
    requires { IfSome after (λ number. number < length answered.now) }
    ensures { result ≡ follows answered.now after }
{
    match after {
        Some(number) => answered[number as usize],
        None => true,
    }
}

/// A thread makes the call of its next line, if that waits for none that was not answered.
pub(crate) fn call_next<D: Device>(
    threads: &[ThreadPlan],
    done: &mut Vec<usize>,
    answered: &mut Vec<bool>,
    fronts: &mut Vec<Front>,
    link: &mut Direct<D>,
    thread: u32,
) -> Result<Stepped, Stop>
    requires keeps { Keeps (map plan threads.now) done.old.items answered.old.items fronts.old.items link.old.back.history true }
    requires thread { thread < length threads.now }
    ensures keeps { Keeps (map plan threads.now) done.new.items answered.new.items fronts.new.items link.new.back.history (is_ok result) }
    ensures ok { IfOk result
        (λ stepped. IsStep D.journal (world_of (map plan threads.now) done.old.items fronts.old.items link.old.back true)
        (world_of (map plan threads.now) done.new.items fronts.new.items link.new.back true) (event.Call thread) stepped) }
    ensures done { OnErr result (done.new.items ≡ done.old.items) }
    ensures histories { OnErr result (histories_of fronts.new.items ≡ histories_of fronts.old.items) }
    ensures halt { OnErr result
        (HasFailed (map plan threads.now) fronts.old.items fronts.new.items link.old.back.history link.new.back.history thread) }
    ensures cause { HasCause (D.faults link.old.back.device) (D.faults link.new.back.device) result }
{
    groups_are_apart();
    cleanups_stay_whole();
    what_a_group_sees();
    fronts_go_on_standing();
    dues_grow();
    plays_go_on();
    let number = thread as usize;
    let plan = &threads[number];
    let Some(line) = plan.lines.get(done[number]) else {
        return Ok(Stepped::Ended);
    };
    if !may_follow(answered, line.after) {
        return Ok(Stepped::NotReady);
    }
    ask(fronts, link, plan.group, thread, line)?;
    answered[line.number as usize] = true;
    done[number] += 1;
    Ok(Stepped::Done)
}

// The front of a group gives its reply to the call of a line.
fn ask<D: Device>(
    fronts: &mut Vec<Front>,
    link: &mut Direct<D>,
    group: u8,
    thread: u32,
    line: &Line,
) -> Result<Reply, Stop>
    requires low { group < length fronts.old.items }
    requires may { (front : FrontModel) → slice_get fronts.old.items group ≡ Some front → MayAsk front link.old.back.history group thread }
    requires built { is_built line.now.call ≡ true }
    requires its_data { HasItsData line.now.call }
    ensures ok { IfOk result (λ reply.
        HasAsked fronts.old.items fronts.new.items link.old.back.history link.new.back.history group thread line.now reply) }
    ensures err { OnErr result (HasBroken fronts.old.items fronts.new.items link.old.back.history link.new.back.history group) }
    ensures cause { HasCause (D.faults link.old.back.device) (D.faults link.new.back.device) result }
{
    what_a_group_sees();
    link.group = group;
    let front = &mut fronts[usize::from(group)];
    front.call(link, thread, line.number, &line.call)
}
