// The workers: each makes its steps of the back until nothing of its part is left on a back that is closing, or the back was stopped.
ghost use Rattle.std.specs.Prelude.{◌≡◌, false, None, IfErr, IfSome, OnOk};
ghost use mathlib.Core.List.{IsPrefix};
ghost use Rattle.back_core.specs.declared.ending.Ending.TheVariants.{Closing, Stopped};
ghost use Rattle.back_core.specs.Back.{ending_of};
ghost use Rattle.shared_gpu.specs.Notes.{events_of};
ghost use Rattle.shared_gpu.specs.Turns.{IsKept};
ghost use Rattle.shared_gpu.specs.Workers.{IsDone, AllAreRetired, AllHaveRun, NoneWaits};

use crate::Shared;
use crate::worker_turns::{clean_up, execute_one, look, retire_one, submit_one};
use back_core::{Ending, Step};
use std::sync::Wait;
use std::thread;
use turnstile::{Pass, Turnstile};
use vk_device::{Device, Turned};
use vk_types::Stop;

/// Submits and retires batches. It answers `Ok` once the back is closing and each batch was retired, and else the first stop of the
/// back.
pub fn submission_worker<D: Device, R: Wait>(
    rt: &R,
    back: &Turnstile<Shared<D>>,
    mut pass: Pass<Shared<D>>,
) -> (Pass<Shared<D>>, Result<(), Stop>)
    requires { (pass.name ≡ back.now.name) × (pass.holds ≡ false) }
    ensures kept { IsKept pass result.0 }
    ensures begins { IsPrefix pass.seen result.0.seen }
    ensures ok { OnOk result.1 (IsDone AllAreRetired result.0.seen) }
    ensures stopped { IfErr result.1 (λ stop. ending_of (events_of result.0.seen) ≡ Stopped stop) }
{
    for _ in rt.forever() {
        if let Some(answer) = submission_round(rt, back, &mut pass) {
            return (pass, answer);
        }
    }
    unreachable!()
}

/// Has the device execute nodes. It answers `Ok` once the back is closing, each batch was accepted and each of its items ran, and
/// else the first stop of the back.
pub fn device_worker<D: Device, R: Wait>(
    rt: &R,
    back: &Turnstile<Shared<D>>,
    mut pass: Pass<Shared<D>>,
) -> (Pass<Shared<D>>, Result<(), Stop>)
    requires { (pass.name ≡ back.now.name) × (pass.holds ≡ false) }
    ensures kept { IsKept pass result.0 }
    ensures begins { IsPrefix pass.seen result.0.seen }
    ensures ok { OnOk result.1 (IsDone AllHaveRun result.0.seen) }
    ensures stopped { IfErr result.1 (λ stop. ending_of (events_of result.0.seen) ≡ Stopped stop) }
{
    for _ in rt.forever() {
        if let Some(answer) = device_round(rt, back, &mut pass) {
            return (pass, answer);
        }
    }
    unreachable!()
}

/// Destroys garbage by the published numbers, which it loads without a turn. It answers `Ok` once the back is closing and no garbage
/// is left, and else the first stop of the back.
pub fn cleanup_worker<D: Device, R: Wait>(
    rt: &R,
    back: &Turnstile<Shared<D>>,
    mut pass: Pass<Shared<D>>,
) -> (Pass<Shared<D>>, Result<(), Stop>)
    requires { (pass.name ≡ back.now.name) × (pass.holds ≡ false) }
    ensures kept { IsKept pass result.0 }
    ensures begins { IsPrefix pass.seen result.0.seen }
    ensures ok { OnOk result.1 (IsDone NoneWaits result.0.seen) }
    ensures stopped { IfErr result.1 (λ stop. ending_of (events_of result.0.seen) ≡ Stopped stop) }
{
    for _ in rt.forever() {
        if let Some(answer) = cleanup_round(rt, back, &mut pass) {
            return (pass, answer);
        }
    }
    unreachable!()
}

// A batch is submitted, or else one is retired, or else more is waited for.
fn submission_round<D: Device, R: Wait>(
    rt: &R,
    back: &Turnstile<Shared<D>>,
    pass: &mut Pass<Shared<D>>,
) -> Option<Result<(), Stop>>
    requires { (pass.old.name ≡ back.now.name) × (pass.old.holds ≡ false) }
    ensures kept { IsKept pass.old pass.new }
    ensures begins { IsPrefix pass.old.seen pass.new.seen }
    ensures ok { IfSome result (λ r. OnOk r (IsDone AllAreRetired pass.new.seen)) }
    ensures stopped { IfSome result (λ r. IfErr r (λ stop. ending_of (events_of pass.new.seen) ≡ Stopped stop)) }
{
    let count = back.counted(pass);
    match submit_one(rt, back, pass) {
        Ok(Step::Done) => return None,
        Ok(Step::Nothing) => {}
        Err(stop) => return Some(Err(stop)),
    }
    if retire_one(rt, back, pass).is_some() {
        return None;
    }
    let (ending, left) = look(rt, back, pass);
    match verdict(ending, left.batches) {
        Some(answer) => Some(answer),
        None => {
            wait_past(rt, back, pass, count);
            None
        }
    }
}

// The device executes a node, or else more is waited for.
fn device_round<D: Device, R: Wait>(
    rt: &R,
    back: &Turnstile<Shared<D>>,
    pass: &mut Pass<Shared<D>>,
) -> Option<Result<(), Stop>>
    requires { (pass.old.name ≡ back.now.name) × (pass.old.holds ≡ false) }
    ensures kept { IsKept pass.old pass.new }
    ensures begins { IsPrefix pass.old.seen pass.new.seen }
    ensures ok { IfSome result (λ r. OnOk r (IsDone AllHaveRun pass.new.seen)) }
    ensures stopped { IfSome result (λ r. IfErr r (λ stop. ending_of (events_of pass.new.seen) ≡ Stopped stop)) }
{
    let count = back.counted(pass);
    match execute_one(rt, back, pass) {
        Ok(Turned::Ran { .. }) => return None,
        Ok(Turned::Idle) => {}
        Err(stop) => return Some(Err(stop)),
    }
    let (ending, left) = look(rt, back, pass);
    match verdict(ending, left.flushed || left.nodes) {
        Some(answer) => Some(answer),
        None => {
            wait_past(rt, back, pass, count);
            None
        }
    }
}

// What is covered is destroyed, or else more is waited for.
fn cleanup_round<D: Device, R: Wait>(
    rt: &R,
    back: &Turnstile<Shared<D>>,
    pass: &mut Pass<Shared<D>>,
) -> Option<Result<(), Stop>>
    requires { (pass.old.name ≡ back.now.name) × (pass.old.holds ≡ false) }
    ensures kept { IsKept pass.old pass.new }
    ensures begins { IsPrefix pass.old.seen pass.new.seen }
    ensures ok { IfSome result (λ r. OnOk r (IsDone NoneWaits pass.new.seen)) }
    ensures stopped { IfSome result (λ r. IfErr r (λ stop. ending_of (events_of pass.new.seen) ≡ Stopped stop)) }
{
    let count = back.counted(pass);
    match clean_up(rt, back, pass) {
        Ok(0) => {}
        Ok(_) => return None,
        Err(stop) => return Some(Err(stop)),
    }
    let (ending, left) = look(rt, back, pass);
    match verdict(ending, left.garbage) {
        Some(answer) => Some(answer),
        None => {
            wait_past(rt, back, pass, count);
            None
        }
    }
}

// A worker's answer: none as long as the back runs, or something of the worker's part is left.
fn verdict(ending: Ending, left: bool) -> Option<Result<(), Stop>>
    ensures ok { IfSome result (λ r. OnOk r ((ending ≡ Closing) × (left ≡ false))) }
    ensures stopped { IfSome result (λ r. IfErr r (λ stop. ending ≡ Stopped stop)) }
{
    match ending {
        Ending::Running => None,
        Ending::Closing => { if left { None } else { Some(Ok(())) } }
        Ending::Stopped(stop) => Some(Err(stop)),
    }
}

// Waits until the back's history has more entries than these, by loads alone.
fn wait_past<D: Device, R: Wait>(
    rt: &R,
    back: &Turnstile<Shared<D>>,
    pass: &mut Pass<Shared<D>>,
    count: u64,
)
    requires { pass.old.name ≡ back.now.name }
    ensures { pass.new ≡ record pass.old { counted = pass.new.counted } }
{
    for _ in rt.forever() {
        if back.counted(pass) > count {
            return;
        }
        thread::yield_now();
    }
    unreachable!()
}
