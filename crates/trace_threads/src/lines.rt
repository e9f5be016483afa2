// What a thread of a trace does.
ghost use Rattle.std.specs.Prelude.{◌≡◌, ℕ, ◌+◌, true, false, [], length, map, slice_get, Some};
ghost use Rattle.std.specs.Bool.{OnTrue};
ghost use Rattle.std.specs.List.{All};
ghost use mathlib.Core.List.{IsPrefix};
ghost use Rattle.gl_model.specs.Sizes.{HasItsData};
ghost use Rattle.front_core.specs.Share.{is_built};
ghost use Rattle.turnstile.specs.Histories.{own};
ghost use Rattle.group_gpu.specs.Groups.{names_of, calls_of, is_answered, IsBetween, IsThreads};
ghost use Rattle.trace_threads.specs.Lines.{HasAsked, HasMadeSome, Rise};

use crate::Gate;
use group_gpu::{Grouped, call_once, look_for_line};
use shared_gpu::Shared;
use std::sync::Wait;
use std::thread;
use trace_text::Line;
use turnstile::{Naming, Pass, Turnstile};
use vk_device::Device;

/// Makes the calls of a thread's lines in order, each once the line that it waits for was answered, and asks the gate before and
/// after each. It says whether all were answered; it ends before that where the group is stopped.
pub fn play_lines<D: Device, N: Naming, R: Wait, G: Gate>(
    rt: &R,
    group: &Turnstile<Grouped<D, N>>,
    mut pass: Pass<Grouped<D, N>>,
    back: &Turnstile<Shared<D>>,
    thread: u32,
    lines: &[Line],
    gate: &G,
) -> (Pass<Grouped<D, N>>, bool)
    requires name { (pass.name ≡ group.now.name) × (pass.holds ≡ false) }
    requires back { back.now.name ≡ N.name }
    requires mine { IsThreads pass thread }
    requires new { own names_of pass.number pass.seen ≡ [] }
    requires rise { Rise lines.now }
    requires built { All (λ line. is_built line.call ≡ true) lines.now }
    requires its_data { All (λ line. HasItsData line.call) lines.now }
    ensures kept { IsBetween pass result.0 }
    ensures mine { IsThreads result.0 thread }
    ensures begins { IsPrefix pass.seen result.0.seen }
    ensures made { HasMadeSome thread lines.now pass.number result.0.seen result.1 }
{
    for line in lines {
        if !play_line(rt, group, &mut pass, back, thread, line, gate) {
            return (pass, false);
        }
    }
    (pass, true)
}

// Makes the call of a line, and asks the gate before and after it. It says whether it was answered.
fn play_line<D: Device, N: Naming, R: Wait, G: Gate>(
    rt: &R,
    group: &Turnstile<Grouped<D, N>>,
    pass: &mut Pass<Grouped<D, N>>,
    back: &Turnstile<Shared<D>>,
    thread: u32,
    line: &Line,
    gate: &G,
) -> bool
    requires name { (pass.old.name ≡ group.now.name) × (pass.old.holds ≡ false) }
    requires back { back.now.name ≡ N.name }
    requires mine { IsThreads pass.old thread }
    requires built { is_built line.now.call ≡ true }
    requires its_data { HasItsData line.now.call }
    ensures kept { IsBetween pass.old pass.new }
    ensures mine { IsThreads pass.new thread }
    ensures begins { IsPrefix pass.old.seen pass.new.seen }
    ensures made { HasAsked thread line.now pass.old.number pass.old.seen pass.new.seen result }
{
    gate.before(thread, line.number);
    let answered = ask_line(rt, group, pass, back, thread, line);
    gate.after(thread, line.number);
    answered
}

// Makes the call of a line once the line that it waits for was answered. It says whether it was answered.
fn ask_line<D: Device, N: Naming, R: Wait>(
    rt: &R,
    group: &Turnstile<Grouped<D, N>>,
    pass: &mut Pass<Grouped<D, N>>,
    back: &Turnstile<Shared<D>>,
    thread: u32,
    line: &Line,
) -> bool
    requires name { (pass.old.name ≡ group.now.name) × (pass.old.holds ≡ false) }
    requires back { back.now.name ≡ N.name }
    requires mine { IsThreads pass.old thread }
    requires built { is_built line.now.call ≡ true }
    requires its_data { HasItsData line.now.call }
    ensures kept { IsBetween pass.old pass.new }
    ensures mine { IsThreads pass.new thread }
    ensures begins { IsPrefix pass.old.seen pass.new.seen }
    ensures made { HasAsked thread line.now pass.old.number pass.old.seen pass.new.seen result }
{
    if !wait_for_line(rt, group, pass, line.after) {
        return false;
    }
    match call_once(rt, group, pass, back, thread, line.number, &line.call) {
        Some(Ok(_)) => true,
        Some(Err(_)) => false,
        None => false,
    }
}

// Waits until the line that is waited for was answered, if there is one, or the group is stopped. It says whether it was answered.
fn wait_for_line<D: Device, N: Naming, R: Wait>(
    rt: &R,
    group: &Turnstile<Grouped<D, N>>,
    pass: &mut Pass<Grouped<D, N>>,
    line: Option<u32>,
) -> bool
    requires { (pass.old.name ≡ group.now.name) × (pass.old.holds ≡ false) }
    ensures kept { IsBetween pass.old pass.new }
    ensures mine { (thread : ℕ) → IsThreads pass.old thread → IsThreads pass.new thread }
    ensures begins { IsPrefix pass.old.seen pass.new.seen }
    ensures own { own names_of pass.old.number pass.new.seen ≡ own names_of pass.old.number pass.old.seen }
    ensures answered { OnTrue result ((number : ℕ) → line ≡ Some number → is_answered (calls_of pass.new.seen) number ≡ true) }
{
    let Some(line) = line else {
        return true;
    };
    for _ in rt.forever() {
        match look_for_line(rt, group, pass, line) {
            Some(true) => return true,
            Some(false) => thread::yield_now(),
            None => return false,
        }
    }
    unreachable!()
}
