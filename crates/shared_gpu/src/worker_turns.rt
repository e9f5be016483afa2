// The turns of workers: each is one turn at the back's turnstile, and at most one event there, with a change of its ending.
ghost use Rattle.std.specs.Prelude.{◌≡◌, ◌≤◌, ◌<◌, ◌+◌, ℕ, List, false, slice_index, IfOk, IfErr, IfSome, IfNone};
ghost use mathlib.Core.List.{IsPrefix};
ghost use Rattle.submit_queue.specs.Histories.{CanRetire};
ghost use Rattle.turnstile.specs.Histories.{greatest};
ghost use Rattle.back_core.specs.declared.ending.Ending.TheVariants.{Stopped};
ghost use Rattle.back_core.specs.History.{queue_history};
ghost use Rattle.back_core.specs.Back.{ending_of, stopped_by, closed_by};
ghost use Rattle.back_core.specs.Steps.{Submits, Turns, RetiresOne, CleansUp};
ghost use Rattle.shared_gpu.specs.Notes.{events_of};
ghost use Rattle.shared_gpu.specs.Views.{back_of};
ghost use Rattle.shared_gpu.specs.Turns.{InOneTurn, IsKept, WereLoaded, StopsCleaning};
ghost use Rattle.shared_gpu.specs.Workers.{IsWhatIsLeft};

use crate::Shared;
use crate::turns::put;
use back_core::{Ending, Left, Step, groups_are_apart, what_a_group_sees};
use std::sync::Wait;
use turnstile::{Pass, Turnstile};
use vk_device::{Device, Turned};
use vk_types::{QueueSerial, SerialIndex, Stop};

/// One turn, in which the first flushed batch is submitted; `Nothing` exactly where none stands. On a stopped back it answers
/// the first stop.
pub fn submit_one<D: Device, R: Wait>(
    rt: &R,
    back: &Turnstile<Shared<D>>,
    pass: &mut Pass<Shared<D>>,
) -> Result<Step, Stop>
    requires { (pass.old.name ≡ back.now.name) × (pass.old.holds ≡ false) }
    ensures kept { IsKept pass.old pass.new }
    ensures begins { IsPrefix pass.old.seen pass.new.seen }
    ensures ok { IfOk result (λ step. InOneTurn D pass.old pass.new (λ s t. Submits s.history t.history step)) }
    ensures err { IfErr result (λ stop. InOneTurn D pass.old pass.new (λ s t. t.history ≡ stopped_by s.history stop)) }
    ensures stopped { IfErr result (λ stop. ending_of (events_of pass.new.seen) ≡ Stopped stop) }
{
    what_a_group_sees();
    let mut turn = back.take(rt, pass);
    let answer = turn.value.submit_one();
    put(back, pass, turn);
    answer
}

/// One turn, in which the device executes one ready node of an accepted batch; `Idle` exactly where no accepted node is left. On
/// a stopped back it answers the first stop.
pub fn execute_one<D: Device, R: Wait>(
    rt: &R,
    back: &Turnstile<Shared<D>>,
    pass: &mut Pass<Shared<D>>,
) -> Result<Turned, Stop>
    requires { (pass.old.name ≡ back.now.name) × (pass.old.holds ≡ false) }
    ensures kept { IsKept pass.old pass.new }
    ensures begins { IsPrefix pass.old.seen pass.new.seen }
    ensures ok { IfOk result (λ turned. InOneTurn D pass.old pass.new (λ s t. Turns s.history t.history turned)) }
    ensures err { IfErr result (λ stop. InOneTurn D pass.old pass.new (λ s t. t.history ≡ stopped_by s.history stop)) }
    ensures stopped { IfErr result (λ stop. ending_of (events_of pass.new.seen) ≡ Stopped stop) }
{
    what_a_group_sees();
    let mut turn = back.take(rt, pass);
    let answer = turn.value.turn();
    put(back, pass, turn);
    answer
}

/// One turn, in which a batch is retired and the completed number of its index is published; `None` exactly where no batch can be
/// retired.
pub fn retire_one<D: Device, R: Wait>(
    rt: &R,
    back: &Turnstile<Shared<D>>,
    pass: &mut Pass<Shared<D>>,
) -> Option<QueueSerial>
    requires { (pass.old.name ≡ back.now.name) × (pass.old.holds ≡ false) }
    ensures kept { IsKept pass.old pass.new }
    ensures begins { IsPrefix pass.old.seen pass.new.seen }
    ensures some { IfSome result (λ serial. InOneTurn D pass.old pass.new (λ s t. RetiresOne s.history t.history serial)) }
    ensures none { IfNone result (InOneTurn D pass.old pass.new
        (λ s t. (t ≡ s) × ((place : ℕ) → CanRetire (queue_history s.history) place → ⊥))) }
{
    groups_are_apart();
    let mut turn = back.take(rt, pass);
    match turn.value.retire() {
        Some(QueueSerial { index, number }) => {
            back.publish(pass, &turn, u32::from(index.get()) + 1);
            back.put(pass, turn);
            Some(QueueSerial { index, number })
        }
        None => {
            put(back, pass, turn);
            None
        }
    }
}

/// How the back ends, and what is left to do, by one turn that adds nothing.
pub fn look<D: Device, R: Wait>(
    rt: &R,
    back: &Turnstile<Shared<D>>,
    pass: &mut Pass<Shared<D>>,
) -> (Ending, Left)
    requires { (pass.old.name ≡ back.now.name) × (pass.old.holds ≡ false) }
    ensures kept { IsKept pass.old pass.new }
    ensures begins { IsPrefix pass.old.seen pass.new.seen }
    ensures turn { InOneTurn D pass.old pass.new (λ s t. t ≡ s) }
    ensures ending { result.0 ≡ ending_of (events_of pass.new.seen) }
    ensures left { IsWhatIsLeft (events_of pass.new.seen) result.1 }
{
    let turn = back.take(rt, pass);
    let ending = turn.value.ending();
    let left = turn.value.left();
    put(back, pass, turn);
    (ending, left)
}

/// The completed numbers of all indexes, each by one load and without a turn.
pub fn read_all<D: Device>(back: &Turnstile<Shared<D>>, pass: &mut Pass<Shared<D>>) -> [u64; 64]
    requires { pass.old.name ≡ back.now.name }
    ensures pass { pass.new ≡ record pass.old { loads = pass.new.loads } }
    ensures loaded { WereLoaded pass.new.loads result }
{
    let mut read = [0; 64];
    for index in 0..64u32 {
        read[index as usize] = back.published(pass, index + 1);
    }
    read
}

/// One turn, in which the garbage is destroyed that the published numbers cover, which were loaded before it; it answers how much
/// that was. On a stopped back it answers the first stop.
pub fn clean_up<D: Device, R: Wait>(
    rt: &R,
    back: &Turnstile<Shared<D>>,
    pass: &mut Pass<Shared<D>>,
) -> Result<u64, Stop>
    requires { (pass.old.name ≡ back.now.name) × (pass.old.holds ≡ false) }
    ensures kept { IsKept pass.old pass.new }
    ensures begins { IsPrefix pass.old.seen pass.new.seen }
    ensures ok { IfOk result (λ count. InOneTurn D pass.old pass.new
        (λ s t. (read : List ℕ) × WereLoaded pass.new.loads read × CleansUp D.journal (back_of s) (back_of t) read count)) }
    ensures err { IfErr result (λ stop. InOneTurn D pass.old pass.new
        (λ s t. (read : List ℕ) × WereLoaded pass.new.loads read × StopsCleaning D.journal s t read stop)) }
    ensures stopped { IfErr result (λ stop. ending_of (events_of pass.new.seen) ≡ Stopped stop) }
{
    what_a_group_sees();
    let read = read_all(back, pass);
    let mut turn = back.take(rt, pass);
    let answer = turn.value.cleanup(&read);
    put(back, pass, turn);
    answer
}

/// One turn, in which a back that runs is told to close.
pub fn begin_closing<D: Device, R: Wait>(
    rt: &R,
    back: &Turnstile<Shared<D>>,
    pass: &mut Pass<Shared<D>>,
)
    requires { (pass.old.name ≡ back.now.name) × (pass.old.holds ≡ false) }
    ensures kept { IsKept pass.old pass.new }
    ensures begins { IsPrefix pass.old.seen pass.new.seen }
    ensures turn { InOneTurn D pass.old pass.new (λ s t. t.history ≡ closed_by s.history) }
{
    what_a_group_sees();
    let mut turn = back.take(rt, pass);
    turn.value.begin_closing();
    put(back, pass, turn);
}
