// A turn of a thread at its group.
ghost use Rattle.std.specs.Prelude.{◌≡◌, ℕ, true, false, [], ◌∷◌, ◌++◌, IfSome, IfNone, IfOk, OnErr};
ghost use mathlib.Core.List.{IsPrefix};
ghost use Rattle.turnstile.specs.Histories.{own};
ghost use Rattle.gl_model.specs.Sizes.{HasItsData};
ghost use Rattle.front_core.specs.Share.{is_built};
ghost use Rattle.front_core.specs.Front.{entry_of};
ghost use Rattle.group_gpu.specs.declared.noted_call.NotedCall.TheVariants.{Answered};
ghost use Rattle.group_gpu.specs.Groups.{names_of, calls_of, is_answered, AreLegal, EndsWith, HasCalled, InOneTurn, IsBetween, IsThreads};

use crate::Grouped;
use gl_calls::{Call, Entry, Reply};
use shared_gpu::Shared;
use std::sync::Wait;
use turnstile::{Naming, Pass, Turnstile};
use vk_device::Device;
use vk_types::Stop;

/// One turn, in which a thread makes a call: the call stands behind those that the thread made before, and no other call of the
/// thread has come in between. It answers nothing where the group was stopped before.
pub fn call_once<D: Device, N: Naming, R: Wait>(
    rt: &R,
    group: &Turnstile<Grouped<D, N>>,
    pass: &mut Pass<Grouped<D, N>>,
    back: &Turnstile<Shared<D>>,
    thread: u32,
    line: u32,
    call: &Call,
) -> Option<Result<Reply, Stop>>
    requires name { (pass.old.name ≡ group.now.name) × (pass.old.holds ≡ false) }
    requires back { back.now.name ≡ N.name }
    requires mine { IsThreads pass.old thread }
    requires built { is_built call.now ≡ true }
    requires its_data { HasItsData call.now }
    ensures kept { IsBetween pass.old pass.new }
    ensures mine { IsThreads pass.new thread }
    ensures ok { IfSome result (λ r. IfOk r (λ reply. own names_of pass.old.number pass.new.seen ≡
        own names_of pass.old.number pass.old.seen ++ Answered pass.old.number (entry_of thread line call.now reply) ∷ [])) }
    ensures err { IfSome result (λ r. OnErr r (own names_of pass.old.number pass.new.seen ≡ own names_of pass.old.number pass.old.seen)) }
    ensures same { IfNone result (own names_of pass.old.number pass.new.seen ≡ own names_of pass.old.number pass.old.seen) }
    ensures last { IfSome result (λ r. IfOk r
        (λ reply. EndsWith pass.old.number pass.old.seen pass.new.seen (entry_of thread line call.now reply))) }
    ensures called { IfSome result (λ r. InOneTurn pass.old pass.new (λ s t. HasCalled s t thread line call.now r)) }
    ensures stopped { IfNone result (InOneTurn pass.old pass.new (λ s t. (s.front.stopped ≡ true) × (t ≡ s))) }
    ensures begins { IsPrefix pass.old.seen pass.new.seen }
    ensures legal { AreLegal pass.new.seen }
{
    let mut turn = group.take(rt, pass);
    if turn.value.is_stopped() {
        let _ = turn.value.history();
        group.put(pass, turn);
        return None;
    }
    let (value, answer) = turn.value.call(rt, back, thread, line, call);
    let _ = value.history();
    turn.value = value;
    group.put(pass, turn);
    Some(answer)
}

/// One turn, in which a thread asks whether the call on a line of the group was answered. It answers nothing where the group was
/// stopped.
pub fn look_for_line<D: Device, N: Naming, R: Wait>(
    rt: &R,
    group: &Turnstile<Grouped<D, N>>,
    pass: &mut Pass<Grouped<D, N>>,
    line: u32,
) -> Option<bool>
    requires name { (pass.old.name ≡ group.now.name) × (pass.old.holds ≡ false) }
    ensures kept { IsBetween pass.old pass.new }
    ensures mine { (thread : ℕ) → IsThreads pass.old thread → IsThreads pass.new thread }
    ensures own { own names_of pass.old.number pass.new.seen ≡ own names_of pass.old.number pass.old.seen }
    ensures answered { IfSome result (λ answered. answered ≡ is_answered (calls_of pass.new.seen) line) }
    ensures stopped { IfNone result (InOneTurn pass.old pass.new (λ s t. (s.front.stopped ≡ true) × (t ≡ s))) }
    ensures begins { IsPrefix pass.old.seen pass.new.seen }
    ensures legal { AreLegal pass.new.seen }
{
    let turn = group.take(rt, pass);
    if turn.value.is_stopped() {
        let _ = turn.value.history();
        group.put(pass, turn);
        return None;
    }
    let answered = has_answered(turn.value.history(), line);
    group.put(pass, turn);
    Some(answered)
}

// Whether the call on a line was answered.
fn has_answered(history: &[Entry], line: u32) -> bool
    ensures { result ≡ is_answered history.now line }
{
    for entry in history {
        if entry.line == line {
            return true;
        }
    }
    false
}
