// The two ends of a turn of a group's pass, in the words of its link.
ghost use Rattle.std.specs.Prelude.{◌≡◌};
ghost use mathlib.Core.List.{IsPrefix};
ghost use Rattle.turnstile.specs.Turns.{IsTurnOf};
ghost use Rattle.shared_gpu.specs.Notes.{Adds};
ghost use Rattle.shared_gpu.specs.Seats.{IsSeat, Taken, GivenBack};

use crate::Shared;
use std::sync::Wait;
use turnstile::{Pass, Turn, Turnstile};
use vk_device::Device;

/// Takes a turn of a group's pass. What the group sees is what it saw before, and no number that it knows is above the
/// completed one.
pub(crate) fn take<D: Device, R: Wait>(
    rt: &R,
    back: &Turnstile<Shared<D>>,
    pass: &mut Pass<Shared<D>>,
    group: u8,
) -> Turn<Shared<D>>
    requires { IsSeat back.now.name group pass.old }
    ensures taken { Taken group pass.old pass.new result.value.opened result.value.history }
    ensures begins { IsPrefix pass.old.seen pass.new.seen }
    ensures turn { IsTurnOf result pass.new }
{
    let _ = group;
    back.take(rt, pass)
}

/// Gives the back to the turnstile again, after a turn that has added events of this pass or of none, and no retirement.
pub(crate) fn put<D: Device>(
    back: &Turnstile<Shared<D>>,
    pass: &mut Pass<Shared<D>>,
    turn: Turn<Shared<D>>,
)
    requires name { pass.old.name ≡ back.now.name }
    requires turn { IsTurnOf turn pass.old }
    requires adds { Adds pass.old turn.value.opened turn.value.history }
    ensures given { GivenBack pass.old pass.new turn.value.opened turn.value.history }
    ensures begins { IsPrefix pass.old.seen pass.new.seen }
{
    back.put(pass, turn);
}
