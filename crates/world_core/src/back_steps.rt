// The steps of the back, which leave each group its own part.
ghost use Rattle.std.specs.Prelude.{◌≡◌, IfOk, IfErr, OnOk};
ghost use Rattle.vk_types.specs.declared.stops.Stop.TheVariants.{Lost};
ghost use Rattle.vk_device.specs.Faults.{HasCause};
ghost use Rattle.back_core.specs.Run.{WereRead};
ghost use Rattle.back_core.specs.Back.{stopped_by};
ghost use Rattle.back_core.specs.Steps.{CleansSome};
ghost use Rattle.world_core.specs.Steps.{HasSubmitted, HasTurned, HasRetired, HasCleaned};
ghost use Rattle.world_core.specs.Inside.{LeavesGroups, StaysWell};

use crate::Stepped;
use back_core::{Back, Step, backs_keep_going, cleanups_stay_whole, groups_are_apart};
use vk_device::{Device, Turned};
use vk_types::Stop;

/// Submits the first flushed batch.
pub(crate) fn submit_next<D: Device>(back: &mut Back<D>) -> Result<Stepped, Stop>
    ensures ok { IfOk result (λ stepped. HasSubmitted back.old.history back.new.history stepped) }
    ensures well { OnOk result (StaysWell back.old.history back.new.history) }
    ensures err { IfErr result (λ stop. back.new.history ≡ stopped_by back.old.history stop) }
    ensures leaves { LeavesGroups back.old.history back.new.history }
    ensures cause { HasCause (D.faults back.old.device) (D.faults back.new.device) result }
{
    groups_are_apart();
    cleanups_stay_whole();
    backs_keep_going();
    match back.submit_one()? {
        Step::Done => Ok(Stepped::Done),
        Step::Nothing => Ok(Stepped::Nothing),
    }
}

/// Has the device execute one ready node.
pub(crate) fn turn_next<D: Device>(back: &mut Back<D>) -> Result<Stepped, Stop>
    ensures ok { IfOk result (λ stepped. HasTurned back.old.history back.new.history stepped) }
    ensures well { OnOk result (StaysWell back.old.history back.new.history) }
    ensures err { IfErr result (λ stop. back.new.history ≡ stopped_by back.old.history stop) }
    ensures lost { IfErr result (λ stop. stop ≡ Lost) }
    ensures leaves { LeavesGroups back.old.history back.new.history }
    ensures cause { HasCause (D.faults back.old.device) (D.faults back.new.device) result }
{
    groups_are_apart();
    cleanups_stay_whole();
    backs_keep_going();
    match back.turn()? {
        Turned::Ran { .. } => Ok(Stepped::Done),
        Turned::Idle => Ok(Stepped::Nothing),
    }
}

/// Retires a batch.
pub(crate) fn retire_next<D: Device>(back: &mut Back<D>) -> Stepped
    ensures done { HasRetired back.old back.new result }
    ensures well { StaysWell back.old.history back.new.history }
    ensures leaves { LeavesGroups back.old.history back.new.history }
    ensures device { back.new.device ≡ back.old.device }
{
    groups_are_apart();
    cleanups_stay_whole();
    backs_keep_going();
    match back.retire() {
        Some(_) => Stepped::Done,
        None => Stepped::Nothing,
    }
}

/// Destroys what these completed numbers cover.
pub(crate) fn clean_next<D: Device>(back: &mut Back<D>, read: &[u64; 64]) -> Result<Stepped, Stop>
    requires { WereRead back.old.history read.now }
    ensures ok { IfOk result (λ stepped. HasCleaned D.journal back.old back.new read.now stepped) }
    ensures well { OnOk result (StaysWell back.old.history back.new.history) }
    ensures err { IfErr result (λ stop. CleansSome D.journal back.old back.new read.now stop) }
    ensures lost { IfErr result (λ stop. stop ≡ Lost) }
    ensures leaves { LeavesGroups back.old.history back.new.history }
    ensures cause { HasCause (D.faults back.old.device) (D.faults back.new.device) result }
{
    groups_are_apart();
    backs_keep_going();
    let _ = back.cleanup(read)?;
    Ok(Stepped::Done)
}
