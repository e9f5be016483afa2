// The end of a shared back, when its turnstile was closed.
ghost use Rattle.std.specs.Prelude.{◌≡◌, ◌≤◌, ◌<◌, ℕ, false, None, Err, OnOk};
ghost use Rattle.faults.specs.Faults.{Rose};
ghost use Rattle.vk_types.specs.declared.stops.Stop.TheVariants.{Lost};
ghost use Rattle.vk_device.specs.Faults.{HasCause};
ghost use Rattle.vk_device.specs.Journal.{kind_of, IsClean};
ghost use Rattle.back_core.specs.History.{link_of};
ghost use Rattle.back_core.specs.Back.{ending_of, is_stopped};
ghost use Rattle.back_core.specs.Run.{journal_of};
ghost use Rattle.shared_gpu.specs.Orderly.{IsOrderly};
ghost use Rattle.shared_gpu.specs.Ends.{HasGivenAll, EndedWell};

use crate::Shared;
use back_core::{Back, Ending, backs_keep_going, cleanups_stay_whole};
use vk_device::Device;
use vk_types::Stop;

impl<D: Device> Shared<D> {
    /// Does what is left to do, and gives the device back: on a back that was not stopped each batch is submitted, run and retired,
    /// and all garbage is destroyed. It answers the first stop. Where each of the eight groups gave all that it made, no object is
    /// left.
    pub fn end(self) -> (Result<(), Stop>, D)
        ensures going { OnOk result.0 (is_stopped (ending_of self.history) ≡ false) }
        ensures well { OnOk result.0 (((group : ℕ) → group < 8 → HasGivenAll (link_of self.history group)) →
            EndedWell (D.journal result.1)) }
        ensures clean { IsClean (D.journal result.1) }
        ensures lost { result.0 ≡ Err Lost → Rose self.opened (D.faults result.1) }
        ensures later { self.opened ≤ D.faults result.1 }
    {
        let mut back = self.into_back();
        if let Ending::Stopped(stop) = back.ending() {
            return (Err(stop), back.finish());
        }
        let answer = settle(&mut back);
        (answer, back.finish())
    }
}

// Has each batch submitted, run and retired, and destroys all garbage.
fn settle<D: Device>(back: &mut Back<D>) -> Result<(), Stop>
    requires orderly { IsOrderly back.old.history }
    requires going { is_stopped (ending_of back.old.history) ≡ false }
    ensures going { OnOk result (is_stopped (ending_of back.new.history) ≡ false) }
    ensures destroyed { OnOk result (((group : ℕ) → group < 8 → HasGivenAll (link_of back.old.history group)) →
        (id : ℕ) → kind_of (journal_of back.new.history) id ≡ None) }
    ensures cause { HasCause (D.faults back.old.device) (D.faults back.new.device) result }
{
    cleanups_stay_whole();
    backs_keep_going();
    back.settle_all()?;
    back.clean_all()?;
    Ok(())
}
