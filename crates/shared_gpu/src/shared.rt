// A back that several threads share: what lies behind the turnstile.
ghost use Rattle.std.specs.Prelude.{◌≡◌, ◌+◌, ◌<◌, ℕ, [], IfOk, IfErr};
ghost use Rattle.vk_types.specs.declared.stops.Stop.TheVariants.{Memory};
ghost use Rattle.back_core.specs.Back.{ending_of, stopped_by, closed_by};
ghost use Rattle.back_core.specs.Losses.{LossHasCause};
ghost use Rattle.shared_gpu.specs.Orderly.{IsOrderly};
ghost use Rattle.shared_gpu.specs.Workers.{IsWhatIsLeft};

use crate::Noted;
use back_core::{Back, Ending, Left, cleanups_stay_whole};
use std::alloc::Global;
use std::marker::Model;
use std::snapshot::Snapshot;
use turnstile::Chronicle;
use vk_device::Device;
use vk_types::SerialIndex;

/// A back, and its device as it was when the back was made, which contracts alone see: a loss of the device has stopped the
/// back only where the device's count of faults has risen since. On a stopped back the calls that may stop it answer the
/// first stop, and do not reach the device. No more than the eight groups use it, and no cleanup is cut off unless that stops it.
pub struct Shared<D: Device> {
    pub(crate) back: Back<D>,
    pub(crate) opened: Snapshot<D>,
}

impl<D: Device> Model for Shared<D> {
    ghost use Rattle.shared_gpu.specs.Views.{SharedModel};

    ghost Value = { SharedModel D };

    ghost use Rattle.back_core.specs.Losses.{LossHasCause};
    ghost use Rattle.shared_gpu.specs.Orderly.{IsOrderly};

    ghost view = { λ s. record { device = s.back.device; history = s.back.history; opened = D.faults s.opened.value } };

    ghost invariant = { λ s. LossHasCause (D.faults s.opened.value) (D.faults s.back.device) s.back.history × IsOrderly s.back.history };
}

impl<D: Device> Chronicle for Shared<D> {
    ghost use Rattle.std.specs.Prelude.{◌-◌};
    ghost use Rattle.back_core.specs.History.{completed};
    ghost use Rattle.shared_gpu.specs.Notes.{names_of, notes_of};

    type Entry = Noted;

    ghost history = { λ s. notes_of s.opened s.history };

    ghost names = { names_of };

    ghost published = { λ s word. completed s.history (word - 1) };

    fn count(&self) -> u64 {
        self.back.count() + 1
    }

    fn published(&self, word: u32) -> u64 {
        self.back.completed(SerialIndex::new((word - 1) as u8))
    }
}

impl<D: Device> Shared<D> {
    /// A back over a device that did nothing. For want of memory the device is handed back.
    pub fn new(alloc: Global, device: D) -> Result<Shared<D>, D>
        requires { D.journal device ≡ [] }
        ensures ok { IfOk result (λ s. s ≡ record { device = device; history = []; opened = D.faults device }) }
        ensures err { IfErr result (λ back. back ≡ device) }
    {
        cleanups_stay_whole();
        let opened = Snapshot::of(&device);
        match Back::new(alloc, device) {
            Ok(back) => Ok(Shared { back, opened }),
            Err(device) => Err(device),
        }
    }

    /// The back again.
    pub fn into_back(self) -> Back<D>
        ensures history { result.history ≡ self.history }
        ensures device { result.device ≡ self.device }
        ensures losses { LossHasCause self.opened (D.faults result.device) result.history }
        ensures orderly { IsOrderly result.history }
    {
        let Shared { back, opened: _ } = self;
        back
    }

    /// Whether the back runs, is closing, or was stopped.
    pub(crate) fn ending(&self) -> Ending
        ensures { result ≡ ending_of self.now.history }
    {
        self.back.ending()
    }

    /// What is left to do.
    pub(crate) fn left(&self) -> Left
        ensures { IsWhatIsLeft self.now.history result }
    {
        self.back.left()
    }

    /// A back that runs is closing from now on. This takes no memory.
    pub(crate) fn begin_closing(&mut self)
        ensures history { self.new.history ≡ closed_by self.old.history }
        ensures rest { (self.new.device ≡ self.old.device) × (self.new.opened ≡ self.old.opened) }
    {
        cleanups_stay_whole();
        self.back.begin_closing();
    }

    /// A back that was not stopped is stopped for want of memory from now on. This takes no memory.
    pub(crate) fn stop_for_memory(&mut self)
        ensures history { self.new.history ≡ stopped_by self.old.history Memory }
        ensures rest { (self.new.device ≡ self.old.device) × (self.new.opened ≡ self.old.opened) }
    {
        cleanups_stay_whole();
        self.back.stop_for_memory();
    }
}
