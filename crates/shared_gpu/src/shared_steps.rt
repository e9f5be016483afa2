// The steps of the workers at a shared back: batches are submitted, run and retired, and garbage is destroyed.
ghost use Rattle.std.specs.Prelude.{◌≡◌, ◌≢◌, ◌<◌, ℕ, IfOk, IfErr, IfNone, IfSome};
ghost use Rattle.submit_queue.specs.Histories.{CanRetire};
ghost use Rattle.back_core.specs.declared.ending.Ending.TheVariants.{Stopped};
ghost use Rattle.back_core.specs.History.{queue_history, completed};
ghost use Rattle.back_core.specs.Run.{WereRead};
ghost use Rattle.back_core.specs.Back.{ending_of, stopped_by};
ghost use Rattle.back_core.specs.Steps.{Submits, Turns, RetiresOne, CleansUp};
ghost use Rattle.shared_gpu.specs.Views.{back_of};
ghost use Rattle.shared_gpu.specs.Turns.{StopsCleaning};

use crate::Shared;
use back_core::{Ending, Step, cleanups_stay_whole};
use vk_device::{Device, Turned};
use vk_types::{QueueSerial, Stop};

impl<D: Device> Shared<D> {
    /// Submits the first flushed batch; `Nothing` exactly where none stands.
    pub(crate) fn submit_one(&mut self) -> Result<Step, Stop>
        ensures ok { IfOk result (λ step. Submits self.old.history self.new.history step) }
        ensures err { IfErr result (λ stop. self.new.history ≡ stopped_by self.old.history stop) }
        ensures first { IfErr result (λ stop. ending_of self.new.history ≡ Stopped stop) }
        ensures opened { self.new.opened ≡ self.old.opened }
    {
        cleanups_stay_whole();
        match self.back.ending() {
            Ending::Stopped(stop) => Err(stop),
            Ending::Running | Ending::Closing => self.back.submit_one(),
        }
    }

    /// Has the device execute one ready node of an accepted batch; `Idle` exactly where no accepted node is left.
    pub(crate) fn turn(&mut self) -> Result<Turned, Stop>
        ensures ok { IfOk result (λ turned. Turns self.old.history self.new.history turned) }
        ensures err { IfErr result (λ stop. self.new.history ≡ stopped_by self.old.history stop) }
        ensures first { IfErr result (λ stop. ending_of self.new.history ≡ Stopped stop) }
        ensures opened { self.new.opened ≡ self.old.opened }
    {
        cleanups_stay_whole();
        match self.back.ending() {
            Ending::Stopped(stop) => Err(stop),
            Ending::Running | Ending::Closing => self.back.turn(),
        }
    }

    /// Retires a batch and gives its serial; `None` exactly where no batch can be retired.
    pub(crate) fn retire(&mut self) -> Option<QueueSerial>
        ensures some { IfSome result (λ serial. RetiresOne self.old.history self.new.history serial) }
        ensures others { IfSome result (λ serial. (i : ℕ) → i < 64 → i ≢ serial.index →
            completed self.new.history i ≡ completed self.old.history i) }
        ensures none { IfNone result ((place : ℕ) → CanRetire (queue_history self.old.history) place → ⊥) }
        ensures unchanged { IfNone result (self.new ≡ self.old) }
        ensures rest { (self.new.device ≡ self.old.device) × (self.new.opened ≡ self.old.opened) }
    {
        cleanups_stay_whole();
        self.back.retire()
    }

    /// Destroys the garbage that these completed numbers cover, in order, and gives its count. When the device is lost, the
    /// object at which that came is spent, and the rest stays.
    pub(crate) fn cleanup(&mut self, read: &[u64; 64]) -> Result<u64, Stop>
        requires { WereRead self.old.history read.now }
        ensures ok { IfOk result (λ count. CleansUp D.journal (back_of self.old) (back_of self.new) read.now count) }
        ensures err { IfErr result (λ stop. StopsCleaning D.journal self.old self.new read.now stop) }
        ensures first { IfErr result (λ stop. ending_of self.new.history ≡ Stopped stop) }
        ensures opened { self.new.opened ≡ self.old.opened }
    {
        cleanups_stay_whole();
        match self.back.ending() {
            Ending::Stopped(stop) => Err(stop),
            Ending::Running | Ending::Closing => self.back.cleanup(read),
        }
    }
}
