// How the batches go on: they are submitted, run and retired.
ghost use Rattle.std.specs.Prelude.{◌≡◌, ◌≢◌, ◌<◌, ◌≤◌, ℕ, Err, IfOk, IfErr, IfNone, IfSome, OnOk, OnErr};
ghost use Rattle.vk_types.specs.declared.stops.Stop.TheVariants.{Memory};
ghost use Rattle.vk_device.specs.Faults.{HasCause};
ghost use Rattle.submit_queue.specs.Histories.{CanRetire};
ghost use Rattle.back_core.specs.Needs.{HasBatch};
ghost use Rattle.back_core.specs.Answers.{Learns};
ghost use Rattle.back_core.specs.History.{queue_history, completed, link_of};
ghost use Rattle.back_core.specs.Back.{stopped_by};
ghost use Rattle.back_core.specs.Steps.{Submits, Turns, RetiresOne, IsIdle, Proceeds, HasGoneOn, HasStopped};

use crate::run_laws::{runs_are_sound, runs_go_on, runs_meet_the_device};
use crate::stored::Stored;
use crate::{Back, BackEvent, Step, what_a_group_sees};
use vk_device::{Device, Turned, devices_stay_in_order};
use vk_types::{QueueSerial, Stop};

impl<D: Device> Back<D> {
    /// Submits the first flushed batch; `Nothing` exactly where none stands.
    pub fn submit_one(&mut self) -> Result<Step, Stop>
        ensures ok { IfOk result (λ step. Submits self.old.history self.new.history step) }
        ensures err { IfErr result (λ stop. self.new.history ≡ stopped_by self.old.history stop) }
        ensures cause { HasCause (D.faults self.old.device) (D.faults self.new.device) result }
    {
        let answer = self.try_submit();
        self.ended(answer)
    }

    fn try_submit(&mut self) -> Result<Step, Stop>
        ensures ok { IfOk result (λ step. Submits self.old.history self.new.history step) }
        ensures err { OnErr result (self.new.history ≡ self.old.history) }
        ensures cause { HasCause (D.faults self.old.device) (D.faults self.new.device) result }
    {
        runs_go_on();
        runs_are_sound();
        runs_meet_the_device();
        devices_stay_in_order::<D>();
        match self.queue.first_flushed() {
            Some(batch) => self.device.submit(batch)?,
            None => return Ok(Step::Nothing),
        }
        self.queue.accept();
        self.history
            .push_reserved(Stored::Event(BackEvent::Submitted));
        self.promised -= 1;
        Ok(Step::Done)
    }

    /// Has the device execute one ready node of an accepted batch; `Idle` exactly where no accepted node is left. This
    /// takes no memory.
    pub fn turn(&mut self) -> Result<Turned, Stop>
        ensures ok { IfOk result (λ turned. Turns self.old.history self.new.history turned) }
        ensures err { IfErr result (λ stop. self.new.history ≡ stopped_by self.old.history stop) }
        ensures no_memory { result ≢ Err Memory }
        ensures cause { HasCause (D.faults self.old.device) (D.faults self.new.device) result }
    {
        let answer = self.try_turn();
        self.ended(answer)
    }

    fn try_turn(&mut self) -> Result<Turned, Stop>
        ensures ok { IfOk result (λ turned. Turns self.old.history self.new.history turned) }
        ensures err { OnErr result (self.new.history ≡ self.old.history) }
        ensures no_memory { result ≢ Err Memory }
        ensures cause { HasCause (D.faults self.old.device) (D.faults self.new.device) result }
    {
        runs_go_on();
        runs_meet_the_device();
        devices_stay_in_order::<D>();
        match self.device.turn()? {
            Turned::Ran { batch, node } => {
                self.queue.ran(batch, node);
                self.history
                    .push_reserved(Stored::Event(BackEvent::Ran { batch, node }));
                self.promised -= 1;
                Ok(Turned::Ran { batch, node })
            }
            Turned::Idle => Ok(Turned::Idle),
        }
    }

    /// Retires a batch and gives its serial; `None` exactly where no batch can be retired. The completed number of its index
    /// alone changes. This takes no memory.
    pub fn retire(&mut self) -> Option<QueueSerial>
        ensures some { IfSome result (λ serial. RetiresOne self.old.history self.new.history serial) }
        ensures others { IfSome result (λ serial. (i : ℕ) → i < 64 → i ≢ serial.index → completed self.new.history i ≡ completed self.old.history i) }
        ensures none { IfNone result ((place : ℕ) → CanRetire (queue_history self.old.history) place → ⊥) }
        ensures unchanged { IfNone result (self.new ≡ self.old) }
        ensures device { self.new.device ≡ self.old.device }
    {
        runs_go_on();
        runs_meet_the_device();
        let QueueSerial { index, number } = self.queue.retire()?;
        self.history.push_reserved(Stored::Event(BackEvent::Retired {
            serial: QueueSerial { index, number },
        }));
        self.promised -= 1;
        Some(QueueSerial { index, number })
    }

    /// Retires a batch, or else has the device execute a node, or else submits a batch; `Nothing` exactly where nothing of
    /// this is left.
    pub fn go_on(&mut self) -> Result<Step, Stop>
        ensures ok { IfOk result (λ step. Proceeds self.old.history self.new.history step) }
        ensures err { IfErr result (λ stop. self.new.history ≡ stopped_by self.old.history stop) }
        ensures cause { HasCause (D.faults self.old.device) (D.faults self.new.device) result }
    {
        runs_meet_the_device();
        let _ = &self.alloc;
        match self.retire() {
            Some(_) => return Ok(Step::Done),
            None => {}
        }
        match self.turn()? {
            Turned::Ran { .. } => Ok(Step::Done),
            Turned::Idle => self.submit_one(),
        }
    }

    /// Goes on until the batch with this serial is retired.
    pub fn wait_for(&mut self, group: u8, serial: QueueSerial) -> Result<(), Stop>
        requires { HasBatch (link_of self.old.history group) serial.index serial.number }
        ensures ok { OnOk result (HasGoneOn self.old.history self.new.history) }
        ensures reached { OnOk result (serial.number ≤ completed self.new.history serial.index) }
        ensures err { IfErr result (λ stop. HasStopped self.old.history self.new.history stop) }
        ensures learns { Learns (link_of self.old.history group) (link_of self.new.history group) }
        ensures cause { HasCause (D.faults self.old.device) (D.faults self.new.device) result }
    {
        what_a_group_sees();
        let mut reached = self.completed(serial.index);
        while reached < serial.number {
            if let Step::Nothing = self.go_on()? {
                return Ok(());
            }
            reached = self.completed(serial.index);
        }
        Ok(())
    }

    /// Goes on until nothing is left to do: each batch was submitted, run and retired.
    pub fn settle_all(&mut self) -> Result<(), Stop>
        ensures ok { OnOk result (HasGoneOn self.old.history self.new.history) }
        ensures idle { OnOk result (IsIdle self.new.history) }
        ensures err { IfErr result (λ stop. HasStopped self.old.history self.new.history stop) }
        ensures cause { HasCause (D.faults self.old.device) (D.faults self.new.device) result }
    {
        let mut going = true;
        while going {
            going = match self.go_on()? {
                Step::Done => true,
                Step::Nothing => false,
            };
        }
        Ok(())
    }
}
