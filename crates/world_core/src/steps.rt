// The steps of a world.
ghost use Rattle.std.specs.Prelude.{◌≡◌, true, IfOk, IfErr, OnErr};
ghost use Rattle.vk_device.specs.Faults.{HasCause};
ghost use Rattle.world_core.specs.declared.event.Event.TheVariants as event;
ghost use Rattle.world_core.specs.Steps.{MayStep, IsStep, IsHalt, HasHalted};

use crate::back_steps::{clean_next, retire_next, submit_next, turn_next};
use crate::calling::call_next;
use crate::{Event, Stepped, World};
use front_core::fronts_go_on_standing;
use vk_device::Device;
use vk_types::Stop;

impl<D: Device> World<D> {
    /// Makes one event. After `Lost` or `Memory` the world does not go on.
    pub fn step(&mut self, event: Event) -> Result<Stepped, Stop>
        requires running { self.old.running ≡ true }
        requires may { MayStep self.old event }
        ensures ok { IfOk result (λ stepped. IsStep D.journal self.old self.new event stepped) }
        ensures err { OnErr result (HasHalted self.old self.new) }
        ensures halt { IfErr result (λ stop. IsHalt D.journal self.old self.new event stop) }
        ensures cause { HasCause (D.faults self.old.back.device) (D.faults self.new.back.device) result }
    {
        match event {
            Event::Call(thread) => self.call(thread),
            Event::Submit => self.submit(),
            Event::Turn => self.turn(),
            Event::Retire => Ok(self.retire()),
            Event::Cleanup(read) => self.cleanup(&read),
        }
    }

    // The thread makes the call of its next line.
    fn call(&mut self, thread: u32) -> Result<Stepped, Stop>
        requires running { self.old.running ≡ true }
        requires may { MayStep self.old (event.Call thread) }
        ensures ok { IfOk result (λ stepped. IsStep D.journal self.old self.new (event.Call thread) stepped) }
        ensures err { OnErr result (HasHalted self.old self.new) }
        ensures halt { IfErr result (λ stop. IsHalt D.journal self.old self.new (event.Call thread) stop) }
        ensures cause { HasCause (D.faults self.old.back.device) (D.faults self.new.back.device) result }
    {
        let answer = call_next(
            &self.threads,
            &mut self.done,
            &mut self.answered,
            &mut self.fronts,
            &mut self.link,
            thread,
        );
        self.running = answer.is_ok();
        answer
    }

    fn submit(&mut self) -> Result<Stepped, Stop>
        requires running { self.old.running ≡ true }
        ensures ok { IfOk result (λ stepped. IsStep D.journal self.old self.new event.Submit stepped) }
        ensures err { OnErr result (HasHalted self.old self.new) }
        ensures halt { IfErr result (λ stop. IsHalt D.journal self.old self.new event.Submit stop) }
        ensures cause { HasCause (D.faults self.old.back.device) (D.faults self.new.back.device) result }
    {
        fronts_go_on_standing();
        let answer = submit_next(&mut self.link.back);
        self.running = answer.is_ok();
        answer
    }

    fn turn(&mut self) -> Result<Stepped, Stop>
        requires running { self.old.running ≡ true }
        ensures ok { IfOk result (λ stepped. IsStep D.journal self.old self.new event.Turn stepped) }
        ensures err { OnErr result (HasHalted self.old self.new) }
        ensures halt { IfErr result (λ stop. IsHalt D.journal self.old self.new event.Turn stop) }
        ensures cause { HasCause (D.faults self.old.back.device) (D.faults self.new.back.device) result }
    {
        fronts_go_on_standing();
        let answer = turn_next(&mut self.link.back);
        self.running = answer.is_ok();
        answer
    }

    fn retire(&mut self) -> Stepped
        requires running { self.old.running ≡ true }
        ensures step { IsStep D.journal self.old self.new event.Retire result }
        ensures device { self.new.back.device ≡ self.old.back.device }
    {
        fronts_go_on_standing();
        retire_next(&mut self.link.back)
    }

    fn cleanup(&mut self, read: &[u64; 64]) -> Result<Stepped, Stop>
        requires running { self.old.running ≡ true }
        requires may { MayStep self.old (event.Cleanup read.now) }
        ensures ok { IfOk result (λ stepped. IsStep D.journal self.old self.new (event.Cleanup read.now) stepped) }
        ensures err { OnErr result (HasHalted self.old self.new) }
        ensures halt { IfErr result (λ stop. IsHalt D.journal self.old self.new (event.Cleanup read.now) stop) }
        ensures cause { HasCause (D.faults self.old.back.device) (D.faults self.new.back.device) result }
    {
        fronts_go_on_standing();
        let answer = clean_next(&mut self.link.back, read);
        self.running = answer.is_ok();
        answer
    }
}
