// Destroying garbage, and the end of a back.
ghost use Rattle.std.specs.Prelude.{◌≡◌, ◌≢◌, ◌≤◌, ℕ, [], Some, None, Err, IfOk, IfErr, OnOk, Contains};
ghost use Rattle.faults.specs.Faults.{Rose};
ghost use Rattle.vk_types.specs.declared.stops.Stop.TheVariants.{Lost, Memory};
ghost use Rattle.vk_device.specs.Faults.{HasCause};
ghost use Rattle.vk_device.specs.Journal.{kind_of};
ghost use Rattle.vk_device.specs.Running.{IsInOrder};
ghost use Rattle.garbage.specs.declared.entry.Garbage.{Garbage};
ghost use Rattle.back_core.specs.Run.{IsRun, WereRead, journal_of, covered_in};
ghost use Rattle.back_core.specs.Steps.{CleansBy, CleansUp, CleansSome, CleansAll, CleansSomeOfAll, AreCompleted, IsAllGiven, CleansWhole, IsForgotten};

use crate::cleaning::{Destroyed, abandon_all, destroy_covered};
use crate::end_laws::{cleanups_stay_whole, runs_end_clean};
use crate::run_laws::{runs_go_on, runs_meet_the_device};
use crate::stored::Stored;
use crate::{Back, BackEvent};
use vk_device::Device;
use vk_types::{SerialIndex, Stop};

impl<D: Device> Back<D> {
    /// Destroys the garbage that these completed numbers cover, in order, and gives its count. When the device is lost,
    /// the object at which that came is spent, and the rest stays. No batch that was or will be handed to the back touches
    /// what is covered. This takes no memory.
    pub fn cleanup(&mut self, read: &[u64; 64]) -> Result<u64, Stop>
        requires { WereRead self.old.history read.now }
        ensures ok { IfOk result (λ count. CleansUp D.journal self.old self.new read.now count) }
        ensures err { IfErr result (λ stop. CleansSome D.journal self.old self.new read.now stop) }
        ensures whole { OnOk result (CleansWhole self.old.history → CleansWhole self.new.history) }
        ensures forgotten { (item : Garbage) → Contains (covered_in self.old.history read.now) item → IsForgotten self.old.history read.now item }
        ensures no_memory { result ≢ Err Memory }
        ensures cause { HasCause (D.faults self.old.device) (D.faults self.new.device) result }
    {
        runs_go_on();
        cleanups_stay_whole();
        let done = self.clean(read);
        match done.stop {
            None => Ok(done.count),
            Some(stop) => {
                self.stop(stop);
                Err(stop)
            }
        }
    }

    fn clean(&mut self, read: &[u64; 64]) -> Destroyed
        requires { WereRead self.old.history read.now }
        ensures cleans { CleansBy D.journal self.old self.new read.now result.count result.stop }
        ensures forgotten { (item : Garbage) → Contains (covered_in self.old.history read.now) item → IsForgotten self.old.history read.now item }
        ensures no_memory { result.stop ≢ Some Memory }
        ensures later { D.faults self.old.device ≤ D.faults self.new.device }
        ensures lost { result.stop ≡ Some Lost → Rose (D.faults self.old.device) (D.faults self.new.device) }
    {
        runs_go_on();
        runs_meet_the_device();
        let done = destroy_covered(&mut self.device, &mut self.garbage, read);
        if done.is_nothing() {
            return done;
        }
        self.history.push_reserved(Stored::Event(BackEvent::Cleaned {
            read: *read,
            destroyed: done.count,
        }));
        self.promised -= 1;
        done
    }

    /// Destroys the garbage that the completed numbers of all indexes cover. After it a run in which no cleanup was stopped,
    /// and each object of each group was given away, with uses that are completed, has left no object on the device.
    pub fn clean_all(&mut self) -> Result<u64, Stop>
        ensures ok { IfOk result (λ count. CleansAll D.journal self.old self.new count) }
        ensures err { IfErr result (λ stop. CleansSomeOfAll D.journal self.old self.new stop) }
        ensures clean { OnOk result (CleansWhole self.old.history → ((g : ℕ) → IsAllGiven self.old.history g) → (id : ℕ) → kind_of (journal_of self.new.history) id ≡ None) }
        ensures whole { OnOk result (CleansWhole self.old.history → CleansWhole self.new.history) }
        ensures no_memory { result ≢ Err Memory }
        ensures cause { HasCause (D.faults self.old.device) (D.faults self.new.device) result }
    {
        runs_end_clean();
        let _ = &self.alloc;
        let read = self.all_completed();
        self.cleanup(&read)
    }

    /// The completed numbers of all indexes.
    pub fn all_completed(&self) -> [u64; 64]
        ensures { AreCompleted self.now.history result }
    {
        let mut read = [0; 64];
        for index in 0..64u8 {
            read[usize::from(index)] = self.completed(SerialIndex::new(index));
        }
        read
    }

    /// Gives the device back, and lets the garbage that is left go.
    pub fn finish(self) -> D
        ensures run { IsRun self.history }
        ensures journal { D.journal result ≡ journal_of self.history }
        ensures in_order { IsInOrder (D.journal result) (D.bytes_of result) }
        ensures faults { D.faults result ≡ D.faults self.device }
    {
        let Back {
            alloc: _,
            mut device,
            history: _,
            promised: _,
            queue: _,
            garbage,
            ending: _,
        } = self;
        abandon_all(&mut device, garbage);
        device
    }
}
