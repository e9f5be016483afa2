// A device in memory whose order is drawn.
ghost use Rattle.std.specs.Prelude.{◌≡◌, ◌≢◌, ◌+◌, ◌<◌, ◌^◌, [], length, All, IfOk, OnOk, OnErr, IsSome, Err};
ghost use Rattle.cells.specs.Contents.{part, overwritten};
ghost use Rattle.rand_xoshiro.specs.SplitMix64.{splitmix_seed};
ghost use Rattle.rand_xoshiro.specs.Xoshiro256.{of_seed};
ghost use Rattle.vk_types.specs.declared.stops.Stop.TheVariants.{Memory};
ghost use Rattle.vk_model.specs.Fitting.{IsKind, NodeFits, size_of};
ghost use Rattle.vk_model.specs.Meaning.{IsSettled};
ghost use Rattle.vk_device.specs.declared.logged.Logged.TheVariants.{Created, Wrote, Submitted, Fetched, Destroyed};
ghost use Rattle.vk_device.specs.Faults.{HasCause};
ghost use Rattle.vk_device.specs.Journal.{kind_of, creates, creates_of, ReachesTo};
ghost use Rattle.vk_device.specs.Order.{log_of, order_of, IsOfOneQueue, FindItsLayouts, IsVisible};
ghost use Rattle.vk_device.specs.Effects.{ChangesNothing, ChangesOnly, Adds, HasTurned};
ghost use Rattle.vk_machine.specs.declared.choice.Choice.TheVariants.{Words};
ghost use Rattle.vk_machine.specs.Machine.{journal_of, bytes_in};
ghost use Rattle.vk_machine.specs.Turns.{TurnsByChoice};

use rand_core::SeedableRng;
use rand_xoshiro::Xoshiro256PlusPlus;
use std::alloc::Global;
use vk_device::{Device, Logged, Turned};
use vk_machine::{Choice, Machine};
use vk_types::{Batch, Handle, HandleId, Kind, Stop};

/// A device that keeps the bytes of its objects in memory, and is never lost. Each turn draws a word, and executes the
/// ready node numbered by the word modulo the count of the ready ones, from 0 in order of acceptance.
#[derive(Drop)]
pub struct SoftDevice {
    machine: Machine,
}

impl SoftDevice {
    /// A device without objects, whose words are those of the generator of this seed.
    pub fn seeded(alloc: Global, seed: u64) -> SoftDevice
        ensures journal { journal_of result.machine ≡ [] }
        ensures choice { result.machine.choice ≡ Words (of_seed (splitmix_seed 32 seed)) }
    {
        SoftDevice {
            machine: Machine::new(
                alloc,
                Choice::Words(Xoshiro256PlusPlus::seed_from_u64(seed)),
            ),
        }
    }
}

impl Device for SoftDevice {
    ghost journal = { λ f. journal_of f.machine };

    ghost bytes_of = { λ f id. bytes_in f.machine id };

    ghost faults = { λ f. 0 };

    fn create(&mut self, kind: Kind) -> Result<Handle, Stop>
        requires { IsKind kind }
        ensures logged { IfOk result (λ id. ChangesOnly (λ f. journal_of f.machine) (λ f id. bytes_in f.machine id) self.old self.new id.0 (Created id kind)) }
        ensures number { IfOk result (λ id. id.0 ≡ creates (journal_of self.old.machine)) }
        ensures fresh { IfOk result (λ id. creates_of id.0 (journal_of self.old.machine) ≡ 0) }
        ensures size { IfOk result (λ id. length (bytes_in self.new.machine id.0) ≡ size_of kind) }
        ensures err { OnErr result (ChangesNothing (λ f. journal_of f.machine) (λ f id. bytes_in f.machine id) self.old self.new) }
        ensures cause { HasCause 0 0 result }
        ensures choice { self.new.machine.choice ≡ self.old.machine.choice }
    {
        self.machine.create(kind)
    }

    fn write_host(&mut self, id: HandleId, at: u64, bytes: &[u8]) -> Result<(), Stop>
        requires some { 0 < length bytes.now }
        requires inside { ReachesTo (kind_of (journal_of self.old.machine) id.0) (at + length bytes.now) }
        requires settled { IsSettled (log_of (journal_of self.old.machine)) (order_of (journal_of self.old.machine)) id.0 }
        ensures logged { OnOk result (ChangesOnly (λ f. journal_of f.machine) (λ f id. bytes_in f.machine id) self.old self.new id.0 (Wrote id at bytes.now)) }
        ensures short { OnOk result (at + length bytes.now < 2 ^ 64) }
        ensures written { OnOk result (bytes_in self.new.machine id.0 ≡ overwritten (bytes_in self.old.machine id.0) at bytes.now) }
        ensures err { OnErr result (ChangesNothing (λ f. journal_of f.machine) (λ f id. bytes_in f.machine id) self.old self.new) }
        ensures cause { HasCause 0 0 result }
        ensures choice { self.new.machine.choice ≡ self.old.machine.choice }
    {
        self.machine.write_host(id, at, bytes)
    }

    fn submit(&mut self, batch: &Batch) -> Result<(), Stop>
        requires queue { IsOfOneQueue batch.now }
        requires short { length batch.now.nodes < 4294967296 }
        requires fits { All (NodeFits (kind_of (journal_of self.old.machine))) batch.now.nodes }
        requires layouts { FindItsLayouts (log_of (journal_of self.old.machine)) batch.now }
        ensures logged { OnOk result (Adds (λ f. journal_of f.machine) (λ f id. bytes_in f.machine id) self.old self.new (Submitted batch.now)) }
        ensures err { OnErr result (ChangesNothing (λ f. journal_of f.machine) (λ f id. bytes_in f.machine id) self.old self.new) }
        ensures cause { HasCause 0 0 result }
        ensures choice { self.new.machine.choice ≡ self.old.machine.choice }
    {
        self.machine.submit(batch)
    }

    fn turn(&mut self) -> Result<Turned, Stop>
        ensures turned { HasTurned (λ f. journal_of f.machine) (λ f id. bytes_in f.machine id) self.old self.new result }
        ensures chosen { TurnsByChoice self.old.machine self.new.machine result }
        ensures cause { HasCause 0 0 result }
    {
        self.machine.turn()
    }

    fn read_host(&mut self, id: HandleId, at: u64, out: &mut [u8]) -> Result<(), Stop>
        requires some { 0 < length out.old }
        requires inside { ReachesTo (kind_of (journal_of self.old.machine) id.0) (at + length out.old) }
        requires settled { IsSettled (log_of (journal_of self.old.machine)) (order_of (journal_of self.old.machine)) id.0 }
        requires visible { IsVisible (log_of (journal_of self.old.machine)) id.0 at (at + length out.old) }
        ensures logged { OnOk result (ChangesOnly (λ f. journal_of f.machine) (λ f id. bytes_in f.machine id) self.old self.new id.0 (Fetched id at out.new)) }
        ensures same { OnOk result (bytes_in self.new.machine id.0 ≡ bytes_in self.old.machine id.0) }
        ensures read { OnOk result (out.new ≡ part (bytes_in self.old.machine id.0) at (length out.old)) }
        ensures unread { OnErr result (out.new ≡ out.old) }
        ensures err { OnErr result (ChangesNothing (λ f. journal_of f.machine) (λ f id. bytes_in f.machine id) self.old self.new) }
        ensures cause { HasCause 0 0 result }
        ensures choice { self.new.machine.choice ≡ self.old.machine.choice }
    {
        self.machine.read_host(id, at, out)
    }

    fn destroy(&mut self, handle: Handle) -> Result<(), Stop>
        requires live { IsSome (kind_of (journal_of self.old.machine) handle.0) }
        requires settled { IsSettled (log_of (journal_of self.old.machine)) (order_of (journal_of self.old.machine)) handle.0 }
        ensures logged { OnOk result (ChangesOnly (λ f. journal_of f.machine) (λ f id. bytes_in f.machine id) self.old self.new handle.0 (Destroyed handle)) }
        ensures err { OnErr result (ChangesNothing (λ f. journal_of f.machine) (λ f id. bytes_in f.machine id) self.old self.new) }
        ensures no_memory { result ≢ Err Memory }
        ensures cause { HasCause 0 0 result }
        ensures choice { self.new.machine.choice ≡ self.old.machine.choice }
    {
        self.machine.destroy(handle)
    }

    fn abandon(&mut self, handle: Handle)
        ensures same { ChangesNothing (λ f. journal_of f.machine) (λ f id. bytes_in f.machine id) self.old self.new }
        ensures choice { self.new.machine.choice ≡ self.old.machine.choice }
    {
        self.machine.abandon(handle);
    }

    fn journal(&self) -> &[Logged] {
        self.machine.journal()
    }
}
