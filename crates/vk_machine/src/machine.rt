// The device in memory.
ghost use Rattle.std.specs.Prelude.{◌≡◌, ◌≢◌, ◌+◌, ◌<◌, ◌≤◌, ◌^◌, ◌++◌, [], length, All, IfOk, OnOk, OnErr, IsSome, Err};
ghost use Rattle.cells.specs.Contents.{part, overwritten};
ghost use Rattle.vk_types.specs.declared.stops.Stop.TheVariants.{Memory};
ghost use Rattle.vk_model.specs.Fitting.{IsKind, NodeFits, size_of};
ghost use Rattle.vk_model.specs.Meaning.{IsSettled};
ghost use Rattle.vk_ready.specs.Ready.{ready_places, ready_place};
ghost use Rattle.vk_device.specs.declared.logged.Logged.TheVariants.{Created, Wrote, Submitted, Fetched, Destroyed};
ghost use Rattle.vk_device.specs.Faults.{HasCause};
ghost use Rattle.vk_device.specs.Journal.{kind_of, creates, creates_of, ReachesTo};
ghost use Rattle.vk_device.specs.Order.{log_of, order_of, IsOfOneQueue, FindItsLayouts, IsVisible};
ghost use Rattle.vk_device.specs.Effects.{ChangesNothing, ChangesOnly, Adds, HasTurned};
ghost use Rattle.vk_machine.specs.Machine.{journal_of, bytes_in, waiting_from, RunsReady};
ghost use Rattle.vk_machine.specs.Turns.{TurnsByChoice};

use crate::Choice;
use cells::Bytes;
use std::alloc::Global;
use std::marker::Model;
use vk_device::{Device, Logged, Turned};
use vk_objects::{Objects, execute};
use vk_ready::{WaitingNode, WaitingNodes};
use vk_types::{Batch, Handle, HandleId, Kind, Node, Stop};

/// A device that keeps the bytes of its objects in memory, and is never lost. A turn costs the work of its node, and
/// a search for those nodes alone that waited for it. Only a turn draws a word of the choice.
#[derive(Drop)]
pub struct Machine {
    alloc: Global,
    choice: Choice,
    objects: Objects,
    made: u64,
    batches: u64,
    journal: Vec<Logged>,
    waiting: WaitingNodes,
}

impl Model for Machine {
    ghost use Rattle.std.specs.Prelude.{◌+◌, ◌≤◌, length};
    ghost use Rattle.std.specs.Vec.{vec_len, vec_capacity};
    ghost use Rattle.vk_objects.specs.Objects.{count_of};
    ghost use Rattle.vk_machine.specs.Machine.{MachineModel, Keeps, stored_in};

    ghost Value = { MachineModel };

    ghost view = { λ m. record { choice = m.choice; journal = m.journal.items; stored = stored_in m.objects; waiting = m.waiting.nodes } };

    ghost invariant = { λ m. Keeps m.journal.items m.objects m.waiting.nodes m.made m.batches × (vec_len m.journal + count_of m.objects + length m.waiting.nodes ≤ vec_capacity m.journal) };
}

impl Machine {
    /// A device without objects. This takes no memory.
    pub fn new(alloc: Global, choice: Choice) -> Machine
        ensures choice { result.choice ≡ choice }
        ensures journal { result.journal ≡ [] }
    {
        Machine {
            alloc,
            choice,
            objects: Objects::new(alloc),
            made: 0,
            batches: 0,
            journal: Vec::new(alloc),
            waiting: WaitingNodes::new(alloc),
        }
    }

    // Executes the ready node of this number.
    fn run(&mut self, number: usize) -> Turned
        requires { number < length (ready_places self.old.waiting) }
        ensures ran { RunsReady self.old self.new number result }
        ensures choice { self.new.choice ≡ self.old.choice }
    {
        let node = self.waiting.take(number);
        execute(&node.command, &mut self.objects);
        self.journal.push_reserved(Logged::Ran {
            batch: node.batch,
            node: node.node,
        });
        Turned::Ran {
            batch: node.batch,
            node: node.node,
        }
    }
}

// Puts the nodes of a batch behind those that wait.
fn push_all(waiting: &mut WaitingNodes, batch: u64, queue: u8, nodes: Vec<Node>)
    requires room { length nodes.items ≤ waiting.old.room }
    requires short { length nodes.items < 4294967296 }
    ensures { waiting.new.nodes ≡ waiting.old.nodes ++ waiting_from batch 0 queue nodes.items }
{
    let mut number = 0;
    for command in nodes {
        waiting.push(WaitingNode {
            batch,
            node: number,
            queue,
            command,
        });
        number += 1;
    }
}

impl Device for Machine {
    ghost use Rattle.vk_machine.specs.Machine.{journal_of, bytes_in};

    ghost journal = { journal_of };

    ghost bytes_of = { bytes_in };

    ghost faults = { λ m. 0 };

    fn create(&mut self, kind: Kind) -> Result<Handle, Stop>
        requires { IsKind kind }
        ensures logged { IfOk result (λ id. ChangesOnly journal_of bytes_in self.old self.new id.0 (Created id kind)) }
        ensures number { IfOk result (λ id. id.0 ≡ creates self.old.journal) }
        ensures fresh { IfOk result (λ id. creates_of id.0 self.old.journal ≡ 0) }
        ensures size { IfOk result (λ id. length (bytes_in self.new id.0) ≡ size_of kind) }
        ensures err { OnErr result (ChangesNothing journal_of bytes_in self.old self.new) }
        ensures cause { HasCause 0 0 result }
        ensures choice { self.new.choice ≡ self.old.choice }
    {
        self.journal
            .reserve(self.objects.count() + self.waiting.len() + 2)?;
        let number = self.made;
        self.objects.insert(HandleId(number), kind)?;
        self.journal.push_reserved(Logged::Created {
            id: HandleId(number),
            kind,
        });
        self.made = number + 1;
        Ok(Handle::issue(HandleId(number)))
    }

    fn write_host(&mut self, id: HandleId, at: u64, bytes: &[u8]) -> Result<(), Stop>
        requires some { 0 < length bytes.now }
        requires inside { ReachesTo (kind_of self.old.journal id.0) (at + length bytes.now) }
        requires settled { IsSettled (log_of self.old.journal) (order_of self.old.journal) id.0 }
        ensures logged { OnOk result (ChangesOnly journal_of bytes_in self.old self.new id.0 (Wrote id at bytes.now)) }
        ensures short { OnOk result (at + length bytes.now < 2 ^ 64) }
        ensures written { OnOk result (bytes_in self.new id.0 ≡ overwritten (bytes_in self.old id.0) at bytes.now) }
        ensures err { OnErr result (ChangesNothing journal_of bytes_in self.old self.new) }
        ensures cause { HasCause 0 0 result }
        ensures choice { self.new.choice ≡ self.old.choice }
    {
        let copy = Bytes::copy_of(self.alloc, bytes)?;
        self.journal
            .reserve(self.objects.count() + self.waiting.len() + 1)?;
        let mut held = self.objects.take(id);
        held.overwrite(at as usize, bytes);
        self.objects.put_back(id, held);
        self.journal.push_reserved(Logged::Wrote {
            id,
            at,
            bytes: copy,
        });
        Ok(())
    }

    fn submit(&mut self, batch: &Batch) -> Result<(), Stop>
        requires queue { IsOfOneQueue batch.now }
        requires short { length batch.now.nodes < 4294967296 }
        requires fits { All (NodeFits (kind_of self.old.journal)) batch.now.nodes }
        requires layouts { FindItsLayouts (log_of self.old.journal) batch.now }
        ensures logged { OnOk result (Adds journal_of bytes_in self.old self.new (Submitted batch.now)) }
        ensures err { OnErr result (ChangesNothing journal_of bytes_in self.old self.new) }
        ensures cause { HasCause 0 0 result }
        ensures choice { self.new.choice ≡ self.old.choice }
    {
        let copy = batch.copy(self.alloc)?;
        let nodes = batch.nodes.copy(self.alloc)?.into_vec();
        self.journal.reserve(self.objects.count() + self.waiting.len() + nodes.len() + 1)?;
        self.waiting.reserve(nodes.len())?;
        push_all(&mut self.waiting, self.batches, batch.queue, nodes);
        self.journal
            .push_reserved(Logged::Submitted { batch: copy });
        self.batches += 1;
        Ok(())
    }

    /// Executes the ready node that the choice names.
    fn turn(&mut self) -> Result<Turned, Stop>
        ensures turned { HasTurned journal_of bytes_in self.old self.new result }
        ensures chosen { TurnsByChoice self.old self.new result }
        ensures cause { HasCause 0 0 result }
    {
        let ready = self.waiting.ready();
        if ready == 0 {
            return Ok(Turned::Idle);
        }
        let number = self.choice.pick(ready);
        Ok(self.run(number))
    }

    fn read_host(&mut self, id: HandleId, at: u64, out: &mut [u8]) -> Result<(), Stop>
        requires some { 0 < length out.old }
        requires inside { ReachesTo (kind_of self.old.journal id.0) (at + length out.old) }
        requires settled { IsSettled (log_of self.old.journal) (order_of self.old.journal) id.0 }
        requires visible { IsVisible (log_of self.old.journal) id.0 at (at + length out.old) }
        ensures logged { OnOk result (ChangesOnly journal_of bytes_in self.old self.new id.0 (Fetched id at out.new)) }
        ensures same { OnOk result (bytes_in self.new id.0 ≡ bytes_in self.old id.0) }
        ensures read { OnOk result (out.new ≡ part (bytes_in self.old id.0) at (length out.old)) }
        ensures unread { OnErr result (out.new ≡ out.old) }
        ensures err { OnErr result (ChangesNothing journal_of bytes_in self.old self.new) }
        ensures cause { HasCause 0 0 result }
        ensures choice { self.new.choice ≡ self.old.choice }
    {
        let copy = match self.objects.bytes(id) {
            Some(bytes) => {
                let rest = &bytes[at as usize..];
                Bytes::copy_of(self.alloc, &rest[..out.len()])?
            }
            None => unreachable!(),
        };
        self.journal
            .reserve(self.objects.count() + self.waiting.len() + 1)?;
        out.copy_from_slice(copy.as_slice());
        self.journal.push_reserved(Logged::Fetched {
            id,
            at,
            bytes: copy,
        });
        Ok(())
    }

    fn destroy(&mut self, handle: Handle) -> Result<(), Stop>
        requires live { IsSome (kind_of self.old.journal handle.0) }
        requires settled { IsSettled (log_of self.old.journal) (order_of self.old.journal) handle.0 }
        ensures logged { OnOk result (ChangesOnly journal_of bytes_in self.old self.new handle.0 (Destroyed handle)) }
        ensures err { OnErr result (ChangesNothing journal_of bytes_in self.old self.new) }
        ensures no_memory { result ≢ Err Memory }
        ensures cause { HasCause 0 0 result }
        ensures choice { self.new.choice ≡ self.old.choice }
    {
        let id = handle.spend();
        self.objects.remove(id);
        self.journal.push_reserved(Logged::Destroyed { id });
        Ok(())
    }

    fn abandon(&mut self, handle: Handle)
        ensures same { ChangesNothing journal_of bytes_in self.old self.new }
        ensures choice { self.new.choice ≡ self.old.choice }
    {
        let _ = handle.spend();
    }

    fn journal(&self) -> &[Logged] {
        &self.journal
    }
}
