// A share group's way to its back.
ghost use Rattle.std.specs.Prelude.{◌≡◌, ℕ, ◌+◌, ◌<◌, ◌≤◌, true, List, Option, IfOk, IfErr, OnOk, OnErr, length, false, is_err};
ghost use Rattle.cells.specs.Contents.{cells, Agrees};
ghost use Rattle.vk_model.specs.Fitting.{IsKind};
ghost use Rattle.vk_device.specs.Faults.{HasCause};
ghost use Rattle.back_core.specs.declared.back_event.BackEvent.{BackEvent};
ghost use Rattle.back_core.specs.Own.{log_of, IsReadable};
ghost use Rattle.back_core.specs.Link.{Link, contents_of, created, wrote, enqueued, fetched, gave, abandoned};
ghost use Rattle.back_core.specs.Needs.{IsFresh, HostMay, MayEnqueue, MayGive, HasBatch};
ghost use Rattle.back_core.specs.Answers.{Learns, Completes, Waits};
ghost use Rattle.back_core.specs.Frame.{ActsAtBack, NoBatch};

use garbage::Garbage;
use vk_types::{Batch, Handle, HandleId, Kind, QueueSerial, SerialIndex, Stop};

/// A share group's way to its back. After `Lost` or `Memory`, and where a batch is handed back, the group sees what it
/// saw before the call, unless the call says otherwise.
pub trait BackLink {
    /// What the group sees of the back.
    ghost state: { Self → Link };

    /// How many faults there were.
    ghost faults: { Self → ℕ };

    /// What happened at the back, where that is told. A call adds events in which its group has a part, and no others.
    ghost told: { Self → Option (List BackEvent) };

    /// Makes an object, which the group then holds. It takes the room that `give` needs.
    fn create(&mut self, kind: Kind) -> Result<Handle, Stop>
        requires { IsKind kind }
        ensures fresh { IfOk result (λ id. IsFresh (state self.old) id.0) }
        ensures ok { IfOk result (λ id. state self.new ≡ created (state self.old) id.0 kind) }
        ensures err { OnErr result (state self.new ≡ state self.old) }
        ensures cause { HasCause (faults self.old) (faults self.new) result }
        ensures at_back { ActsAtBack state told self.old self.new 0 false (is_err result) NoBatch };

    /// Writes bytes into a buffer, from the place `at` on.
    fn write_host(&mut self, id: HandleId, at: u64, bytes: &[u8]) -> Result<(), Stop>
        requires { HostMay (state self.old) id.0 at (length bytes.now) }
        ensures ok { OnOk result (state self.new ≡ wrote (state self.old) id.0 at bytes.now) }
        ensures err { OnErr result (state self.new ≡ state self.old) }
        ensures cause { HasCause (faults self.old) (faults self.new) result }
        ensures at_back { ActsAtBack state told self.old self.new (length bytes.now) false (is_err result) NoBatch };

    /// Hands a batch to the back, or has it handed back for want of memory. Since the back keeps its history, the numbers
    /// of batches do not come to an end.
    fn enqueue(&mut self, batch: Batch) -> Result<(), Batch>
        requires { MayEnqueue (state self.old) batch }
        ensures ok { OnOk result (state self.new ≡ enqueued (state self.old) batch) }
        ensures room { OnOk result (batch.number < 18446744073709551615) }
        ensures err { OnErr result (state self.new ≡ state self.old) }
        ensures handed_back { IfErr result (λ back. back ≡ batch) }
        ensures faults { faults self.old ≤ faults self.new }
        ensures at_back { ActsAtBack state told self.old self.new 0 false false (λ b. b ≡ batch) };

    /// A number up to which the batches of an index are retired.
    fn completed(&mut self, index: SerialIndex) -> u64
        ensures answer { Completes (state self.old) (state self.new) index result }
        ensures faults { faults self.old ≤ faults self.new }
        ensures at_back { ActsAtBack state told self.old self.new 0 false false NoBatch };

    /// Waits until a batch of the group is retired. What was learned by then is known also after `Lost` or `Memory`.
    fn wait_for(&mut self, serial: QueueSerial) -> Result<(), Stop>
        requires { HasBatch (state self.old) serial.index serial.number }
        ensures ok { OnOk result (Waits (state self.old) (state self.new) serial.index serial.number) }
        ensures err { OnErr result (Learns (state self.old) (state self.new)) }
        ensures cause { HasCause (faults self.old) (faults self.new) result }
        ensures at_back { ActsAtBack state told self.old self.new 0 true (is_err result) NoBatch };

    /// Reads bytes of a buffer, from the place `at` on.
    fn read_host(&mut self, id: HandleId, at: u64, out: &mut [u8]) -> Result<(), Stop>
        requires may { HostMay (state self.old) id.0 at (length out.old) }
        requires readable { IsReadable (log_of (state self.old).mine) id.0 at (length out.old) }
        ensures ok { OnOk result (state self.new ≡ fetched (state self.old) id.0 at out.new) }
        ensures unread { OnErr result (out.new ≡ out.old) }
        ensures bytes { OnOk result (Agrees out.new (cells (length out.old) (λ i. contents_of (state self.old) id.0 (at + i)))) }
        ensures err { OnErr result (state self.new ≡ state self.old) }
        ensures cause { HasCause (faults self.old) (faults self.new) result }
        ensures at_back { ActsAtBack state told self.old self.new 0 false (is_err result) NoBatch };

    /// Gives an object away, to be destroyed once its uses are covered. This takes no memory.
    fn give(&mut self, item: Garbage)
        requires { MayGive (state self.old) item.handle.0 item.uses }
        ensures state { state self.new ≡ gave (state self.old) item.handle.0 item.uses }
        ensures faults { faults self.old ≤ faults self.new }
        ensures at_back { ActsAtBack state told self.old self.new 0 false false NoBatch };

    /// Lets an object go in a run that ended by `Lost` or `Memory`. This takes no memory.
    fn abandon(&mut self, handle: Handle)
        requires { (state self.old).held handle.0 ≡ true }
        ensures state { state self.new ≡ abandoned (state self.old) handle.0 }
        ensures faults { faults self.old ≤ faults self.new }
        ensures at_back { ActsAtBack state told self.old self.new 0 false false NoBatch };
}
