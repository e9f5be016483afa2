// A device by its journal and the bytes of its objects.
ghost use Rattle.std.specs.Prelude.{◌≡◌, ◌≢◌, ◌+◌, ◌<◌, ◌^◌, ℕ, List, All, ◌++◌, [], ◌∷◌, length, IfOk, OnOk, OnErr, IsSome, Err};
ghost use Rattle.cells.specs.Contents.{part, overwritten};
ghost use Rattle.vk_types.specs.declared.stops.Stop.TheVariants.{Memory};
ghost use Rattle.vk_model.specs.Fitting.{IsKind, NodeFits, size_of};
ghost use Rattle.vk_model.specs.Meaning.{IsSettled};
ghost use Rattle.vk_device.specs.declared.logged.Logged.{Logged};
ghost use Rattle.vk_device.specs.declared.logged.Logged.TheVariants.{Created, Wrote, Submitted, Fetched, Destroyed};
ghost use Rattle.vk_device.specs.Faults.{HasCause};
ghost use Rattle.vk_device.specs.Journal.{kind_of, creates, creates_of, ReachesTo};
ghost use Rattle.vk_device.specs.Order.{log_of, order_of, IsOfOneQueue, FindItsLayouts, IsVisible};
ghost use Rattle.vk_device.specs.Effects.{ChangesNothing, ChangesOnly, Adds, HasTurned};

use crate::{Logged, Turned};
use vk_types::{Batch, Handle, HandleId, Kind, Stop};

/// What executes commands on objects. After `Lost` or `Memory` all but the count of faults is as before the call.
/// An object is settled where each accepted node that touches it was executed.
pub trait Device {
    /// What was done so far, in order.
    ghost journal: { Self → List Logged };

    /// The bytes of the live object of this number.
    ghost bytes_of: { Self → ℕ → List ℕ };

    /// How often the device was lost.
    ghost faults: { Self → ℕ };

    /// Makes an object, whose bytes may be any. An image has one of the twelve formats, and 1 to 2048 columns and rows.
    fn create(&mut self, kind: Kind) -> Result<Handle, Stop>
        requires { IsKind kind }
        ensures logged { IfOk result (λ id. ChangesOnly journal bytes_of self.old self.new id.0 (Created id kind)) }
        ensures number { IfOk result (λ id. id.0 ≡ creates (journal self.old)) }
        ensures fresh { IfOk result (λ id. creates_of id.0 (journal self.old) ≡ 0) }
        ensures size { IfOk result (λ id. length (bytes_of self.new id.0) ≡ size_of kind) }
        ensures err { OnErr result (ChangesNothing journal bytes_of self.old self.new) }
        ensures cause { HasCause (faults self.old) (faults self.new) result };

    /// Writes into a live and settled buffer.
    fn write_host(&mut self, id: HandleId, at: u64, bytes: &[u8]) -> Result<(), Stop>
        requires some { 0 < length bytes.now }
        requires inside { ReachesTo (kind_of (journal self.old) id.0) (at + length bytes.now) }
        requires settled { IsSettled (log_of (journal self.old)) (order_of (journal self.old)) id.0 }
        ensures logged { OnOk result (ChangesOnly journal bytes_of self.old self.new id.0 (Wrote id at bytes.now)) }
        ensures short { OnOk result (at + length bytes.now < 2 ^ 64) }
        ensures written { OnOk result (bytes_of self.new id.0 ≡ overwritten (bytes_of self.old id.0) at bytes.now) }
        ensures err { OnErr result (ChangesNothing journal bytes_of self.old self.new) }
        ensures cause { HasCause (faults self.old) (faults self.new) result };

    /// Accepts a batch. Each node fits the live objects that it touches, and finds the layouts that it names; nothing is
    /// asked of hazards. It takes the room for the turns that execute the nodes.
    fn submit(&mut self, batch: &Batch) -> Result<(), Stop>
        requires queue { IsOfOneQueue batch.now }
        requires short { length batch.now.nodes < 4294967296 }
        requires fits { All (NodeFits (kind_of (journal self.old))) batch.now.nodes }
        requires layouts { FindItsLayouts (log_of (journal self.old)) batch.now }
        ensures logged { OnOk result (Adds journal bytes_of self.old self.new (Submitted batch.now)) }
        ensures err { OnErr result (ChangesNothing journal bytes_of self.old self.new) }
        ensures cause { HasCause (faults self.old) (faults self.new) result };

    /// Executes one accepted node that is ready, since all nodes that reach it by the recorded dependencies were
    /// executed. Which one is the device's own choice.
    fn turn(&mut self) -> Result<Turned, Stop>
        ensures turned { HasTurned journal bytes_of self.old self.new result }
        ensures cause { HasCause (faults self.old) (faults self.new) result };

    /// Reads from a live and settled buffer. What nodes wrote there a barrier made known to the host.
    fn read_host(&mut self, id: HandleId, at: u64, out: &mut [u8]) -> Result<(), Stop>
        requires some { 0 < length out.old }
        requires inside { ReachesTo (kind_of (journal self.old) id.0) (at + length out.old) }
        requires settled { IsSettled (log_of (journal self.old)) (order_of (journal self.old)) id.0 }
        requires visible { IsVisible (log_of (journal self.old)) id.0 at (at + length out.old) }
        ensures logged { OnOk result (ChangesOnly journal bytes_of self.old self.new id.0 (Fetched id at out.new)) }
        ensures same { OnOk result (bytes_of self.new id.0 ≡ bytes_of self.old id.0) }
        ensures read { OnOk result (out.new ≡ part (bytes_of self.old id.0) at (length out.old)) }
        ensures unread { OnErr result (out.new ≡ out.old) }
        ensures err { OnErr result (ChangesNothing journal bytes_of self.old self.new) }
        ensures cause { HasCause (faults self.old) (faults self.new) result };

    /// Ends a live and settled object. Also on `Lost` the handle is spent.
    fn destroy(&mut self, handle: Handle) -> Result<(), Stop>
        requires live { IsSome (kind_of (journal self.old) handle.0) }
        requires settled { IsSettled (log_of (journal self.old)) (order_of (journal self.old)) handle.0 }
        ensures logged { OnOk result (ChangesOnly journal bytes_of self.old self.new handle.0 (Destroyed handle)) }
        ensures err { OnErr result (ChangesNothing journal bytes_of self.old self.new) }
        ensures no_memory { result ≢ Err Memory }
        ensures cause { HasCause (faults self.old) (faults self.new) result };

    /// Spends a handle, in a run that ended by a stop.
    fn abandon(&mut self, handle: Handle)
        ensures same { ChangesNothing journal bytes_of self.old self.new }
        ensures faults { faults self.new ≡ faults self.old };

    fn journal(&self) -> &[Logged]
        ensures { result.now ≡ journal self.now };
}
