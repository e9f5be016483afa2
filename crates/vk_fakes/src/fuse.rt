// A device that is lost after so many calls.
ghost use Rattle.std.specs.Prelude.{◌≡◌, ◌≢◌, ◌+◌, ◌-◌, ◌<◌, ◌≤◌, ◌^◌, min, true, false, length, All, IfOk, OnOk, OnErr, IsSome, Err};
ghost use Rattle.cells.specs.Contents.{part, overwritten};
ghost use Rattle.faults.specs.Faults.{Rose};
ghost use Rattle.vk_types.specs.declared.stops.Stop.TheVariants.{Memory};
ghost use Rattle.vk_model.specs.Fitting.{IsKind, NodeFits, size_of};
ghost use Rattle.vk_model.specs.Meaning.{IsSettled};
ghost use Rattle.vk_device.specs.declared.logged.Logged.TheVariants.{Created, Wrote, Submitted, Fetched, Destroyed};
ghost use Rattle.vk_device.specs.Faults.{HasCause};
ghost use Rattle.vk_device.specs.Journal.{kind_of, creates, creates_of, ReachesTo};
ghost use Rattle.vk_device.specs.Order.{log_of, order_of, IsOfOneQueue, FindItsLayouts, IsVisible};
ghost use Rattle.vk_device.specs.Effects.{ChangesNothing, ChangesOnly, Adds, HasTurned};
ghost use Rattle.vk_fakes.specs.Fuses.{GoesByFuse};

use faults::FaultCount;
use vk_device::{Device, Logged, Turned};
use vk_types::{Batch, Handle, HandleId, Kind, Stop};

/// Passes so many calls on to the device inside. From then on each call that can answers `Lost`, and is counted.
#[derive(Drop)]
pub struct FuseDevice<D> {
    inner: D,
    left: u64,
    lost: FaultCount,
}

impl<D: Device> FuseDevice<D> {
    pub fn new(inner: D, passes: u64) -> FuseDevice<D>
        ensures inner { result.inner ≡ inner }
        ensures passes { result.left ≡ passes }
        ensures lost { result.lost ≡ 0 }
    {
        FuseDevice {
            inner,
            left: passes,
            lost: FaultCount::new(),
        }
    }

    // Whether a call is not passed on.
    fn blows(&mut self) -> bool
        ensures inner { self.new.inner ≡ self.old.inner }
        ensures blown { result ≡ true → Rose self.old.lost self.new.lost }
        ensures later { self.old.lost ≤ self.new.lost }
        ensures passed { result ≡ false → self.new.lost ≡ self.old.lost }
        ensures uses { result ≡ false → self.old.left ≡ self.new.left + 1 }
        ensures counted { result ≡ true → self.new.lost ≡ min (self.old.lost + 1) (2 ^ 64 - 1) }
        ensures none { result ≡ true → (self.old.left ≡ 0) × (self.new.left ≡ 0) }
    {
        if self.left == 0 {
            self.lost.rise();
            true
        } else {
            self.left -= 1;
            false
        }
    }
}

impl<D: Device> Device for FuseDevice<D> {
    ghost journal = { λ f. D.journal f.inner };

    ghost bytes_of = { λ f id. D.bytes_of f.inner id };

    ghost faults = { λ f. f.lost + D.faults f.inner };

    fn create(&mut self, kind: Kind) -> Result<Handle, Stop>
        requires { IsKind kind }
        ensures logged { IfOk result (λ id. ChangesOnly (λ f. D.journal f.inner) (λ f id. D.bytes_of f.inner id) self.old self.new id.0 (Created id kind)) }
        ensures number { IfOk result (λ id. id.0 ≡ creates (D.journal self.old.inner)) }
        ensures fresh { IfOk result (λ id. creates_of id.0 (D.journal self.old.inner) ≡ 0) }
        ensures size { IfOk result (λ id. length (D.bytes_of self.new.inner id.0) ≡ size_of kind) }
        ensures err { OnErr result (ChangesNothing (λ f. D.journal f.inner) (λ f id. D.bytes_of f.inner id) self.old self.new) }
        ensures cause { HasCause (self.old.lost + D.faults self.old.inner) (self.new.lost + D.faults self.new.inner) result }
        ensures fuse { GoesByFuse D.faults self.old self.new result }
    {
        if self.blows() {
            return Err(Stop::Lost);
        }
        self.inner.create(kind)
    }

    fn write_host(&mut self, id: HandleId, at: u64, bytes: &[u8]) -> Result<(), Stop>
        requires some { 0 < length bytes.now }
        requires inside { ReachesTo (kind_of (D.journal self.old.inner) id.0) (at + length bytes.now) }
        requires settled { IsSettled (log_of (D.journal self.old.inner)) (order_of (D.journal self.old.inner)) id.0 }
        ensures logged { OnOk result (ChangesOnly (λ f. D.journal f.inner) (λ f id. D.bytes_of f.inner id) self.old self.new id.0 (Wrote id at bytes.now)) }
        ensures short { OnOk result (at + length bytes.now < 2 ^ 64) }
        ensures written { OnOk result (D.bytes_of self.new.inner id.0 ≡ overwritten (D.bytes_of self.old.inner id.0) at bytes.now) }
        ensures err { OnErr result (ChangesNothing (λ f. D.journal f.inner) (λ f id. D.bytes_of f.inner id) self.old self.new) }
        ensures cause { HasCause (self.old.lost + D.faults self.old.inner) (self.new.lost + D.faults self.new.inner) result }
        ensures fuse { GoesByFuse D.faults self.old self.new result }
    {
        if self.blows() {
            return Err(Stop::Lost);
        }
        self.inner.write_host(id, at, bytes)
    }

    fn submit(&mut self, batch: &Batch) -> Result<(), Stop>
        requires queue { IsOfOneQueue batch.now }
        requires short { length batch.now.nodes < 4294967296 }
        requires fits { All (NodeFits (kind_of (D.journal self.old.inner))) batch.now.nodes }
        requires layouts { FindItsLayouts (log_of (D.journal self.old.inner)) batch.now }
        ensures logged { OnOk result (Adds (λ f. D.journal f.inner) (λ f id. D.bytes_of f.inner id) self.old self.new (Submitted batch.now)) }
        ensures err { OnErr result (ChangesNothing (λ f. D.journal f.inner) (λ f id. D.bytes_of f.inner id) self.old self.new) }
        ensures cause { HasCause (self.old.lost + D.faults self.old.inner) (self.new.lost + D.faults self.new.inner) result }
        ensures fuse { GoesByFuse D.faults self.old self.new result }
    {
        if self.blows() {
            return Err(Stop::Lost);
        }
        self.inner.submit(batch)
    }

    fn turn(&mut self) -> Result<Turned, Stop>
        ensures turned { HasTurned (λ f. D.journal f.inner) (λ f id. D.bytes_of f.inner id) self.old self.new result }
        ensures cause { HasCause (self.old.lost + D.faults self.old.inner) (self.new.lost + D.faults self.new.inner) result }
        ensures fuse { GoesByFuse D.faults self.old self.new result }
    {
        if self.blows() {
            return Err(Stop::Lost);
        }
        self.inner.turn()
    }

    fn read_host(&mut self, id: HandleId, at: u64, out: &mut [u8]) -> Result<(), Stop>
        requires some { 0 < length out.old }
        requires inside { ReachesTo (kind_of (D.journal self.old.inner) id.0) (at + length out.old) }
        requires settled { IsSettled (log_of (D.journal self.old.inner)) (order_of (D.journal self.old.inner)) id.0 }
        requires visible { IsVisible (log_of (D.journal self.old.inner)) id.0 at (at + length out.old) }
        ensures logged { OnOk result (ChangesOnly (λ f. D.journal f.inner) (λ f id. D.bytes_of f.inner id) self.old self.new id.0 (Fetched id at out.new)) }
        ensures same { OnOk result (D.bytes_of self.new.inner id.0 ≡ D.bytes_of self.old.inner id.0) }
        ensures read { OnOk result (out.new ≡ part (D.bytes_of self.old.inner id.0) at (length out.old)) }
        ensures unread { OnErr result (out.new ≡ out.old) }
        ensures err { OnErr result (ChangesNothing (λ f. D.journal f.inner) (λ f id. D.bytes_of f.inner id) self.old self.new) }
        ensures cause { HasCause (self.old.lost + D.faults self.old.inner) (self.new.lost + D.faults self.new.inner) result }
        ensures fuse { GoesByFuse D.faults self.old self.new result }
    {
        if self.blows() {
            return Err(Stop::Lost);
        }
        self.inner.read_host(id, at, out)
    }

    fn destroy(&mut self, handle: Handle) -> Result<(), Stop>
        requires live { IsSome (kind_of (D.journal self.old.inner) handle.0) }
        requires settled { IsSettled (log_of (D.journal self.old.inner)) (order_of (D.journal self.old.inner)) handle.0 }
        ensures logged { OnOk result (ChangesOnly (λ f. D.journal f.inner) (λ f id. D.bytes_of f.inner id) self.old self.new handle.0 (Destroyed handle)) }
        ensures err { OnErr result (ChangesNothing (λ f. D.journal f.inner) (λ f id. D.bytes_of f.inner id) self.old self.new) }
        ensures no_memory { result ≢ Err Memory }
        ensures cause { HasCause (self.old.lost + D.faults self.old.inner) (self.new.lost + D.faults self.new.inner) result }
        ensures fuse { GoesByFuse D.faults self.old self.new result }
    {
        if self.blows() {
            let _ = handle.spend();
            return Err(Stop::Lost);
        }
        self.inner.destroy(handle)
    }

    fn abandon(&mut self, handle: Handle)
        ensures same { ChangesNothing (λ f. D.journal f.inner) (λ f id. D.bytes_of f.inner id) self.old self.new }
        ensures faults { D.faults self.new.inner ≡ D.faults self.old.inner }
        ensures left { self.new.left ≡ self.old.left }
        ensures lost { self.new.lost ≡ self.old.lost }
    {
        self.inner.abandon(handle);
    }

    fn journal(&self) -> &[Logged] {
        self.inner.journal()
    }
}
