// The calls of a share group at a shared back.
ghost use Rattle.std.specs.Prelude.{◌≡◌, ◌+◌, ◌/◌, ◌<◌, [], ◌∷◌, ◌++◌, true, length, IfOk, IfErr, OnOk, OnErr};
ghost use Rattle.cells.specs.Contents.{cells, Agrees};
ghost use Rattle.vk_model.specs.Fitting.{IsKind};
ghost use Rattle.back_core.specs.declared.back_event.BackEvent.TheVariants.{Created, Wrote, Enqueued, Fetched, Gave, Abandoned};
ghost use Rattle.back_core.specs.declared.ending.Ending.TheVariants.{Stopped};
ghost use Rattle.back_core.specs.Own.{log_of, IsReadable};
ghost use Rattle.back_core.specs.Link.{contents_of};
ghost use Rattle.back_core.specs.Needs.{IsFresh, HostMay, MayEnqueue, MayGive};
ghost use Rattle.back_core.specs.History.{link_of};
ghost use Rattle.back_core.specs.Back.{ending_of, stopped_by};

use crate::Shared;
use back_core::{Ending, cleanups_stay_whole};
use garbage::Garbage;
use vk_device::Device;
use vk_types::{Batch, Handle, HandleId, Kind, Stop};

impl<D: Device> Shared<D> {
    /// Makes an object, which the group then holds.
    pub(crate) fn create(&mut self, group: u8, kind: Kind) -> Result<Handle, Stop>
        requires low { group < 8 }
        requires kind { IsKind kind }
        ensures fresh { IfOk result (λ id. IsFresh (link_of self.old.history group) id.0) }
        ensures ok { IfOk result (λ id. self.new.history ≡ self.old.history ++ Created group id kind ∷ []) }
        ensures err { IfErr result (λ stop. self.new.history ≡ stopped_by self.old.history stop) }
        ensures first { IfErr result (λ stop. ending_of self.new.history ≡ Stopped stop) }
        ensures opened { self.new.opened ≡ self.old.opened }
    {
        cleanups_stay_whole();
        match self.back.ending() {
            Ending::Stopped(stop) => Err(stop),
            Ending::Running | Ending::Closing => self.back.create(group, kind),
        }
    }

    /// Writes bytes into a buffer, from the place `at` on.
    pub(crate) fn write_host(
        &mut self,
        group: u8,
        id: HandleId,
        at: u64,
        bytes: &[u8],
    ) -> Result<(), Stop>
        requires low { group < 8 }
        requires may { HostMay (link_of self.old.history group) id.0 at (length bytes.now) }
        ensures ok { OnOk result (self.new.history ≡ self.old.history ++ Wrote group id at bytes.now ∷ []) }
        ensures err { IfErr result (λ stop. self.new.history ≡ stopped_by self.old.history stop) }
        ensures first { IfErr result (λ stop. ending_of self.new.history ≡ Stopped stop) }
        ensures opened { self.new.opened ≡ self.old.opened }
    {
        cleanups_stay_whole();
        match self.back.ending() {
            Ending::Stopped(stop) => Err(stop),
            Ending::Running | Ending::Closing => self.back.write_host(group, id, at, bytes),
        }
    }

    /// Takes a batch of the group of its index, or hands it back for want of memory, also where the back was stopped.
    pub(crate) fn enqueue(&mut self, batch: Batch) -> Result<(), Batch>
        requires low { batch.index / 8 < 8 }
        requires may { MayEnqueue (link_of self.old.history (batch.index / 8)) batch }
        ensures ok { OnOk result (self.new.history ≡ self.old.history ++ Enqueued batch ∷ []) }
        ensures room { OnOk result (batch.number < 18446744073709551615) }
        ensures err { OnErr result (self.new.history ≡ self.old.history) }
        ensures handed_back { IfErr result (λ back. back ≡ batch) }
        ensures opened { self.new.opened ≡ self.old.opened }
    {
        cleanups_stay_whole();
        self.back.enqueue(batch)
    }

    /// Reads bytes of a buffer, from the place `at` on.
    pub(crate) fn read_host(
        &mut self,
        group: u8,
        id: HandleId,
        at: u64,
        out: &mut [u8],
    ) -> Result<(), Stop>
        requires low { group < 8 }
        requires may { HostMay (link_of self.old.history group) id.0 at (length out.old) }
        requires readable { IsReadable (log_of (link_of self.old.history group).mine) id.0 at (length out.old) }
        ensures ok { OnOk result (self.new.history ≡ self.old.history ++ Fetched group id at out.new ∷ []) }
        ensures unread { OnErr result (out.new ≡ out.old) }
        ensures bytes { OnOk result
            (Agrees out.new (cells (length out.old) (λ i. contents_of (link_of self.old.history group) id.0 (at + i)))) }
        ensures err { IfErr result (λ stop. self.new.history ≡ stopped_by self.old.history stop) }
        ensures first { IfErr result (λ stop. ending_of self.new.history ≡ Stopped stop) }
        ensures opened { self.new.opened ≡ self.old.opened }
    {
        cleanups_stay_whole();
        match self.back.ending() {
            Ending::Stopped(stop) => Err(stop),
            Ending::Running | Ending::Closing => self.back.read_host(group, id, at, out),
        }
    }

    /// Takes an object that is to be destroyed once its uses are covered, also where the back was stopped.
    pub(crate) fn give(&mut self, group: u8, item: Garbage)
        requires low { group < 8 }
        requires may { MayGive (link_of self.old.history group) item.handle.0 item.uses }
        ensures history { self.new.history ≡ self.old.history ++ Gave group item.handle item.uses ∷ [] }
        ensures opened { self.new.opened ≡ self.old.opened }
    {
        cleanups_stay_whole();
        self.back.give(group, item);
    }

    /// Lets an object go, as after a stop. This takes no memory.
    pub(crate) fn abandon(&mut self, group: u8, handle: Handle)
        requires low { group < 8 }
        requires held { (link_of self.old.history group).held handle.0 ≡ true }
        ensures history { self.new.history ≡ self.old.history ++ Abandoned group handle ∷ [] }
        ensures opened { self.new.opened ≡ self.old.opened }
    {
        cleanups_stay_whole();
        self.back.abandon(group, handle);
    }
}
