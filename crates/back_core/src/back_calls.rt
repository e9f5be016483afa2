// The calls of a share group. Each is what the group's link promises, and one event more.
ghost use Rattle.std.specs.Prelude.{◌≡◌, ◌+◌, ◌/◌, ◌<◌, ◌≤◌, [], ◌∷◌, ◌++◌, true, length, IfOk, IfErr, OnOk, OnErr};
ghost use Rattle.cells.specs.Contents.{cells, Agrees};
ghost use Rattle.vk_model.specs.Fitting.{IsKind};
ghost use Rattle.vk_device.specs.Faults.{HasCause};
ghost use Rattle.vk_device.specs.Journal.{creates};
ghost use Rattle.back_core.specs.declared.back_event.BackEvent.TheVariants.{Created, Wrote, Enqueued, Fetched, Gave, Abandoned};
ghost use Rattle.back_core.specs.Own.{log_of, IsReadable};
ghost use Rattle.back_core.specs.Link.{contents_of};
ghost use Rattle.back_core.specs.Needs.{IsFresh, HostMay, MayEnqueue, MayGive};
ghost use Rattle.back_core.specs.History.{link_of};
ghost use Rattle.back_core.specs.Run.{journal_of};
ghost use Rattle.back_core.specs.Back.{stopped_by};

use crate::run_laws::{runs_are_sound, runs_go_on, runs_meet_the_device};
use crate::stored::Stored;
use crate::{Back, BackEvent};
use cells::Bytes;
use garbage::Garbage;
use std::snapshot::Snapshot;
use vk_device::{Device, devices_stay_in_order};
use vk_types::{Batch, Handle, HandleId, Kind, Stop};

impl<D: Device> Back<D> {
    /// Makes an object, which the group then holds. It takes the room for the object's give or abandon and its cleanup.
    pub fn create(&mut self, group: u8, kind: Kind) -> Result<Handle, Stop>
        requires { IsKind kind }
        ensures fresh { IfOk result (λ id. IsFresh (link_of self.old.history group) id.0) }
        ensures ok { IfOk result (λ id. self.new.history ≡ self.old.history ++ Created group id kind ∷ []) }
        ensures err { IfErr result (λ stop. self.new.history ≡ stopped_by self.old.history stop) }
        ensures cause { HasCause (D.faults self.old.device) (D.faults self.new.device) result }
    {
        let answer = self.try_create(group, kind);
        self.ended(answer)
    }

    fn try_create(&mut self, group: u8, kind: Kind) -> Result<Handle, Stop>
        requires { IsKind kind }
        ensures fresh { IfOk result (λ id. IsFresh (link_of self.old.history group) id.0) }
        ensures ok { IfOk result (λ id. self.new.history ≡ self.old.history ++ Created group id kind ∷ []) }
        ensures err { OnErr result (self.new.history ≡ self.old.history) }
        ensures cause { HasCause (D.faults self.old.device) (D.faults self.new.device) result }
    {
        runs_go_on();
        runs_meet_the_device();
        devices_stay_in_order::<D>();
        self.history.reserve(self.promised + 3)?;
        self.garbage.reserve_one()?;
        let handle = self.device.create(kind)?;
        self.history.push_reserved(Stored::Event(BackEvent::Created {
            group,
            id: handle.id(),
            kind,
        }));
        self.promised += 2;
        Ok(handle)
    }

    /// Writes bytes into a buffer, from the place `at` on.
    pub fn write_host(&mut self, group: u8, id: HandleId, at: u64, bytes: &[u8]) -> Result<(), Stop>
        requires { HostMay (link_of self.old.history group) id.0 at (length bytes.now) }
        ensures ok { OnOk result (self.new.history ≡ self.old.history ++ Wrote group id at bytes.now ∷ []) }
        ensures err { IfErr result (λ stop. self.new.history ≡ stopped_by self.old.history stop) }
        ensures cause { HasCause (D.faults self.old.device) (D.faults self.new.device) result }
    {
        let answer = self.try_write(group, id, at, bytes);
        self.ended(answer)
    }

    fn try_write(&mut self, group: u8, id: HandleId, at: u64, bytes: &[u8]) -> Result<(), Stop>
        requires { HostMay (link_of self.old.history group) id.0 at (length bytes.now) }
        ensures ok { OnOk result (self.new.history ≡ self.old.history ++ Wrote group id at bytes.now ∷ []) }
        ensures err { OnErr result (self.new.history ≡ self.old.history) }
        ensures cause { HasCause (D.faults self.old.device) (D.faults self.new.device) result }
    {
        runs_go_on();
        runs_meet_the_device();
        devices_stay_in_order::<D>();
        let copy = Bytes::copy_of(self.alloc, bytes)?;
        self.history.reserve(self.promised + 1)?;
        self.device.write_host(id, at, bytes)?;
        self.history.push_reserved(Stored::Event(BackEvent::Wrote {
            group,
            id,
            at,
            bytes: copy,
        }));
        Ok(())
    }

    /// Takes a batch of the group of its index, or hands it back for want of memory. It takes the room for the batch's
    /// submit, its nodes and its retirement.
    pub fn enqueue(&mut self, batch: Batch) -> Result<(), Batch>
        requires { MayEnqueue (link_of self.old.history (batch.index / 8)) batch }
        ensures ok { OnOk result (self.new.history ≡ self.old.history ++ Enqueued batch ∷ []) }
        ensures room { OnOk result (batch.number < 18446744073709551615) }
        ensures err { OnErr result (self.new.history ≡ self.old.history) }
        ensures handed_back { IfErr result (λ back. back ≡ batch) }
        ensures device { self.new.device ≡ self.old.device }
    {
        runs_go_on();
        runs_meet_the_device();
        let _index = batch.index.get();
        let events = batch.nodes.as_slice().len() + 2;
        let copy = match batch.copy(self.alloc) {
            Ok(copy) => copy,
            Err(_) => return Err(batch),
        };
        match self.history.reserve(self.promised + events + 1) {
            Ok(()) => {}
            Err(_) => return Err(batch),
        }
        match self.queue.push(batch) {
            Ok(()) => {}
            Err(batch) => return Err(batch),
        }
        self.history
            .push_reserved(Stored::Event(BackEvent::Enqueued { batch: copy }));
        self.promised += events;
        Ok(())
    }

    /// Reads bytes of a buffer, from the place `at` on.
    pub fn read_host(
        &mut self,
        group: u8,
        id: HandleId,
        at: u64,
        out: &mut [u8],
    ) -> Result<(), Stop>
        requires may { HostMay (link_of self.old.history group) id.0 at (length out.old) }
        requires readable { IsReadable (log_of (link_of self.old.history group).mine) id.0 at (length out.old) }
        ensures ok { OnOk result (self.new.history ≡ self.old.history ++ Fetched group id at out.new ∷ []) }
        ensures unread { OnErr result (out.new ≡ out.old) }
        ensures bytes { OnOk result (Agrees out.new (cells (length out.old) (λ i. contents_of (link_of self.old.history group) id.0 (at + i)))) }
        ensures err { IfErr result (λ stop. self.new.history ≡ stopped_by self.old.history stop) }
        ensures cause { HasCause (D.faults self.old.device) (D.faults self.new.device) result }
    {
        let answer = self.try_read(group, id, at, out);
        self.ended(answer)
    }

    fn try_read(&mut self, group: u8, id: HandleId, at: u64, out: &mut [u8]) -> Result<(), Stop>
        requires may { HostMay (link_of self.old.history group) id.0 at (length out.old) }
        requires readable { IsReadable (log_of (link_of self.old.history group).mine) id.0 at (length out.old) }
        ensures ok { OnOk result (self.new.history ≡ self.old.history ++ Fetched group id at out.new ∷ []) }
        ensures unread { OnErr result (out.new ≡ out.old) }
        ensures bytes { OnOk result (Agrees out.new (cells (length out.old) (λ i. contents_of (link_of self.old.history group) id.0 (at + i)))) }
        ensures err { OnErr result (self.new.history ≡ self.old.history) }
        ensures cause { HasCause (D.faults self.old.device) (D.faults self.new.device) result }
    {
        runs_go_on();
        runs_are_sound();
        runs_meet_the_device();
        devices_stay_in_order::<D>();
        let mut copy = Bytes::zeroed(self.alloc, out.len())?;
        self.history.reserve(self.promised + 1)?;
        self.device.read_host(id, at, out)?;
        copy.overwrite(0, out);
        self.history.push_reserved(Stored::Event(BackEvent::Fetched {
            group,
            id,
            at,
            bytes: copy,
        }));
        Ok(())
    }

    /// Takes an object that is to be destroyed once its uses are covered. This takes no memory.
    pub fn give(&mut self, group: u8, item: Garbage)
        requires { MayGive (link_of self.old.history group) item.handle.0 item.uses }
        ensures history { self.new.history ≡ self.old.history ++ Gave group item.handle item.uses ∷ [] }
        ensures device { self.new.device ≡ self.old.device }
    {
        runs_go_on();
        item.uses.has_one_number_each();
        self.history.push_reserved(Stored::Gave {
            group,
            id: item.handle.id(),
            uses: Snapshot::of(&item.uses),
        });
        self.garbage.put(item);
        self.promised -= 1;
    }

    /// Lets an object go in a run that was stopped. This takes no memory.
    pub fn abandon(&mut self, group: u8, handle: Handle)
        requires { (link_of self.old.history group).held handle.0 ≡ true }
        ensures history { self.new.history ≡ self.old.history ++ Abandoned group handle ∷ [] }
        ensures faults { D.faults self.new.device ≡ D.faults self.old.device }
    {
        runs_go_on();
        devices_stay_in_order::<D>();
        let id = handle.id();
        self.device.abandon(handle);
        self.history
            .push_reserved(Stored::Event(BackEvent::Abandoned { group, id }));
        self.promised -= 2;
    }
}
