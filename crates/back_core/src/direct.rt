// A group's link to a back that it reaches directly.
ghost use Rattle.std.specs.Prelude.{◌≡◌, ◌<◌, Some, true, is_err, IfErr, OnOk, OnErr};
ghost use Rattle.vk_device.specs.Faults.{HasCause};
ghost use Rattle.back_core.specs.Needs.{HasBatch};
ghost use Rattle.back_core.specs.Answers.{Learns, Waits};
ghost use Rattle.back_core.specs.History.{link_of};
ghost use Rattle.back_core.specs.Frame.{AtBack, NoBatch};
ghost use Rattle.back_core.specs.Steps.{HasGoneOn, HasStopped};

use crate::{Back, BackLink, what_a_group_sees};
use garbage::Garbage;
use vk_device::Device;
use vk_types::{Batch, Handle, HandleId, Kind, QueueSerial, SerialIndex, Stop};

/// The link of a group to a back that it reaches directly, and which it has meanwhile. The group knows the completed numbers. Groups
/// that take turns at one back have one such link: `group` is then the number, from 0 to 7, of the one whose turn it is.
pub struct Direct<D: Device> {
    pub back: Back<D>,
    pub group: u8,
}

impl<D: Device> Direct<D> {
    /// The link of a group, which is numbered from 0 to 7.
    pub fn new(back: Back<D>, group: u8) -> Direct<D>
        requires { group < 8 }
        ensures back { result.back ≡ back }
        ensures group { result.group ≡ group }
    {
        Direct { back, group }
    }

    /// The back again.
    pub fn into_back(self) -> Back<D>
        ensures { result ≡ self.back }
    {
        let Direct { back, group: _ } = self;
        back
    }
}

impl<D: Device> BackLink for Direct<D> {
    ghost state = { λ d. link_of d.back.history d.group };

    ghost faults = { λ d. D.faults d.back.device };

    ghost told = { λ d. Some d.back.history };

    fn create(&mut self, kind: Kind) -> Result<Handle, Stop> {
        what_a_group_sees();
        self.back.create(self.group, kind)
    }

    fn write_host(&mut self, id: HandleId, at: u64, bytes: &[u8]) -> Result<(), Stop> {
        what_a_group_sees();
        self.back.write_host(self.group, id, at, bytes)
    }

    fn enqueue(&mut self, batch: Batch) -> Result<(), Batch> {
        what_a_group_sees();
        self.back.enqueue(batch)
    }

    fn completed(&mut self, index: SerialIndex) -> u64 {
        what_a_group_sees();
        self.back.completed(index)
    }

    /// Waits until a batch of the group is retired. The batches of the back go on meanwhile, and nothing else happens to it.
    fn wait_for(&mut self, serial: QueueSerial) -> Result<(), Stop>
        requires { HasBatch (link_of self.old.back.history self.old.group) serial.index serial.number }
        ensures gone_on { OnOk result (HasGoneOn self.old.back.history self.new.back.history) }
        ensures stopped { IfErr result (λ stop. HasStopped self.old.back.history self.new.back.history stop) }
        ensures ok { OnOk result (Waits (link_of self.old.back.history self.old.group) (link_of self.new.back.history self.new.group)
            serial.index serial.number) }
        ensures err { OnErr result (Learns (link_of self.old.back.history self.old.group) (link_of self.new.back.history self.new.group)) }
        ensures cause { HasCause (D.faults self.old.back.device) (D.faults self.new.back.device) result }
        ensures at_back { AtBack (link_of self.old.back.history self.old.group) (link_of self.new.back.history self.new.group)
            (Some self.old.back.history) (Some self.new.back.history) 0 true (is_err result) NoBatch }
    {
        self.back.wait_for(self.group, serial)
    }

    fn read_host(&mut self, id: HandleId, at: u64, out: &mut [u8]) -> Result<(), Stop> {
        what_a_group_sees();
        self.back.read_host(self.group, id, at, out)
    }

    fn give(&mut self, item: Garbage) {
        what_a_group_sees();
        self.back.give(self.group, item);
    }

    fn abandon(&mut self, handle: Handle) {
        what_a_group_sees();
        self.back.abandon(self.group, handle);
    }
}
