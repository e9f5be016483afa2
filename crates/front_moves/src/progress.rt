// Waiting for batches that were handed to the back, and asking how far it is.
ghost use Rattle.std.specs.Prelude.{◌≤◌, true, false, OnOk, OnErr, is_err};
ghost use Rattle.vk_device.specs.Faults.{HasCause};
ghost use Rattle.back_core.specs.Answers.{Learns, Completes};
ghost use Rattle.back_core.specs.Needs.{IsOfGroup};
ghost use Rattle.front_model.specs.Face.{outline_at, view};
ghost use Rattle.front_model.specs.Stands.{Holds, Owns, Moved, IsQuiet, no_hands};
ghost use Rattle.front_moves.specs.Core.{face};
ghost use Rattle.back_core.specs.Frame.{ActsAtBack, NoBatch};

use crate::group_core::Core;
use crate::reading_comes_to::waiting_comes_to;
use back_core::BackLink;
use vk_types::{QueueSerial, SerialIndex, Stop};

impl Core {
    /// Waits until a batch that the group handed to the back is retired.
    pub fn wait_for<L: BackLink>(&self, link: &mut L, serial: QueueSerial) -> Result<(), Stop>
        requires holds { Holds (face self.now) no_hands (L.state link.old) }
        requires group { IsOfGroup (face self.now).group serial.index }
        requires some { 1 ≤ serial.number }
        requires batch { serial.number ≤ (face self.now).last serial.index }
        ensures moved { OnOk result (Moved (face self.now) (L.state link.new) (view (face self.now) (L.state link.old)) (outline_at (face self.now)) (IsQuiet (face self.now) (L.state link.old))) }
        ensures reached { OnOk result (serial.number ≤ (L.state link.new).done serial.index) }
        ensures learns { OnOk result (Learns (L.state link.old) (L.state link.new)) }
        ensures err { OnErr result (Owns (face self.now).objects (L.state link.new)) }
        ensures cause { HasCause (L.faults link.old) (L.faults link.new) result }
        ensures at_back { ActsAtBack L.state L.told link.old link.new 0 true (is_err result) NoBatch }
    {
        waiting_comes_to();
        link.wait_for(serial)
    }

    /// A number up to which the batches of an index are retired.
    pub fn completed<L: BackLink>(&self, link: &mut L, index: SerialIndex) -> u64
        requires { Holds (face self.now) no_hands (L.state link.old) }
        ensures moved { Moved (face self.now) (L.state link.new) (view (face self.now) (L.state link.old)) (outline_at (face self.now)) (IsQuiet (face self.now) (L.state link.old)) }
        ensures answer { Completes (L.state link.old) (L.state link.new) index result }
        ensures faults { L.faults link.old ≤ L.faults link.new }
        ensures at_back { ActsAtBack L.state L.told link.old link.new 0 false false NoBatch }
    {
        waiting_comes_to();
        link.completed(index)
    }
}
