// How all fronts are closed, and what waits is destroyed.
ghost use Rattle.std.specs.Prelude.{◌≡◌, ◌<◌, ℕ, length, List, None, OnOk, OnErr, slice_get, Some};
ghost use Rattle.vk_device.specs.Faults.{HasCause};
ghost use Rattle.vk_device.specs.Journal.{kind_of};
ghost use Rattle.trace_text.specs.Reading.{Plan};
ghost use Rattle.back_core.specs.History.{link_of};
ghost use Rattle.back_core.specs.Frame.{IsGoing, host_bytes};
ghost use Rattle.back_core.specs.Run.{journal_of};
ghost use Rattle.front_core.specs.Front.{FrontModel, FrontStands};
ghost use Rattle.world_core.specs.World.{histories_of};
ghost use Rattle.world_core.specs.Steps.{HasBroken};
ghost use Rattle.world_core.specs.Ends.{CloseFirst, EndsAll, HasClosedOne};
ghost use Rattle.world_core.specs.Inside.{AreFronts, Goes, AreClosed};

use crate::world::GROUPS;
use back_core::{
    Direct, backs_keep_going, cleanups_stay_whole, groups_are_apart, what_a_group_sees,
};
use front_core::{Front, fronts_go_on_standing};
use vk_device::Device;
use vk_types::Stop;

/// Closes the fronts in the order of their groups, has every batch submitted, executed and retired, and destroys all that waits.
pub(crate) fn end_all<D: Device>(fronts: &mut Vec<Front>, link: &mut Direct<D>) -> Result<(), Stop>
    requires eight { length fronts.old.items ≡ 8 }
    requires goes { Goes fronts.old.items link.old.back.history }
    ensures fronts { (threads : List Plan) → AreFronts threads link.old.back.history fronts.old.items →
        AreFronts threads link.new.back.history fronts.new.items }
    ensures histories { histories_of fronts.new.items ≡ histories_of fronts.old.items }
    ensures ends { OnOk result (EndsAll D.journal fronts.old.items fronts.new.items link.old.back link.new.back) }
    ensures destroyed { OnOk result ((id : ℕ) → kind_of (journal_of link.new.back.history) id ≡ None) }
    ensures going { OnOk result (IsGoing (Some link.new.back.history)) }
    ensures written { OnOk result (host_bytes (journal_of link.new.back.history) ≡ host_bytes (journal_of link.old.back.history)) }
    ensures cause { HasCause (D.faults link.old.back.device) (D.faults link.new.back.device) result }
{
    groups_are_apart();
    cleanups_stay_whole();
    backs_keep_going();
    close_fronts(fronts, link)?;
    link.back.settle_all()?;
    link.back.clean_all()?;
    Ok(())
}

// Closes the fronts of all groups, in rising order.
fn close_fronts<D: Device>(fronts: &mut Vec<Front>, link: &mut Direct<D>) -> Result<(), Stop>
    requires eight { length fronts.old.items ≡ 8 }
    requires goes { Goes fronts.old.items link.old.back.history }
    ensures fronts { (threads : List Plan) → AreFronts threads link.old.back.history fronts.old.items →
        AreFronts threads link.new.back.history fronts.new.items }
    ensures histories { histories_of fronts.new.items ≡ histories_of fronts.old.items }
    ensures in_order { OnOk result (CloseFirst 8 fronts.old.items link.old.back.history fronts.new.items link.new.back.history) }
    ensures closed { OnOk result (AreClosed link.new.back.history) }
    ensures written { OnOk result (host_bytes (journal_of link.new.back.history) ≡ host_bytes (journal_of link.old.back.history)) }
    ensures cause { HasCause (D.faults link.old.back.device) (D.faults link.new.back.device) result }
{
    groups_are_apart();
    cleanups_stay_whole();
    what_a_group_sees();
    fronts_go_on_standing();
    for group in 0..GROUPS {
        close_one(fronts, link, group)?;
    }
    Ok(())
}

// Closes the front of a group.
fn close_one<D: Device>(
    fronts: &mut Vec<Front>,
    link: &mut Direct<D>,
    group: u8,
) -> Result<(), Stop>
    requires low { group < length fronts.old.items }
    requires stands { (front : FrontModel) → slice_get fronts.old.items group ≡ Some front →
        FrontStands front (link_of link.old.back.history group) }
    ensures ok { OnOk result (HasClosedOne fronts.old.items fronts.new.items link.old.back.history link.new.back.history group) }
    ensures err { OnErr result (HasBroken fronts.old.items fronts.new.items link.old.back.history link.new.back.history group) }
    ensures cause { HasCause (D.faults link.old.back.device) (D.faults link.new.back.device) result }
{
    what_a_group_sees();
    link.group = group;
    let front = &mut fronts[usize::from(group)];
    front.close(link)
}
