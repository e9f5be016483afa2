// The end of a world.
ghost use Rattle.std.specs.Prelude.{◌≡◌, ◌≢◌, ◌≤◌, ◌<◌, ℕ, true, [], ◌∷◌, ◌++◌, map, length, OnOk, OnErr, if◌then◌else◌};
ghost use Rattle.std.specs.List.{All};
ghost use Rattle.std.specs.Vec.{vec_len, vec_capacity};
ghost use Rattle.vk_device.specs.Faults.{HasCause};
ghost use Rattle.vk_device.specs.Journal.{IsClean};
ghost use Rattle.trace_text.specs.Reading.{plan};
ghost use Rattle.back_core.specs.Answers.{Learns};
ghost use Rattle.back_core.specs.History.{link_of};
ghost use Rattle.front_model.specs.Stands.{Owns};
ghost use Rattle.front_moves.specs.Core.{face};
ghost use Rattle.world_core.specs.World.{AreHistories, declared, is_declared, history_at, histories_of, play_of};
ghost use Rattle.world_core.specs.Steps.{HasHalted};
ghost use Rattle.world_core.specs.Ends.{HasClosed, HasFinished};
ghost use Rattle.world_core.specs.Inside.{OwnTheirs, LetsGo};

use crate::World;
use crate::closing::end_all;
use crate::world::GROUPS;
use back_core::{Direct, groups_are_apart, what_a_group_sees};
use front_core::Front;
use gl_calls::Entry;
use reply_text::GroupHistory;
use trace_text::ThreadPlan;
use vk_device::Device;
use vk_types::Stop;

impl<D: Device> World<D> {
    /// Closes the fronts in the order of their groups, has every batch submitted, executed and retired, and destroys all that waits to be
    /// destroyed. The world does not go on after it.
    pub fn close(&mut self) -> Result<(), Stop>
        requires running { self.old.running ≡ true }
        ensures ok { OnOk result (HasClosed D.journal self.old self.new) }
        ensures err { OnErr result (HasHalted self.old self.new) }
        ensures cause { HasCause (D.faults self.old.back.device) (D.faults self.new.back.device) result }
    {
        let answer = end_all(&mut self.fronts, &mut self.link);
        self.running = false;
        answer
    }

    /// Ends a world: the histories of the declared groups, in rising order, and the device. What the fronts and the back still have is
    /// let go.
    pub fn finish(self) -> (Vec<GroupHistory>, D)
        ensures histories { AreHistories self.threads (play_of self) result.0.items }
        ensures finished { HasFinished self (D.journal result.1) }
        ensures clean { IsClean (D.journal result.1) }
        ensures faults { D.faults self.back.device ≤ D.faults result.1 }
    {
        let World {
            threads,
            done: _,
            answered: _,
            fronts,
            link,
            running: _,
            ended,
        } = self;
        let mut link = link;
        let mut ended = ended;
        let_all_go(fronts, &mut link, &threads, &mut ended);
        (ended, link.into_back().finish())
    }
}

// Lets the fronts go in the order of their groups, and keeps the histories of those that threads are declared for.
fn let_all_go<D: Device>(
    fronts: Vec<Front>,
    link: &mut Direct<D>,
    threads: &[ThreadPlan],
    ended: &mut Vec<GroupHistory>,
)
    requires eight { length fronts.items ≡ 8 }
    requires owns { OwnTheirs fronts.items link.old.back.history }
    requires empty { ended.old.items ≡ [] }
    requires room { 8 ≤ vec_capacity ended.old }
    ensures groups { map (λ history. history.group) ended.new.items ≡ declared (map plan threads.now) }
    ensures entries { All (λ history. history.entries.items ≡ history_at (histories_of fronts.items) history.group) ended.new.items }
    ensures lets { LetsGo link.old.back.history link.new.back.history }
    ensures faults { D.faults link.old.back.device ≤ D.faults link.new.back.device }
{
    let mut fronts = fronts;
    for group in 0..GROUPS {
        let front = fronts.remove(0);
        let entries = let_go(front, link, group);
        keep(ended, is_declared(threads, group), group, entries);
    }
    fronts.destroy_empty();
}

// Keeps the history of a group that threads are declared for.
fn keep(ended: &mut Vec<GroupHistory>, declared: bool, group: u8, entries: Vec<Entry>)
    requires { vec_len ended.old < vec_capacity ended.old }
    ensures items { ended.new.items ≡
        (if declared then ended.old.items ++ record { group = group; entries = entries } ∷ [] else ended.old.items) }
    ensures capacity { vec_capacity ended.new ≡ vec_capacity ended.old }
{
    if declared {
        ended.push_reserved(GroupHistory { group, entries });
    }
}

// Whether a thread is declared for a group.
fn is_declared(threads: &[ThreadPlan], group: u8) -> bool
    ensures { result ≡ is_declared (map plan threads.now) group }
{
    for thread in threads {
        if thread.group == group {
            return true;
        }
    }
    false
}

/// Ends the front of a group, and gives its history.
pub(crate) fn let_go<D: Device>(front: Front, link: &mut Direct<D>, group: u8) -> Vec<Entry>
    requires { Owns (face front.core).objects (link_of link.old.back.history group) }
    ensures entries { result.items ≡ front.history }
    ensures lets { LetsGo link.old.back.history link.new.back.history }
    ensures others { (other : ℕ) → other ≢ group → Learns (link_of link.old.back.history other) (link_of link.new.back.history other) }
    ensures faults { D.faults link.old.back.device ≤ D.faults link.new.back.device }
{
    groups_are_apart();
    what_a_group_sees();
    link.group = group;
    let entries = front.abandon(link);
    link.back.is_in_order();
    entries
}
