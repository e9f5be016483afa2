// The world, and what can be asked of it.
ghost use Rattle.std.specs.Prelude.{◌≡◌, ◌<◌, ◌≤◌, ◌↔◌, IsTrue, [], length, map, IfOk, IfErr};
ghost use Rattle.vk_device.specs.Journal.{IsClean};
ghost use Rattle.back_core.specs.Steps.{AreCompleted};
ghost use Rattle.trace_text.specs.Reading.{plan};
ghost use Rattle.play_model.specs.Plays.{MayPlay};
ghost use Rattle.world_core.specs.World.{IsLawful, IsNewWorld, IsServed, play_of};

use crate::calling::may_follow;
use crate::opening::{abandon_all, no_lines, none_answered, open_fronts};
use back_core::{
    Back, Direct, backs_keep_going, cleanups_stay_whole, runs_go_on, what_a_group_sees,
};
use front_core::Front;
use play_model::plays_go_on;
use reply_text::GroupHistory;
use std::alloc::Global;
use std::marker::Model;
use trace_text::{ThreadPlan, Trace};
use vk_device::{Device, devices_stay_in_order};

/// How many share groups there may be.
pub(crate) const GROUPS: u8 = 8;

/// The threads of a trace, the front of each group, and the back that the groups share. Contracts see the threads, how far each is, the
/// fronts with what they answered, and the back. A world is to be ended by `finish`.
pub struct World<D: Device> {
    pub(crate) threads: Vec<ThreadPlan>,
    // How many lines of each thread were answered.
    pub(crate) done: Vec<usize>,
    // For each number of a line whether its call was answered.
    pub(crate) answered: Vec<bool>,
    // The front of each group, in their order.
    pub(crate) fronts: Vec<Front>,
    pub(crate) link: Direct<D>,
    pub(crate) running: bool,
    // Room for the histories, which `finish` gives.
    pub(crate) ended: Vec<GroupHistory>,
}

impl<D: Device> Model for World<D> {
    ghost use Rattle.std.specs.Prelude.{◌≡◌, ◌≤◌, [], map};
    ghost use Rattle.std.specs.Vec.{vec_capacity};
    ghost use Rattle.trace_text.specs.Reading.{plan};
    ghost use Rattle.world_core.specs.World.{WorldModel};
    ghost use Rattle.world_core.specs.Inside.{Keeps, world_of};

    ghost Value = { WorldModel D };

    ghost view = { λ w. world_of (map plan w.threads.items) w.done.items w.fronts.items w.link.back w.running };

    ghost invariant = { λ w. Keeps
        (map plan w.threads.items) w.done.items w.answered.items w.fronts.items w.link.back.history w.running × (w.ended.items ≡ []) ×
        (8 ≤ vec_capacity w.ended) };
}

impl<D: Device> World<D> {
    /// A world of the threads of a trace over a device that did nothing. Where memory runs out the device is handed back.
    pub fn new(alloc: Global, trace: Trace, device: D) -> Result<World<D>, D>
        requires empty { D.journal device ≡ [] }
        requires served { IsServed (map plan trace.threads.items) }
        ensures ok { IfOk result (λ world. IsNewWorld (map plan trace.threads.items) device world) }
        ensures clean { IfErr result (λ back. IsClean (D.journal back)) }
        ensures faults { IfErr result (λ back. D.faults device ≤ D.faults back) }
    {
        devices_stay_in_order::<D>();
        what_a_group_sees();
        cleanups_stay_whole();
        backs_keep_going();
        runs_go_on();
        plays_go_on();
        let Trace { threads } = trace;
        let mut ended = Vec::new(alloc);
        if ended.reserve(usize::from(GROUPS)).is_err() {
            return Err(device);
        }
        let Ok(done) = no_lines(alloc, &threads) else {
            return Err(device);
        };
        let Ok(answered) = none_answered(alloc, &threads) else {
            return Err(device);
        };
        let back = Back::new(alloc, device)?;
        let mut link = Direct::new(back, 0);
        let mut fronts = Vec::new(alloc);
        if open_fronts(alloc, &threads, &mut fronts).is_err() {
            abandon_all(fronts, &mut link);
            return Err(link.into_back().finish());
        }
        Ok(World {
            threads,
            done,
            answered,
            fronts,
            link,
            running: true,
            ended,
        })
    }

    /// What holds of the world at each moment.
    pub fn is_lawful(&self)
        ensures { IsLawful D.journal self.now }
    {
        self.link.back.is_in_order();
    }

    /// How many threads there are; they are numbered from 0.
    pub fn thread_count(&self) -> u32
        ensures { result ≡ length self.now.threads }
    {
        self.threads.len() as u32
    }

    /// Whether the thread has a next line, and that waits for no line that was not answered.
    pub fn ready(&self, thread: u32) -> bool
        requires { thread < length self.now.threads }
        ensures { IsTrue result ↔ MayPlay self.now.threads (play_of self.now) thread }
    {
        let number = thread as usize;
        match self.threads[number].lines.get(self.done[number]) {
            Some(line) => may_follow(&self.answered, line.after),
            None => false,
        }
    }

    /// The completed numbers of all indexes.
    pub fn completed(&self) -> [u64; 64]
        ensures { AreCompleted self.now.back.history result }
    {
        self.link.back.all_completed()
    }
}
