// The back: a device, and what the share groups had it do.
ghost use Rattle.std.specs.Prelude.{◌≡◌, ◌==◌, ◌↔◌, ◌<◌, ℕ, [], ◌∷◌, ◌++◌, length, not, is_some, IsTrue, OnOk, IfOk, IfErr};

use crate::run_laws::runs_go_on;
use crate::stored::Stored;
use crate::{BackEvent, Ending, Left};
use garbage::GarbageList;
use std::alloc::Global;
use std::marker::Model;
use submit_queue::SubmitQueue;
use vk_device::{Device, devices_stay_in_order};
use vk_types::{SerialIndex, Stop};

/// A device with the batches that were flushed, the garbage, and the history of all that happened. Contracts see the
/// device and the history. No call walks over the history.
pub struct Back<D: Device> {
    pub(crate) alloc: Global,
    pub(crate) device: D,
    pub(crate) history: Vec<Stored>,
    // How many places of the history are kept free for events that take no memory.
    pub(crate) promised: usize,
    pub(crate) queue: SubmitQueue,
    pub(crate) garbage: GarbageList,
    pub(crate) ending: Ending,
}

impl<D: Device> Model for Back<D> {
    ghost use Rattle.std.specs.Prelude.{◌+◌, ◌≤◌, map};
    ghost use Rattle.std.specs.Vec.{vec_len, vec_capacity};
    ghost use Rattle.back_core.specs.Back.{BackModel, Holds, event_of};

    ghost Value = { BackModel D };

    ghost view = { λ b. record { device = b.device; history = map event_of b.history.items } };

    ghost invariant = { λ b. Holds (map event_of b.history.items) (D.journal b.device) (D.bytes_of b.device) b.queue b.garbage b.ending b.promised × (vec_len b.history + b.promised ≤ vec_capacity b.history) };
}

impl<D: Device> Back<D> {
    ghost use Rattle.vk_device.specs.Running.{IsInOrder};
    ghost use Rattle.submit_queue.specs.Histories.{first_flushed, MayRun, IsLeft};
    ghost use Rattle.vk_types.specs.declared.stops.Stop.TheVariants.{Memory};
    ghost use Rattle.back_core.specs.History.{queue_history, completed};
    ghost use Rattle.back_core.specs.Run.{IsRun, journal_of, garbage_of};
    ghost use Rattle.back_core.specs.Back.{BackModel, ending_of, stopped_by, closed_by};

    /// A back over a device that did nothing. It takes the room for the changes of its ending. For want of memory the
    /// device is handed back.
    pub fn new(alloc: Global, device: D) -> Result<Back<D>, D>
        requires { D.journal device ≡ [] }
        ensures ok { IfOk result (λ back. back ≡ record { device = device; history = [] }) }
        ensures err { IfErr result (λ back. back ≡ device) }
    {
        runs_go_on();
        devices_stay_in_order::<D>();
        let mut history = Vec::new(alloc);
        match history.reserve(2) {
            Ok(()) => Ok(Back {
                alloc,
                device,
                history,
                promised: 2,
                queue: SubmitQueue::new(alloc),
                garbage: GarbageList::new(alloc),
                ending: Ending::Running,
            }),
            Err(_) => Err(device),
        }
    }

    /// What happened came in an order that is allowed, and the device's journal is what it did of it.
    pub fn is_in_order(&self)
        ensures run { IsRun self.now.history }
        ensures journal { D.journal self.now.device ≡ journal_of self.now.history }
        ensures in_order { IsInOrder (D.journal self.now.device) (D.bytes_of self.now.device) }
    {
        let _ = &self.alloc;
    }

    /// How many events there were. It looks at none of them.
    pub fn count(&self) -> u64
        ensures count { result ≡ length self.now.history }
        ensures few { result < 18446744073709551615 }
    {
        self.history.len() as u64
    }

    /// The completed number of an index: the greatest such that its batches with the numbers from 1 to it were retired.
    pub fn completed(&self, index: SerialIndex) -> u64
        ensures { result ≡ completed self.now.history index }
    {
        self.queue.completed(index)
    }

    /// What is left to do. It takes no memory, and looks at the accepted batches that were not retired.
    pub fn left(&self) -> Left
        ensures flushed { result.flushed ≡ is_some (first_flushed (queue_history self.now.history)) }
        ensures nodes { IsTrue result.nodes ↔ ((batch : ℕ) × (item : ℕ) × MayRun (queue_history self.now.history) batch item) }
        ensures batches { IsTrue result.batches ↔ ((batch : ℕ) × IsLeft (queue_history self.now.history) batch) }
        ensures garbage { result.garbage ≡ not (length (garbage_of self.now.history) == 0) }
    {
        Left {
            flushed: self.queue.first_flushed().is_some(),
            nodes: self.queue.nodes_left(),
            batches: self.queue.batches_left(),
            garbage: !self.garbage.is_empty(),
        }
    }

    /// Whether the back runs, is closing, or was stopped.
    pub fn ending(&self) -> Ending
        ensures { result ≡ ending_of self.now.history }
    {
        self.ending
    }

    /// A back that runs is closing from now on. This takes no memory.
    pub fn begin_closing(&mut self)
        ensures history { self.new.history ≡ closed_by self.old.history }
        ensures device { self.new.device ≡ self.old.device }
    {
        runs_go_on();
        if let Ending::Running = self.ending {
            self.history
                .push_reserved(Stored::Event(BackEvent::Closing));
            self.promised -= 1;
            self.ending = Ending::Closing;
        }
    }

    /// A back that was not stopped is stopped for want of memory from now on. This takes no memory.
    pub fn stop_for_memory(&mut self)
        ensures history { self.new.history ≡ stopped_by self.old.history Memory }
        ensures device { self.new.device ≡ self.old.device }
    {
        self.stop(Stop::Memory);
    }

    // A back that was not stopped is stopped from now on.
    pub(crate) fn stop(&mut self, stop: Stop)
        ensures history { self.new.history ≡ stopped_by self.old.history stop }
        ensures device { self.new.device ≡ self.old.device }
    {
        runs_go_on();
        if self.ending.is_stopped() {
            return;
        }
        self.history
            .push_reserved(Stored::Event(BackEvent::Stopped { stop }));
        self.promised -= 1;
        self.ending = Ending::Stopped(stop);
    }

    // Answers what a call answers, and keeps the first stop.
    pub(crate) fn ended<T>(&mut self, answer: Result<T, Stop>) -> Result<T, Stop>
        ensures same { result ≡ answer }
        ensures ok { OnOk result (self.new ≡ self.old) }
        ensures err { IfErr result (λ stop. self.new.history ≡ stopped_by self.old.history stop) }
        ensures device { self.new.device ≡ self.old.device }
    {
        if let Err(stop) = &answer {
            self.stop(*stop);
        }
        answer
    }
}
