// The batches of a device, from the push to the retirement.
ghost use Rattle.std.specs.Prelude.{◌≡◌, ◌≢◌, ◌+◌, ◌-◌, ◌<◌, ℕ, List, [], ◌∷◌, ◌++◌, Some, IfErr, IfNone, IfSome, OnOk, OnErr, IsTrue, ◌↔◌, option_copied, slice_get, length};
ghost use Rattle.submit_queue.specs.Histories.{Event, Pushed, Accepted, Ran, Retired, item_count, first_flushed, MayPush, MayAccept, MayRun, CanRetire, IsCompleted, completed, IsLeft};
ghost use Rattle.submit_queue.specs.Kept.{Keeps, Retires};

use crate::pending::{Pending, is_executed, run_one, some_left};
use std::alloc::Global;
use std::collections::VecDeque;
use vk_types::{Batch, QueueSerial, SerialIndex};

/// The batches that were not retired, and the completed number of each index. Contracts speak of each history that the
/// queue keeps; a new queue keeps the empty one.
#[derive(Debug, Drop)]
pub struct SubmitQueue {
    // The batches that were not retired, in the order of the pushes.
    pending: VecDeque<Pending>,
    // How many of them were accepted.
    accepted: usize,
    // How many batches were retired.
    retired: u64,
    completed: [u64; 64],
}

impl SubmitQueue {
    /// No batch. This takes no memory.
    pub fn new(alloc: Global) -> SubmitQueue
        ensures { Keeps [] result }
    {
        SubmitQueue {
            pending: VecDeque::new(alloc),
            accepted: 0,
            retired: 0,
            completed: [0; 64],
        }
    }

    /// Puts a flushed batch behind the others. For want of memory the batch is handed back and the queue keeps what it
    /// kept. No later call on the batch takes memory.
    pub fn push(&mut self, batch: Batch) -> Result<(), Batch>
        requires items { item_count batch < 4294967296 }
        ensures ok { OnOk result ((h : List Event) → Keeps h self.old → MayPush h batch → Keeps (h ++ Pushed batch ∷ []) self.new) }
        ensures err { OnErr result ((h : List Event) → Keeps h self.old → Keeps h self.new) }
        ensures handed_back { IfErr result (λ back. back ≡ batch) }
    {
        match self.pending.push_back(Pending::fresh(batch)) {
            Ok(()) => Ok(()),
            Err(failed) => Err(failed.value.batch),
        }
    }

    /// The first batch that was not accepted; `None` exactly where each batch was.
    pub fn first_flushed(&self) -> Option<&Batch>
        ensures { (h : List Event) → Keeps h self.now → option_copied result ≡ first_flushed h }
    {
        let first = self.pending.get(self.accepted)?;
        Some(&first.batch)
    }

    /// The device accepted the first batch that was not accepted before.
    pub fn accept(&mut self)
        ensures { (h : List Event) → Keeps h self.old → MayAccept h → Keeps (h ++ Accepted ∷ []) self.new }
    {
        if self.accepted < self.pending.len() {
            self.accepted += 1;
        }
    }

    /// An item of an accepted batch ran. Batches are named in the order of their acceptance, from 0, and items by their
    /// places in the batch: its waits, then its nodes, then its signals.
    pub fn ran(&mut self, batch: u64, node: u32)
        ensures { (h : List Event) → Keeps h self.old → MayRun h batch node → Keeps (h ++ Ran batch node ∷ []) self.new }
    {
        let place = batch.saturating_sub(self.retired);
        run_one(&mut self.pending, place as usize);
    }

    /// Whether an item of an accepted batch has not run. It looks at the accepted batches that were not retired.
    pub fn nodes_left(&self) -> bool
        ensures { (h : List Event) → Keeps h self.now → IsTrue result ↔ ((batch : ℕ) × (item : ℕ) × MayRun h batch item) }
    {
        some_left(&self.pending, self.accepted)
    }

    /// Whether a batch was not retired.
    pub fn batches_left(&self) -> bool
        ensures { (h : List Event) → Keeps h self.now → IsTrue result ↔ ((batch : ℕ) × IsLeft h batch) }
    {
        !self.pending.is_empty()
    }

    /// Retires a batch and gives its serial; `None` exactly where no batch can be retired.
    pub fn retire(&mut self) -> Option<QueueSerial>
        ensures some { IfSome result (λ serial. (h : List Event) → Keeps h self.old → Retires h serial self.new) }
        ensures none { IfNone result ((h : List Event) → Keeps h self.old → (batch : ℕ) → CanRetire h batch → ⊥) }
        ensures others { IfSome result (λ serial. (h : List Event) → Keeps h self.old → (i : ℕ) → i < 64 → i ≢ serial.index → completed (h ++ Retired serial ∷ []) i ≡ completed h i) }
        ensures unchanged { IfNone result (self.new ≡ self.old) }
    {
        if self.accepted == 0 || !is_executed(&self.pending) {
            return None;
        }
        let Pending { batch, left: _ } = self.pending.pop_front()?;
        let serial = batch.serial();
        self.accepted -= 1;
        self.retired = self.retired.saturating_add(1);
        self.completed[usize::from(serial.index.get())] = serial.number;
        Some(serial)
    }

    /// The greatest number such that the index has a batch with each number from 1 to it, and all these were retired; 0
    /// where there is none.
    pub fn completed(&self, index: SerialIndex) -> u64
        ensures greatest { (h : List Event) → Keeps h self.now → IsCompleted h index result }
        ensures value { (h : List Event) → Keeps h self.now → result ≡ completed h index }
    {
        self.completed[usize::from(index.get())]
    }
}
