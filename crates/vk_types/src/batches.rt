// What a context hands to a queue at once, and its serial.
ghost use Rattle.std.specs.Prelude.{◌≡◌, ◌<◌, IfOk};

use crate::{Nodes, SignalNumbers};
use std::alloc::{AllocError, Global};
use std::marker::Model;

/// The index of a context's serials, from 0 to 63. Contracts see the number.
#[derive(Clone, Copy, Debug, PartialEq, Eq)]
pub struct SerialIndex(u8);

impl Model for SerialIndex {
    ghost use Rattle.std.specs.Prelude.{ℕ, ◌<◌};

    ghost Value = { ℕ };

    ghost view = { λ i. i.0 };

    ghost invariant = { λ i. i.0 < 64 };

    ghost inverse = { λ n. record { 0 = n } };
}

impl SerialIndex {
    pub fn new(index: u8) -> SerialIndex
        requires { index < 64 }
        ensures { result ≡ index }
    {
        SerialIndex(index)
    }

    pub fn get(self) -> u8
        ensures value { result ≡ self }
        ensures bound { result < 64 }
    {
        self.0
    }
}

/// The serial of a batch: the numbers of one index rise.
#[derive(Clone, Copy, Debug, PartialEq, Eq)]
pub struct QueueSerial {
    pub index: SerialIndex,
    pub number: u64,
}

/// Why a batch is handed over.
#[derive(Clone, Copy, Debug, PartialEq, Eq)]
pub enum Reason {
    /// glFlush
    Flush,
    /// glFinish
    Finish,
    /// The host reads what the nodes make.
    Read,
    /// A sync object stands at the end of the batch.
    Sync,
    /// Another context becomes current.
    Switch,
    /// The context ends.
    End,
    /// Another context of the share group uses what the nodes touch.
    Cross,
    /// The context has recorded as much as it may.
    Full,
}

/// Nodes that a queue gets at once, behind its waits and before its signals (Vulkan 1.1, Command Buffer Submission).
#[derive(Debug, Drop)]
pub struct Batch {
    pub index: SerialIndex,
    pub number: u64,
    pub queue: u8,
    pub waits: SignalNumbers,
    pub signals: SignalNumbers,
    pub nodes: Nodes,
    pub reason: Reason,
}

impl Batch {
    pub fn copy(&self, alloc: Global) -> Result<Batch, AllocError>
        ensures { IfOk result (λ copy. copy ≡ self.now) }
    {
        Ok(Batch {
            index: self.index,
            number: self.number,
            queue: self.queue,
            waits: self.waits.copy(alloc)?,
            signals: self.signals.copy(alloc)?,
            nodes: self.nodes.copy(alloc)?,
            reason: self.reason,
        })
    }

    /// The serial of the batch.
    pub fn serial(&self) -> QueueSerial
        ensures index { result.index ≡ self.now.index }
        ensures number { result.number ≡ self.now.number }
    {
        QueueSerial {
            index: self.index,
            number: self.number,
        }
    }
}
