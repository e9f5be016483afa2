// The journal's entries.
use cells::Bytes;
use vk_types::{Batch, HandleId, Kind};

/// What a device did. Batches are counted in the order in which they were accepted, and nodes within their batch, both
/// from 0.
#[derive(Debug, Drop)]
pub enum Logged {
    Created { id: HandleId, kind: Kind },
    Wrote { id: HandleId, at: u64, bytes: Bytes },
    Submitted { batch: Batch },
    Ran { batch: u64, node: u32 },
    Fetched { id: HandleId, at: u64, bytes: Bytes },
    Destroyed { id: HandleId },
}

/// What a turn did: it executed this node of this batch, or none was left.
#[derive(Clone, Copy, Debug, PartialEq, Eq)]
pub enum Turned {
    Ran { batch: u64, node: u32 },
    Idle,
}
