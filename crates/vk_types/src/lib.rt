//! The plain types of the device: objects and their handles, accesses, barriers, nodes and batches.
//!
//! Contracts see each of these types as plain data: a struct by its fields, a list type as a list, a
//! `Handle` as its number.
#![tactic(auto)]

mod accesses;
mod batches;
mod handles;
mod lists;
mod ops;
mod regions;
mod stops;

pub use accesses::{Access, Layout};
pub use batches::{Batch, QueueSerial, Reason, SerialIndex};
pub use bitflags::Flags;
pub use handles::{Handle, HandleId, Kind};
pub use lists::{Clears, Nodes, SignalNumbers};
pub use ops::{Load, Node, Op};
pub use regions::{Barrier, Clear, Coords, Rect, Touch};
pub use stops::Stop;
