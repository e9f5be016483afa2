//! The batches that were flushed and those that a device has accepted, until they are retired, and the completed
//! numbers of each index.
//!
//! A batch is pushed when it is flushed, accepted when the device takes it, and retired when all its items ran and each
//! earlier batch of its queue was retired. Contracts speak of the history of these events: `specs/Histories.antt`.
#![tactic(auto)]

mod laws;
mod pending;
mod queue;

pub use laws::completed_numbers;
pub use queue::SubmitQueue;
