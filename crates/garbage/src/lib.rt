//! Handles that nobody uses any more, which wait until the device is done with them.
//!
//! A front gives a handle away with its last uses. A cleanup takes out each entry whose uses are covered by the
//! completed numbers that were read, and the back destroys its handle.
#![tactic(auto)]

mod entry;
mod laws;
mod list;
mod turning;

pub use entry::Garbage;
pub use laws::cleanups_collect;
pub use list::GarbageList;
use turning::Turning;
