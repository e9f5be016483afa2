//! Devices: in memory with an order that is told or drawn, and one that is lost after so many calls.
#![tactic(auto)]

mod fake;
mod fuse;
mod soft;

pub use fake::FakeDevice;
pub use fuse::FuseDevice;
pub use soft::SoftDevice;
