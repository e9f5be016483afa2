//! The moves of which the calls of a share group are made: each keeps the front standing, and changes what its objects hold as
//! its contract says. Objects of all kinds stand in one table; the nodes recorded so far are copies between buffers, each behind the
//! barriers that are due before it.
#![tactic(auto)]

mod closing;
mod closing_comes_to;
mod comes_to;
mod ending;
mod group_core;
mod moves;
mod objects;
mod pending;
mod progress;
mod reading_comes_to;
mod recording;
mod recording_comes_to;
mod stores;
mod stores_come_to;

pub use group_core::Core;
