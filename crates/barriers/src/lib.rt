//! When a barrier is recorded before a node: exactly where one is licensed, and which one (`specs/Licence.antt`).
//!
//! A [`Tracker`] knows of one object what the rules ask: what its last barrier let through, how it was accessed since,
//! and the layout that an image is in. [`licensed_barriers_keep_logs_sound`] says what such barriers do for a log.
#![tactic(auto)]

mod laws;
mod recording_laws;
mod tracker;

pub use laws::{due_barriers_fit, licensed_barriers_keep_logs_sound, no_barrier_is_licensed_twice};
pub use recording_laws::{
    due_barriers_keep_logs_sound, host_reads_are_uses, sound_logs_are_tracked, trackers_take_uses,
    uses_change_places, writes_are_made_known,
};
pub use tracker::Tracker;

#[cfg(test)]
mod tests;
