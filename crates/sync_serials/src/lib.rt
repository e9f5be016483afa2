//! The serials of a share group's syncs (OpenGL ES 3.0.6, Sync Objects and Fences; EGL 1.5, Synchronization Primitives).
//!
//! A sync has the serial of the next batch of its context, and is signalled once that batch is retired. It outlives its
//! context. The laws say when such serials stand beside what histories say of syncs, and what a wait may then answer.
#![tactic(auto)]

mod laws;
mod serials;
#[cfg(test)]
mod tests;

pub use laws::{
    syncs_are_made_and_ended, syncs_are_signalled, syncs_of_contexts_stand, syncs_stand_on,
    waits_may_answer,
};
pub use serials::{SyncName, SyncSerials};
