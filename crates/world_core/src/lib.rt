//! A world of several threads, contexts and share groups over one device: what happens next is told by events, one at a time.
//!
//! [`World::step`] makes one event: the next call of a thread, or one step of the back. `specs/Steps.antt` says what each event does,
//! `specs/World.antt` what holds after any list of them, and `specs/Ends.antt` how a world ends.
#![tactic(auto)]

mod back_steps;
mod calling;
mod closing;
mod ending;
mod event;
mod opening;
mod steps;
mod world;

pub use event::{Event, Stepped};
pub use world::World;
