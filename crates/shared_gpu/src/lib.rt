//! A back that several threads share: it stands behind a turnstile, and each group reaches it by a pass of its own.
//!
//! A [`Shared`] back is what lies behind the turnstile. Its entries are the back's events: those of a group's own calls name the
//! pass of the group, and all others name none. Word 1 + i of the turnstile publishes the completed number of index i. So what
//! a group sees, `seat_link` of `specs/Seats.antt`, is told by its own entries and its own loads, whatever other threads do.
//!
//! A [`Seat`] is a group with its pass, and [`Seated`] the group's link, which takes its turns by the seat. The workers
//! ([`submission_worker`], [`device_worker`], [`cleanup_worker`]) take theirs by passes that no group has.
#![tactic(auto)]

mod noted;
mod seat;
mod seated;
mod shared;
mod shared_calls;
mod shared_end;
mod shared_steps;
mod turns;
mod worker_turns;
mod workers;

pub use noted::Noted;
pub use seat::Seat;
pub use seated::Seated;
pub use shared::Shared;
pub use worker_turns::{
    begin_closing, clean_up, execute_one, look, read_all, retire_one, submit_one,
};
pub use workers::{cleanup_worker, device_worker, submission_worker};
