//! A lock over a value with a history that only grows. A thread takes its turns by a pass, and the history that a turn gives begins with all that the pass has seen.
//! Beside it lie 64 published numbers that never fall and are read without waiting. `docs/threads.md` says what is promised.
#![tactic(auto)]

mod chronicle;
pub mod diary;
mod pass;
mod rule;
#[cfg(test)]
mod tests;
mod turnstile;

pub use chronicle::{Chronicle, Naming};
pub use pass::{Pass, Turn};
pub use turnstile::Turnstile;
