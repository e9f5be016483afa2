//! What several threads of a trace ask of their share groups: definitions of a play, and its laws.
//!
//! A play is told by how many lines of each thread were answered and by the history of each group (`specs/Plays.antt`). It goes on
//! by one line at a time: the next one of any thread whose line is ready.
#![tactic(auto)]

mod laws;

pub use laws::{plays_go_on, some_thread_is_ready};
