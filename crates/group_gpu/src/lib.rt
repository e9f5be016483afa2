//! A share group that several threads use: its front stands behind a turnstile of the group, together with the group's seat at the
//! turnstile of the back.
//!
//! The entries behind the group's turnstile are its founding and then its answered calls, each of which names the pass of its
//! thread. So a thread's calls stand once in the group's one history, in the order in which the thread made them, and that history
//! is legal by OpenGL ES.
#![tactic(auto)]

mod call_turn;
mod grouped;
mod noted_call;

pub use call_turn::{call_once, look_for_line};
pub use grouped::Grouped;
pub use noted_call::NotedCall;
