//! A device in memory: the live objects with their bytes, and the nodes that were accepted and wait. It executes one
//! ready node at each turn, and its choice says which.
#![tactic(auto)]

mod choice;
mod machine;

pub use choice::Choice;
pub use machine::Machine;
