//! The program's commands, as its command line spells them.
#![tactic(auto)]

mod command;
mod number;
mod options;

pub use command::{Command, command_of};
