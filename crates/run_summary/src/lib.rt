//! The summary of a run: what its histories and the device's journal count (`specs/Counting.antt`). `docs/reply-format.md` has the form in
//! words.
#![tactic(auto)]

mod counting;
mod executed;

pub use counting::counts_of;
