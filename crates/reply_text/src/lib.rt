// The replies to a trace as a text: `render`. docs/reply-format.md has the format in words.
#![tactic(auto)]

mod history;
mod names;
mod rendering;

pub use history::{Counts, GroupHistory, Tail};
pub use rendering::render;
