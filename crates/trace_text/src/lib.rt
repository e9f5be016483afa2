// A trace of calls as a text, and the replies to it as a text.
//
// `parse` gives the trace that a text spells, or its first fault: the relation `Spells` of specs/Traces says what a text spells, and
// `trace_of` of specs/Reading which fault comes on which line. `traces_are_in_order` says what holds of each trace (specs/Orders).
// docs/trace-format.md has the format in words.
#![tactic(auto)]

mod call_word;
mod calls;
mod laws;
mod limits;
mod parsing;
mod phase;
mod reader;
mod stop;
mod trace;

pub use laws::traces_are_in_order;
pub use parsing::parse;
pub use reply_text::{Counts, GroupHistory, Tail, render};
pub use stop::ParseStop;
pub use trace::{Line, ThreadPlan, Trace};
