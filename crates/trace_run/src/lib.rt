//! A trace from its text to the text of its replies, over any source, sink and device.
//!
//! [`run_once`] serves the command `once`: it reads a text, parses it by `trace_text`, leads a world of its threads (`world_core`) through
//! the schedule of the trace and the seed (`schedule`), and writes the replies by `reply_text`, with a summary by `run_summary` where one
//! is asked for. Of the command `gen` it makes the text by `trace_gen`, and writes the summary alone. So far the calls on contexts, buffers
//! and syncs are built: `first_unbuilt` of `specs/Runs.antt` has the line at which any other trace is refused. `specs/Once.antt` says what
//! a run does with its source, its sink and its device. [`served_trace`] gives the trace of a text to those who step a world themselves.
#![tactic(auto)]

mod built;
mod once;
mod run;
mod saying;

pub use once::{is_threads, run_once, seed_of, served_trace};
