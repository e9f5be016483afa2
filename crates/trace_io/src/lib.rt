//! Where a trace comes from and where the replies go: sources, sinks, reading and writing whole texts, and the
//! statuses with which the program ends.
#![tactic(auto)]

mod adapters;
mod memory;
mod status;
mod streams;
mod whole;

pub use adapters::{StdSink, StdSource};
pub use memory::{MemorySink, MemorySource};
pub use status::{Status, USAGE_LINE};
pub use streams::{Failed, Sink, Source};
pub use whole::{ReadStop, read_all, write_all};
