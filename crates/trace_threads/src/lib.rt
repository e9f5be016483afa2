//! A trace whose threads run side by side: a thread for each thread of the trace, workers beside them, and one back under all.
//!
//! Each share group stands behind a turnstile of its own (`group_gpu`), and the back behind another one (`shared_gpu`). A [`Gate`]
//! is asked before and after each call of a thread, outside every turnstile; [`OpenGate`] lets all pass, and [`HoldGate`] holds
//! one line until another one was answered. `play_lines` is what a thread of the trace does: it makes the calls of its lines in
//! order, each once the line that it waits for was answered.
#![tactic(auto)]

mod gate;
mod lines;
mod working;

pub use gate::{Gate, HoldGate, OpenGate};
pub use lines::play_lines;
pub use working::run_workers;
