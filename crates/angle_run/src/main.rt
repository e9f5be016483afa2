//! Reads a trace of OpenGL ES calls from the input, runs it on a device in memory whose order is drawn by the seed, and writes the replies to the output.
#![tactic(auto)]

mod serving;
#[cfg(test)]
mod tests;

use serving::words_of;
use std::process::ExitCode;
use std::{env, io};
use trace_io::{Status, StdSink, StdSource};
use trace_run::{run_once, seed_of};
use vk_fakes::SoftDevice;

fn main(rt: HostRuntime) -> ExitCode {
    let Ok(words) = words_of(rt.alloc(), env::args(&rt)) else {
        return ExitCode::from(Status::Memory.number());
    };
    let mut source = StdSource::new(rt.reader());
    let mut sink = StdSink::new(io::writer(&rt));
    let device = SoftDevice::seeded(rt.alloc(), seed_of(&words));
    let (status, device) = run_once(rt.alloc(), &words, &mut source, &mut sink, device);
    drop(device);
    ExitCode::from(status.number())
}
