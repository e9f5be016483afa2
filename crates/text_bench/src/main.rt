//! Reads a trace of OpenGL ES calls from the input, and writes whether it was accepted. `bench/texts.py` times it.
#![tactic(auto)]

use std::io;
use trace_io::{Sink, StdSink, StdSource, read_all, write_all};
use trace_text::parse;

/// The greatest length of a text, and one byte.
const LIMIT: usize = 67_108_865;

fn main(rt: HostRuntime) -> io::Result<()> {
    let mut source = StdSource::new(rt.reader());
    let mut sink = StdSink::new(io::writer(&rt));
    let verdict: &[u8] = match read_all(rt.alloc(), &mut source, LIMIT) {
        Ok(text) => match parse(rt.alloc(), &text) {
            Ok(_) => b"a trace\n",
            Err(_) => b"no trace\n",
        },
        Err(_) => b"not read\n",
    };
    let _ = write_all(&mut sink, verdict);
    Ok(())
}
