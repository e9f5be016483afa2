// Sources and sinks over std's readers and writers. Nothing is proved of what these give and take.
ghost use Rattle.std.specs.Prelude.{◌≡◌};

use crate::{Failed, Sink, Source};
use faults::FaultCount;
use std::io::{Read, Write};

/// A reader with a count of its failures.
#[derive(Drop)]
pub struct StdSource<R> {
    inner: R,
    faults: FaultCount,
}

impl<R> StdSource<R> {
    pub fn new(inner: R) -> StdSource<R>
        ensures inner { result.inner ≡ inner }
        ensures faults { result.faults ≡ 0 }
    {
        StdSource {
            inner,
            faults: FaultCount::new(),
        }
    }
}

impl<R: Read> Source for StdSource<R> {
    ghost left = { λ s. R.remaining s.inner };

    ghost faults = { λ s. s.faults };

    fn read(&mut self, out: &mut [u8]) -> Result<usize, Failed> {
        match self.inner.read(out) {
            Ok(count) => Ok(count),
            Err(_) => {
                self.faults.rise();
                Err(Failed)
            }
        }
    }
}

/// A writer with a count of its failures, and of the writes that took nothing.
#[derive(Drop)]
pub struct StdSink<W> {
    inner: W,
    faults: FaultCount,
}

impl<W> StdSink<W> {
    pub fn new(inner: W) -> StdSink<W>
        ensures inner { result.inner ≡ inner }
        ensures faults { result.faults ≡ 0 }
    {
        StdSink {
            inner,
            faults: FaultCount::new(),
        }
    }
}

impl<W: Write> Sink for StdSink<W> {
    ghost taken = { λ s. W.contents s.inner };

    ghost faults = { λ s. s.faults };

    fn write(&mut self, bytes: &[u8]) -> Result<usize, Failed> {
        match self.inner.write(bytes) {
            Ok(0) => {
                self.faults.rise();
                Ok(0)
            }
            Ok(count) => Ok(count),
            Err(_) => {
                self.faults.rise();
                Err(Failed)
            }
        }
    }
}
