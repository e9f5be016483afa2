// A source and a sink in memory, with calls that are to fail.
ghost use Rattle.std.specs.Prelude.{◌≡◌, ◌≤◌, ◌<◌, ◌-◌, ◌++◌, [], length, take, drop, min, IfOk, OnOk, is_err, Ok};
ghost use Rattle.std.specs.Io.{ReadsAtMost};
ghost use Rattle.std.specs.Io.KnownBytes.{ReadConsumes, WriteAppends};
ghost use Rattle.std.specs.Prelude.{Some};
ghost use Rattle.faults.specs.Faults.{FailsWithCause, Rose};
ghost use Rattle.trace_io.specs.Memory.{MemorySourceModel, MemorySinkModel, next_call, is_listed};

use crate::{Failed, Sink, Source};
use faults::FaultCount;
use std::alloc::{AllocError, Global};
use std::marker::Model;

/// A source of given bytes. The calls of `read` whose numbers, counted from 1, are listed answer `Failed`.
#[derive(Debug, Drop)]
pub struct MemorySource {
    bytes: Vec<u8>,
    at: usize,
    fails: Vec<u64>,
    calls: u64,
    faults: FaultCount,
}

impl Model for MemorySource {
    ghost use Rattle.std.specs.Prelude.{◌≤◌, drop, length};
    ghost use Rattle.trace_io.specs.Memory.{MemorySourceModel};

    ghost Value = { MemorySourceModel };

    ghost view = { λ s. record { left = drop s.at s.bytes.items; fails = s.fails.items; calls = s.calls; faults = s.faults } };

    ghost invariant = { λ s. s.at ≤ length s.bytes.items };
}

impl MemorySource {
    pub fn new(bytes: Vec<u8>, fails: Vec<u64>) -> MemorySource
        ensures { result ≡ record { left = bytes.items; fails = fails.items; calls = 0; faults = 0 } }
    {
        MemorySource {
            bytes,
            at: 0,
            fails,
            calls: 0,
            faults: FaultCount::new(),
        }
    }
}

impl Source for MemorySource {
    ghost left = { λ s. Some s.left };

    ghost faults = { λ s. s.faults };

    fn read(&mut self, out: &mut [u8]) -> Result<usize, Failed>
        requires { 0 < length out.old }
        ensures bound { ReadsAtMost result out.new }
        ensures bytes { ReadConsumes (Some self.old.left) (Some self.new.left) result out.new }
        ensures cause { FailsWithCause self.old.faults self.new.faults result }
        ensures count { IfOk result (λ n. n ≡ min (length out.old) (length self.old.left)) }
        ensures fails { is_err result ≡ is_listed self.old.fails (next_call self.old.calls) }
        ensures calls { (self.new.fails ≡ self.old.fails) × (self.new.calls ≡ next_call self.old.calls) }
        ensures faults { OnOk result (self.new.faults ≡ self.old.faults) }
    {
        self.calls = self.calls.saturating_add(1);
        if self.fails.contains(&self.calls) {
            self.faults.rise();
            return Err(Failed);
        }
        let rest = &self.bytes[self.at..];
        let count = out.len().min(rest.len());
        out[..count].copy_from_slice(&rest[..count]);
        self.at += count;
        Ok(count)
    }
}

/// A sink with room for so many bytes, which takes so many of them in one write at most. The calls of `write` whose
/// numbers, counted from 1, are listed answer `Failed`.
#[derive(Debug, Drop)]
pub struct MemorySink {
    bytes: Vec<u8>,
    len: usize,
    piece: usize,
    fails: Vec<u64>,
    calls: u64,
    faults: FaultCount,
}

impl Model for MemorySink {
    ghost use Rattle.std.specs.Prelude.{◌≤◌, take, length};
    ghost use Rattle.trace_io.specs.Memory.{MemorySinkModel};

    ghost Value = { MemorySinkModel };

    ghost view = { λ s. record { taken = take s.len s.bytes.items; room = length s.bytes.items; piece = s.piece; fails = s.fails.items; calls = s.calls; faults = s.faults } };

    ghost invariant = { λ s. s.len ≤ length s.bytes.items };
}

impl MemorySink {
    /// The room is taken when the sink is made.
    pub fn new(
        alloc: Global,
        room: usize,
        piece: usize,
        fails: Vec<u64>,
    ) -> Result<MemorySink, AllocError>
        ensures { IfOk result (λ sink. sink ≡ record { taken = []; room = room; piece = piece; fails = fails.items; calls = 0; faults = 0 }) }
    {
        Ok(MemorySink {
            bytes: vec![in alloc; 0; room]?,
            len: 0,
            piece,
            fails,
            calls: 0,
            faults: FaultCount::new(),
        })
    }

    /// The bytes that the sink has taken.
    pub fn bytes(&self) -> &[u8]
        ensures { result.now ≡ self.now.taken }
    {
        &self.bytes[..self.len]
    }
}

impl Sink for MemorySink {
    ghost taken = { λ s. Some s.taken };

    ghost faults = { λ s. s.faults };

    fn write(&mut self, bytes: &[u8]) -> Result<usize, Failed>
        requires { 0 < length bytes.now }
        ensures bound { IfOk result (λ n. n ≤ length bytes.now) }
        ensures bytes { WriteAppends (Some self.old.taken) (Some self.new.taken) result bytes.now }
        ensures none { result ≡ Ok 0 → Rose self.old.faults self.new.faults }
        ensures cause { FailsWithCause self.old.faults self.new.faults result }
        ensures count { IfOk result (λ n. n ≡ min (length bytes.now) (min self.old.piece (self.old.room - length self.old.taken))) }
        ensures fails { is_err result ≡ is_listed self.old.fails (next_call self.old.calls) }
        ensures calls { (self.new.fails ≡ self.old.fails) × (self.new.calls ≡ next_call self.old.calls) }
        ensures room { (self.new.room ≡ self.old.room) × (self.new.piece ≡ self.old.piece) }
    {
        self.calls = self.calls.saturating_add(1);
        if self.fails.contains(&self.calls) {
            self.faults.rise();
            return Err(Failed);
        }
        let room = self.bytes.len() - self.len;
        let count = bytes.len().min(self.piece.min(room));
        if count == 0 {
            self.faults.rise();
            return Ok(0);
        }
        let end = self.len + count;
        self.bytes[self.len..end].copy_from_slice(&bytes[..count]);
        self.len = end;
        Ok(count)
    }
}
