// Bytes of objects, and what is said of contents.
#![tactic(auto)]

ghost use Rattle.std.specs.Prelude.{◌≡◌, ◌⊎◌, ◌+◌, ◌≤◌, ◌==◌, length, replicate, IfOk};
ghost use Rattle.std.specs.Borrow.{sem};
ghost use Rattle.cells.specs.Contents.{part, overwritten};
ghost use Rattle.cells.specs.Lending.{LendsAll};

use std::alloc::{AllocError, Global};
use std::marker::Model;

/// Some bytes.
#[derive(Debug, Drop)]
pub struct Bytes {
    bytes: Vec<u8>,
}

impl Model for Bytes {
    ghost use Rattle.std.specs.Prelude.{List, ℕ};

    ghost Value = { List ℕ };

    ghost view = { λ b. b.bytes.items };
}

impl Bytes {
    pub fn copy_of(alloc: Global, bytes: &[u8]) -> Result<Bytes, AllocError>
        ensures { IfOk result (λ copy. copy ≡ bytes.now) }
    {
        Ok(Bytes {
            bytes: Vec::from_slice(alloc, bytes)?,
        })
    }

    /// The bytes of a vector. This takes no memory.
    pub fn of(bytes: Vec<u8>) -> Bytes
        ensures { result ≡ bytes.items }
    {
        Bytes { bytes }
    }

    pub fn zeroed(alloc: Global, len: usize) -> Result<Bytes, AllocError>
        ensures { IfOk result (λ zeros. zeros ≡ replicate len 0) }
    {
        Ok(Bytes {
            bytes: vec![in alloc; 0; len]?,
        })
    }

    pub fn as_slice(&self) -> &[u8]
        ensures { result.now ≡ self.now }
    {
        self.bytes.as_slice()
    }

    /// The bytes, to be written to.
    pub fn as_mut_slice(&mut self) -> &mut [u8]
        ensures* writes_back { sem 𝓛 (LendsAll self.entry result) }
        ensures value { result.now ≡ self.old }
    {
        self.bytes.as_mut_slice()
    }

    pub fn len(&self) -> usize
        ensures { result ≡ length self.now }
    {
        self.bytes.len()
    }

    pub fn is_empty(&self) -> bool
        ensures { result ≡ (length self.now == 0) }
    {
        self.bytes.is_empty()
    }

    /// Puts bytes in the place of those that stand from `at` on.
    pub fn overwrite(&mut self, at: usize, bytes: &[u8])
        requires { at + length bytes.now ≤ length self.old }
        ensures { self.new ≡ overwritten self.old at bytes.now }
    {
        self.bytes[at..at + bytes.len()].copy_from_slice(bytes);
    }

    /// Copies bytes to a place that does not overlap theirs.
    pub fn move_within(&mut self, from: usize, to: usize, len: usize)
        requires from_inside { from + len ≤ length self.old }
        requires to_inside { to + len ≤ length self.old }
        requires apart { (from + len ≤ to) ⊎ (to + len ≤ from) }
        ensures { self.new ≡ overwritten self.old to (part self.old from len) }
    {
        if from < to {
            let (front, back) = self.bytes.split_at_mut(to);
            back[..len].copy_from_slice(&front[from..from + len]);
        } else {
            let (front, back) = self.bytes.split_at_mut(from);
            front[to..to + len].copy_from_slice(&back[..len]);
        }
    }
}
