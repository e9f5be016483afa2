// Whole texts from a source and to a sink.
ghost use Rattle.std.specs.Prelude.{◌≡◌, ◌<◌, ◌≤◌, ◌+◌, ℕ, List, length, take, IfOk, OnOk, Err};
ghost use Rattle.std.specs.Io.KnownBytes.{Appends, Consumes, IsAtEnd};
ghost use Rattle.faults.specs.Faults.{FailsWithCause, Rose};

use crate::{Failed, Sink, Source};
use std::alloc::Global;
use thiserror::Error;

/// Why a text was not read.
#[derive(Clone, Copy, Debug, PartialEq, Eq, Error)]
pub enum ReadStop {
    #[error("the source failed")]
    Failed,
    #[error("more bytes came than are allowed")]
    TooLong,
    #[error("out of memory")]
    Memory,
}

/// The most bytes that are asked of a source at once.
const PIECE: usize = 4096;

/// Reads all there is, up to so many bytes. It ends after one byte more at the latest.
pub fn read_all<S: Source>(alloc: Global, source: &mut S, limit: usize) -> Result<Vec<u8>, ReadStop>
    ensures bytes { IfOk result (λ bytes. Consumes (S.left source.old) (S.left source.new) bytes.items) }
    ensures ended { OnOk result (IsAtEnd (S.left source.new)) }
    ensures short { IfOk result (λ bytes. length bytes.items ≤ limit) }
    ensures long { result ≡ Err ReadStop.TooLong → (bytes : List ℕ) × Consumes (S.left source.old) (S.left source.new) bytes × (length bytes ≡ limit + 1) }
    ensures failed { result ≡ Err ReadStop.Failed → Rose (S.faults source.old) (S.faults source.new) }
    ensures later { S.faults source.old ≤ S.faults source.new }
{
    let mut bytes = Vec::new(alloc);
    let mut piece = [0u8; PIECE];
    while bytes.len() <= limit {
        let wanted = (limit - bytes.len()).min(PIECE - 1) + 1;
        match source.read(&mut piece[..wanted]) {
            Ok(0) => return Ok(bytes),
            Ok(n) => {
                if bytes.extend_from_slice(&piece[..n]).is_err() {
                    return Err(ReadStop::Memory);
                }
            }
            Err(_) => return Err(ReadStop::Failed),
        }
    }
    Err(ReadStop::TooLong)
}

/// Writes all of the bytes, in order. Where that fails, some front of them was taken.
pub fn write_all<K: Sink>(sink: &mut K, bytes: &[u8]) -> Result<(), Failed>
    ensures ok { OnOk result (Appends (K.taken sink.old) (K.taken sink.new) bytes.now) }
    ensures front { (n : ℕ) × Appends (K.taken sink.old) (K.taken sink.new) (take n bytes.now) }
    ensures cause { FailsWithCause (K.faults sink.old) (K.faults sink.new) result }
{
    let mut at = 0;
    while at < bytes.len() {
        match sink.write(&bytes[at..]) {
            Ok(0) => return Err(Failed),
            Ok(n) => at += n,
            Err(_) => return Err(Failed),
        }
    }
    Ok(())
}
