//! Why a trace is refused.

ghost use Rattle.std.specs.Prelude.{◌≡◌};
ghost use Rattle.trace_text.specs.declared.stop.ParseStop.TheVariants as parse_stop;

use std::alloc::{AllocError, AllocFailed};
use thiserror::Error;

/// Why a text is no trace: its first faulty line, from 1, and the kind of that fault, 1 to 9; or want of memory. A text that is
/// too long has its fault at line 0.
#[derive(Clone, Copy, Debug, PartialEq, Eq, Error)]
pub enum ParseStop {
    #[error("line {line} is faulty, kind {kind}")]
    Fault { line: u32, kind: u8 },
    #[error("out of memory")]
    Memory,
}

impl From<AllocError> for ParseStop {
    ghost from_gives = { λ _ e. e ≡ parse_stop.Memory };

    fn from(_e: AllocError) -> ParseStop {
        ParseStop::Memory
    }
}

impl<T: Drop> From<AllocFailed<T>> for ParseStop {
    ghost from_gives = { λ _ e. e ≡ parse_stop.Memory };

    fn from(_e: AllocFailed<T>) -> ParseStop {
        ParseStop::Memory
    }
}
