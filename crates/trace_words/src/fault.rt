//! What can be wrong with a line of a trace.

ghost use Rattle.std.specs.Prelude.{◌≡◌};
ghost use Rattle.trace_words.specs.declared.fault.Stop.TheVariants as stop;

use std::alloc::{AllocError, AllocFailed};

/// What is wrong with a line: a byte that is no text, a word that is not of its list, the number of arguments, a number,
/// a data word, an unknown thread, a call out of this profile, too many or too costly calls, data of another length than stated.
#[derive(Clone, Copy, Debug, PartialEq, Eq)]
pub enum Fault {
    NotText,
    Word,
    Count,
    Number,
    Data,
    Thread,
    Profile,
    TooLong,
    Length,
}

/// Why reading stopped: want of memory, or a fault.
#[derive(Debug, Drop)]
pub enum Stop {
    Memory,
    Fault(Fault),
}

impl From<Fault> for Stop {
    ghost from_gives = { λ f e. e ≡ stop.Fault f };

    fn from(fault: Fault) -> Stop {
        Stop::Fault(fault)
    }
}

impl From<AllocError> for Stop {
    ghost from_gives = { λ _ e. e ≡ stop.Memory };

    fn from(_e: AllocError) -> Stop {
        Stop::Memory
    }
}

impl<T: Drop> From<AllocFailed<T>> for Stop {
    ghost from_gives = { λ _ e. e ≡ stop.Memory };

    fn from(_e: AllocFailed<T>) -> Stop {
        Stop::Memory
    }
}
