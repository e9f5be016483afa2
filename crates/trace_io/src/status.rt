// How a run of the program ends.
ghost use Rattle.std.specs.Prelude.{◌≡◌};
ghost use Rattle.trace_io.specs.Statuses.{status_number};

/// How a run ended.
#[derive(Clone, Copy, Debug, PartialEq, Eq)]
pub enum Status {
    /// The input was read to its end, every call was answered, and every object was destroyed.
    Ok,
    /// The words are of no command that is served.
    Usage,
    /// The trace is refused at a line, counted from 1 (0 is the whole text), for a reason with this number.
    Trace { line: u32, kind: u8 },
    /// The source failed.
    ReadFault,
    /// The sink failed, or took nothing of a piece that is not empty.
    WriteFault,
    /// The device was lost.
    DeviceLost,
    /// Want of memory.
    Memory,
}

impl Status {
    /// The status with which the process ends: 0, or 2 to 7 in the order of the variants.
    pub fn number(self) -> u8
        ensures { result ≡ status_number self }
    {
        match self {
            Status::Ok => 0,
            Status::Usage => 2,
            Status::Trace { .. } => 3,
            Status::ReadFault => 4,
            Status::WriteFault => 5,
            Status::DeviceLost => 6,
            Status::Memory => 7,
        }
    }
}

/// What is written where the words are of no command that is served.
pub const USAGE_LINE: &str =
    "usage: angle_run once --seed N [--summary] | threads --workers N | gen N\n";
