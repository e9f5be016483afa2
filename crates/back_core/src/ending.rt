// How a back ends, and what its calls answer.
ghost use Rattle.std.specs.Prelude.{◌≡◌};
ghost use Rattle.back_core.specs.Back.{is_stopped};

use vk_types::Stop;

/// Whether a back runs, is closing, or was stopped, and by what.
#[derive(Clone, Copy, Debug, PartialEq, Eq)]
pub enum Ending {
    Running,
    Closing,
    Stopped(Stop),
}

impl Ending {
    /// Whether the back was stopped.
    pub fn is_stopped(&self) -> bool
        ensures { result ≡ is_stopped self.now }
    {
        match self {
            Ending::Running | Ending::Closing => false,
            Ending::Stopped(_) => true,
        }
    }
}

/// Whether a step was made, or there was none to make.
#[derive(Clone, Copy, Debug, PartialEq, Eq)]
pub enum Step {
    Done,
    Nothing,
}

/// What is left to do: a batch that was not accepted, a node that was not executed, a batch that was not retired, and
/// garbage.
#[derive(Clone, Copy, Debug, PartialEq, Eq)]
pub struct Left {
    pub flushed: bool,
    pub nodes: bool,
    pub batches: bool,
    pub garbage: bool,
}
