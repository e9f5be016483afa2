// Which of the ready nodes runs.
ghost use Rattle.std.specs.Prelude.{◌≡◌, ◌<◌};
ghost use Rattle.vk_machine.specs.Choices.{chosen, next_choice};

use rand_core::utils::NextWord;
use rand_xoshiro::Xoshiro256PlusPlus;

/// Which of the ready nodes runs: the first or the last in order of acceptance, or the one that the next word names.
#[derive(Debug, Drop)]
pub enum Choice {
    First,
    Last,
    Words(Xoshiro256PlusPlus),
}

impl Choice {
    /// The number of the node that runs, counted from 0 over the ready ones. One word is drawn for it.
    pub fn pick(&mut self, ready: usize) -> usize
        requires { 0 < ready }
        ensures number { result ≡ chosen self.old ready }
        ensures next { self.new ≡ next_choice self.old }
        ensures inside { result < ready }
    {
        match self {
            Choice::First => 0,
            Choice::Last => ready - 1,
            Choice::Words(words) => (words.next_word() % ready as u64) as usize,
        }
    }
}
