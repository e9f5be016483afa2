//! The commands.

ghost use Rattle.std.specs.Prelude.{◌≡◌, ℕ, Bool, ◌<◌, ◌^◌, [], ◌∷◌, map, Some, IfSome};
ghost use Rattle.std.specs.Fmt.{decimal};
ghost use Rattle.std.specs.String.{string_bytes};
ghost use Rattle.command_line.specs.declared.command.Command.{Command};
ghost use Rattle.command_line.specs.Commands.{AreOptions, AreWorkers, Spells};

use crate::number::number_of;
use crate::options::{is, option_in, without_summary};

/// What the program is asked to do.
#[derive(Clone, Copy, Debug, PartialEq, Eq)]
pub enum Command {
    /// To run a trace from the input on one thread, with this seed for the order of its events, and to write the replies; a summary
    /// too, if it is asked for.
    Once { seed: u64, summary: bool },
    /// To run a trace from the input with a thread for each of its threads, and 1 to 16 device workers.
    Threads { workers: u8 },
    /// To make the trace of this number, run it, and write the summary alone.
    Gen { number: u64 },
}

/// The command that the words after the program's name spell, if they spell one: `once --seed N`, with `--summary` before or after
/// the seed or without it; `threads --workers N`, with N from 1 to 16; or `gen N`. An option and its number may be one word with
/// `=` between them. N is decimal digits without a leading zero, below 2 ^ 64.
pub fn command_of(words: &[String]) -> Option<Command>
    // What is given is spelled so.
    ensures spelled { IfSome result (λ command. Spells (map string_bytes words.now) command) }
    // What is spelled so is given: no words spell two commands, and `None` says that they spell none.
    ensures given { (command : Command) → Spells (map string_bytes words.now) command → result ≡ Some command }
{
    match words {
        [] => None,
        [first, others @ ..] => {
            if is(first, "once") {
                once_of(others)
            } else if is(first, "threads") {
                threads_of(others)
            } else if is(first, "gen") {
                gen_of(others)
            } else {
                None
            }
        }
    }
}

fn once_of(options: &[String]) -> Option<Command>
    ensures spelled { IfSome result (λ command. (seed : ℕ) × (summary : Bool) × (command ≡ Command.Once seed summary) × AreOptions (map string_bytes options.now) seed summary) }
    ensures given { (seed : ℕ) (summary : Bool) → AreOptions (map string_bytes options.now) seed summary → result ≡ Some (Command.Once seed summary) }
{
    let (summary, others) = without_summary(options);
    let seed = option_in(others, "--seed")?;
    Some(Command::Once { seed, summary })
}

fn threads_of(options: &[String]) -> Option<Command>
    ensures spelled { IfSome result (λ command. (workers : ℕ) × (command ≡ Command.Threads workers) × AreWorkers (map string_bytes options.now) workers) }
    ensures given { (workers : ℕ) → AreWorkers (map string_bytes options.now) workers → result ≡ Some (Command.Threads workers) }
{
    let workers = option_in(options, "--workers")?;
    if (1..=16).contains(&workers) {
        Some(Command::Threads {
            workers: workers as u8,
        })
    } else {
        None
    }
}

fn gen_of(words: &[String]) -> Option<Command>
    ensures spelled { IfSome result (λ command. (number : ℕ) × (command ≡ Command.Gen number) × (number < 2 ^ 64) × (map string_bytes words.now ≡ decimal number ∷ [])) }
    ensures given { (number : ℕ) → number < 2 ^ 64 → map string_bytes words.now ≡ decimal number ∷ [] → result ≡ Some (Command.Gen number) }
{
    match words {
        [] => None,
        [number] => Some(Command::Gen {
            number: number_of(number)?,
        }),
        [_, _, ..] => None,
    }
}
