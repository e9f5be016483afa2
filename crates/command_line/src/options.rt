//! Options and their numbers.

ghost use Rattle.std.specs.Prelude.{◌≡◌, ◌≢◌, ℕ, List, ◌∷◌, ◌++◌, map, codes, Some, IfSome, IsTrue, MatchOption, ◌↔◌};
ghost use Rattle.std.specs.String.{string_bytes};
ghost use Rattle.command_line.specs.Commands.{IsOption, TakesSummary};

use crate::number::number_of;

/// The number of the option that is all of the words, if they are one: `NAME N` or `NAME=N`.
pub fn option_in(words: &[String], name: &str) -> Option<u64>
    ensures spelled { IfSome result (λ n. IsOption name.now (map string_bytes words.now) n) }
    ensures given { (n : ℕ) → IsOption name.now (map string_bytes words.now) n → result ≡ Some n }
{
    match words {
        [] => None,
        [word] => number_of(value_in(word, name)?),
        [word, value] => {
            if is(word, name) {
                number_of(value)
            } else {
                None
            }
        }
        [_, _, _, ..] => None,
    }
}

/// What follows `NAME=` in a word.
fn value_in<'a>(word: &'a str, name: &str) -> Option<&'a str>
    ensures { MatchOption result ((value : List ℕ) → word.now ≢ name.now ++ 61 ∷ value) (λ value. word.now ≡ name.now ++ 61 ∷ value.now) }
{
    word.strip_prefix(name)?.strip_prefix("=")
}

/// Whether `--summary` is the first or the last of the words, and the words but for it.
pub fn without_summary(words: &[String]) -> (bool, &[String])
    ensures { TakesSummary (map string_bytes words.now) result.0 (map string_bytes result.1.now) }
{
    match words {
        [] => (false, words),
        [first, behind @ ..] if is(first, "--summary") => (true, behind),
        [before @ .., last] => {
            if is(last, "--summary") {
                (true, before)
            } else {
                (false, words)
            }
        }
    }
}

/// Whether a word is this text.
pub fn is(word: &str, text: &str) -> bool
    ensures { IsTrue result ↔ (word.now ≡ text.now) }
{
    word == text
}
