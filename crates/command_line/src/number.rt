//! Numbers as words.

ghost use Rattle.std.specs.Prelude.{◌≡◌, ℕ, Some, IfSome, IsTrue, ◌↔◌};
ghost use Rattle.command_line.specs.Commands.{IsNumber, StartsPlainly};

/// The number that a word spells: decimal digits without a leading zero, below 2 ^ 64.
pub fn number_of(word: &str) -> Option<u64>
    ensures spelled { IfSome result (λ n. IsNumber word.now n) }
    ensures given { (n : ℕ) → IsNumber word.now n → result ≡ Some n }
{
    if !starts_plainly(word.as_bytes()) {
        return None;
    }
    match word.parse::<u64>() {
        Ok(number) => Some(number),
        Err(_) => None,
    }
}

// Whether a word has neither a sign nor a zero in front of another digit.
fn starts_plainly(word: &[u8]) -> bool
    ensures { IsTrue result ↔ StartsPlainly word.now }
{
    !word.is_empty() && word[0] != b'+' && (word[0] != b'0' || word.len() == 1)
}
