//! Numbers as words.

ghost use Rattle.std.specs.Prelude.{◌≡◌, ℕ, ◌<◌, ◌≤◌, ◌^◌, pos, neg_ℤ, ◌≤ℤ◌, ◌<ℤ◌, length, IfSome, IsTrue};
ghost use Rattle.std.specs.Option.{SomeIff};
ghost use Rattle.std.specs.List.{list_all};
ghost use Rattle.std.specs.Char.{is_ascii_digit};
ghost use Rattle.std.specs.Str.Parse.{digits_value};
ghost use Rattle.trace_words.specs.Numbers.{is_decimal, decimal_of, number_of, signed_of};

/// The number from `low` to `high` that the word spells.
#[tactic(auto, unfolding(crate::specs::Numbers::number_of))]
pub fn number(word: &[u8], low: u64, high: u64) -> Option<u64>
    ensures value { result ≡ number_of low high word.now }
    ensures range { IfSome result (λ n. (low ≤ n) × (n ≤ high)) }
{
    let value = decimal(word)?;
    if low <= value && value <= high {
        Some(value)
    } else {
        None
    }
}

/// The number below 2 ^ 64 that the word spells.
#[tactic(auto, unfolding(crate::specs::Numbers::decimal_of))]
pub fn decimal(word: &[u8]) -> Option<u64>
    ensures { result ≡ decimal_of word.now }
{
    if is_decimal_word(word) {
        value_of(word)
    } else {
        None
    }
}

/// The number from `-limit` to `limit - 1` that the word spells.
#[tactic(auto, unfolding(crate::specs::Numbers::signed_of))]
pub fn signed_number(word: &[u8], limit: u64) -> Option<i64>
    requires low { 0 < limit }
    requires high { limit ≤ 2 ^ 63 }
    ensures value { result ≡ signed_of limit word.now }
    ensures range { IfSome result (λ z. (neg_ℤ (pos limit) ≤ℤ z) × (z <ℤ pos limit)) }
{
    match word {
        [] => None,
        [b'-', digits @ ..] => {
            let value = number(digits, 1, limit)?;
            Some(-1 - (value - 1) as i64)
        }
        [_, ..] => {
            let value = number(word, 0, limit - 1)?;
            Some(value as i64)
        }
    }
}

pub fn is_decimal_word(word: &[u8]) -> bool
    ensures { result ≡ is_decimal word.now }
{
    match word {
        [] => false,
        [first, others @ ..] => are_digits(word) && (*first != b'0' || others.is_empty()),
    }
}

fn are_digits(word: &[u8]) -> bool
    ensures { result ≡ list_all is_ascii_digit word.now }
{
    word.iter().all(|byte| byte.is_ascii_digit())
}

/// The value of decimal digits, where it is below 2 ^ 64.
fn value_of(digits: &[u8]) -> Option<u64>
    requires { IsTrue (list_all is_ascii_digit digits.now) }
    ensures { SomeIff result (digits_value 10 digits.now < 2 ^ 64) (digits_value 10 digits.now) }
{
    let mut value: u64 = 0;
    for digit in digits {
        value = value
            .checked_mul(10)?
            .checked_add(u64::from(*digit - b'0'))?;
    }
    Some(value)
}
