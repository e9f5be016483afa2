//! Bytes as words.

ghost use Rattle.std.specs.Prelude.{◌≡◌, ◌<◌, length, IfOk};
ghost use Rattle.std.specs.List.{list_all};
ghost use Rattle.trace_words.specs.Faults.{Gives, Reads};
ghost use Rattle.trace_words.specs.Data.{hex_digit, hex_byte, hex_bytes, ramp_of, payload_of, access_letters, is_letter, is_once_at_most, are_letters, access_of};

use crate::fault::{Fault, Stop};
use crate::lexing::at_first;
use crate::number::number;
use cells::Bytes;
use gl_calls::{AccessWord, Payload};
use std::alloc::Global;

const LONGEST_RAMP: u64 = 67_108_864;

const ACCESS_LETTERS: [u8; 7] = *b"rwiIufx";

/// The bytes of a data word.
#[tactic(auto, unfolding(crate::specs::Data::payload_of))]
pub fn payload(alloc: Global, word: &[u8]) -> Result<Payload, Stop>
    ensures { Gives result (payload_of word.now) }
{
    match word {
        [] => Err(Stop::Fault(Fault::Data)),
        [b'%', text @ ..] => Ok(ramp(text)?),
        [b'-'] => Ok(Payload::Literal(Bytes::of(Vec::new(alloc)))),
        [_, ..] => Ok(Payload::Literal(hex(alloc, word)?)),
    }
}

/// The ramp that `len,start,step` spells.
#[tactic(auto, unfolding(crate::specs::Data::ramp_of))]
fn ramp(text: &[u8]) -> Result<Payload, Fault>
    ensures { result ≡ ramp_of text.now }
{
    let (len, others) = at_first(text, b',').ok_or(Fault::Data)?;
    let (start, step) = at_first(others, b',').ok_or(Fault::Data)?;
    let len = number(len, 0, LONGEST_RAMP).ok_or(Fault::Data)? as u32;
    let start = number(start, 0, 255).ok_or(Fault::Data)? as u8;
    let step = number(step, 0, 255).ok_or(Fault::Data)? as u8;
    Ok(Payload::Ramp { len, start, step })
}

/// The letters of an access word.
#[tactic(auto, unfolding(crate::specs::Data::access_of))]
pub fn access(word: &[u8]) -> Option<AccessWord>
    ensures { result ≡ access_of word.now }
{
    if word != b"-".as_slice() && (word.is_empty() || !are_access_letters(word)) {
        return None;
    }
    Some(AccessWord {
        read: word.contains(&b'r'),
        write: word.contains(&b'w'),
        invalidate_range: word.contains(&b'i'),
        invalidate_buffer: word.contains(&b'I'),
        unsynchronized: word.contains(&b'u'),
        flush_explicit: word.contains(&b'f'),
        unknown: word.contains(&b'x'),
    })
}

fn are_access_letters(word: &[u8]) -> bool
    ensures { result ≡ are_letters word.now }
{
    has_letters_alone(word) && is_each_once_at_most(word)
}

fn has_letters_alone(word: &[u8]) -> bool
    ensures { result ≡ list_all is_letter word.now }
{
    word.iter().all(|byte| is_access_letter(*byte))
}

fn is_each_once_at_most(word: &[u8]) -> bool
    ensures { result ≡ list_all (λ letter. is_once_at_most letter word.now) access_letters }
{
    ACCESS_LETTERS
        .iter()
        .all(|letter| stands_once_at_most(word, *letter))
}

fn is_access_letter(byte: u8) -> bool
    ensures { result ≡ is_letter byte }
{
    ACCESS_LETTERS.contains(&byte)
}

fn stands_once_at_most(word: &[u8], letter: u8) -> bool
    ensures { result ≡ is_once_at_most letter word.now }
{
    word.iter().filter(|byte| **byte == letter).count() <= 1
}

/// The bytes that pairs of digits spell.
fn hex(alloc: Global, word: &[u8]) -> Result<Bytes, Stop>
    ensures { Gives result (hex_bytes word.now) }
{
    let mut bytes = Vec::new(alloc);
    let mut rest = word;
    while !rest.is_empty() {
        let (byte, others) = first_byte(rest)?;
        bytes.push(byte)?;
        rest = others;
    }
    Ok(Bytes::of(bytes))
}

/// The first byte, and what follows its two digits.
#[tactic(auto, unfolding(crate::specs::Data::hex_byte))]
fn first_byte(word: &[u8]) -> Result<(u8, &[u8]), Fault>
    ensures value { Reads (λ x. (x.0, x.1.now)) result (hex_byte word.now) }
    ensures shorter { IfOk result (λ x. length x.1.now < length word.now) }
{
    match word {
        [high, low, rest @ ..] => Ok((hex_value(*high)? * 16 + hex_value(*low)?, rest)),
        _ => Err(Fault::Data),
    }
}

fn hex_value(digit: u8) -> Result<u8, Fault>
    ensures value { result ≡ hex_digit digit }
    ensures range { IfOk result (λ n. n < 16) }
{
    match digit {
        b'0'..=b'9' => Ok(digit - b'0'),
        b'a'..=b'f' => Ok(digit - b'a' + 10),
        _ => Err(Fault::Data),
    }
}
