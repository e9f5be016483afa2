//! A text as lines, and a line as words.

ghost use Rattle.std.specs.Prelude.{◌≡◌, ℕ, ◌<◌, [], ◌∷◌, List, length, MatchOption};
ghost use Rattle.trace_words.specs.Lexing.{lines_of, words_of, words_left, after_spaces, at_byte, after_at};
ghost use Rattle.std.specs.Option.{option_map, option_copied};

use std::marker::Model;

const LINE_FEED: u8 = 10;

const SPACE: u8 = 32;

/// The lines of a text that are left to read.
#[derive(Drop)]
pub struct Lines<'a> {
    rest: &'a [u8],
}

impl<'a> Model for Lines<'a> {
    ghost Value = { List (List ℕ) };

    ghost view = { λ lines. lines_of lines.rest.now };
}

impl<'a> Lines<'a> {
    pub fn new(text: &'a [u8]) -> Lines<'a>
        ensures { result ≡ lines_of text.now }
    {
        Lines { rest: text }
    }

    pub fn next(&mut self) -> Option<&'a [u8]>
        ensures { MatchOption result ((self.old ≡ []) × (self.new ≡ [])) (λ line. self.old ≡ line.now ∷ self.new) }
    {
        if self.rest.is_empty() {
            return None;
        }
        let (line, rest) = split_line(self.rest);
        self.rest = rest;
        Some(line)
    }
}

/// The first line, and what follows it.
fn split_line(text: &[u8]) -> (&[u8], &[u8])
    requires { 0 < length text.now }
    ensures { lines_of text.now ≡ result.0.now ∷ lines_of result.1.now }
{
    for (i, byte) in text.iter().enumerate() {
        if *byte == LINE_FEED {
            return (&text[..i], &text[i + 1..]);
        }
    }
    (text, &text[text.len()..])
}

/// The words of a line that are left to read.
#[derive(Drop)]
pub struct Words<'a> {
    rest: Option<&'a [u8]>,
}

impl<'a> Model for Words<'a> {
    ghost Value = { List (List ℕ) };

    ghost view = { λ words. words_left words.rest };
}

impl<'a> Words<'a> {
    pub fn new(line: &'a [u8]) -> Words<'a>
        ensures { result ≡ words_of line.now }
    {
        Words { rest: Some(line) }
    }

    pub fn next(&mut self) -> Option<&'a [u8]>
        ensures { MatchOption result ((self.old ≡ []) × (self.new ≡ [])) (λ word. self.old ≡ word.now ∷ self.new) }
    {
        let (word, rest) = split_word(self.rest?);
        self.rest = rest;
        Some(word)
    }

    /// What stands behind the `@` of the next word, which is taken only if it begins so.
    #[tactic(auto, unfolding(crate::specs::Lexing::after_at))]
    pub fn next_after_at(&mut self) -> Option<&'a [u8]>
        ensures { (option_copied result, self.new) ≡ after_at self.old }
    {
        let (word, rest) = split_word(self.rest?);
        match word {
            [b'@', name @ ..] => {
                self.rest = rest;
                Some(name)
            }
            _ => None,
        }
    }

    /// How many words are left.
    pub fn count(&self) -> usize
        ensures { result ≡ length self.now }
    {
        match self.rest {
            None => 0,
            Some(rest) => count_words(rest),
        }
    }
}

/// The first word, and what follows the spaces behind it.
fn split_word(line: &[u8]) -> (&[u8], Option<&[u8]>)
    ensures { words_of line.now ≡ result.0.now ∷ words_left result.1 }
{
    for (i, byte) in line.iter().enumerate() {
        if *byte == SPACE {
            return (&line[..i], Some(skip_spaces(&line[i + 1..])));
        }
    }
    (line, None)
}

fn count_words(line: &[u8]) -> usize
    ensures { result ≡ length (words_of line.now) }
{
    let mut words = Words::new(line);
    let mut count = 0;
    while words.next().is_some() {
        count += 1;
    }
    count
}

/// What follows the spaces in front.
fn skip_spaces(text: &[u8]) -> &[u8]
    ensures { result.now ≡ after_spaces text.now }
{
    for (i, byte) in text.iter().enumerate() {
        if *byte != SPACE {
            return &text[i..];
        }
    }
    &text[text.len()..]
}

/// What comes before the first such byte, and what comes after it.
pub fn at_first(text: &[u8], byte: u8) -> Option<(&[u8], &[u8])>
    ensures { option_map (λ parts. (parts.0.now, parts.1.now)) result ≡ at_byte byte text.now }
{
    for (i, here) in text.iter().enumerate() {
        if *here == byte {
            return Some((&text[..i], &text[i + 1..]));
        }
    }
    None
}
