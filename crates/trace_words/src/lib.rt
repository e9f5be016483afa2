// The words of a trace's lines: how a text is cut into lines and words, and what a word stands for.
//
// `Lines` and `Words` hold slices of the text and copy nothing. A method of `Words` takes the next word and reads it as a number,
// a word of a list or data; which list is said by its name.
#![tactic(auto)]

mod arguments;
mod data;
mod fault;
mod lexing;
mod number;
mod tables;

pub use fault::{Fault, Stop};
pub use lexing::{Lines, Words, at_first};
pub use number::{decimal, is_decimal_word};
pub use tables::word_in;
