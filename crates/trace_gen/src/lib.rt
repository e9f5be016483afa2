//! Large traces made from a number.
//!
//! The trace of a number has four threads in two share groups. Each makes two buffers, a texture, a renderbuffer and two framebuffers,
//! then does 500 small things that the number's pseudorandom words choose, and reads its second buffer at the end.
//! docs/trace-format.md has the lines in words.
#![tactic(auto)]

mod first;
mod last;
mod rounds;
mod whole;

pub use whole::generate;
