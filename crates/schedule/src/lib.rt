//! The schedule of a trace and a seed, and a world that is led through it.
//!
//! A round draws one word of the seed's generator. It has the back make up to three steps, and then one thread that is ready make the call
//! of its next line: `specs/Moves.antt`. The rounds end when every line was answered.
#![tactic(auto)]

mod laws;
mod playing;

pub use laws::calls_are_made;
pub use playing::play;
