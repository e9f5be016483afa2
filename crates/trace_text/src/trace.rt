//! A trace: the calls of its threads.

use gl_calls::Call;

/// What a text spells: its threads, numbered from 0 in their order.
#[derive(Debug, Drop)]
pub struct Trace {
    pub threads: Vec<ThreadPlan>,
}

/// A thread: the number of its share group, 0 to 7, and its calls in their order.
#[derive(Debug, Drop)]
pub struct ThreadPlan {
    pub group: u8,
    pub lines: Vec<Line>,
}

/// A call, the number of its line in the text, from 1, and the line of the same group that has to be answered before the call is made.
#[derive(Debug, Drop)]
pub struct Line {
    pub number: u32,
    pub after: Option<u32>,
    pub call: Call,
}
