// What happens to a world, and what it answers.

/// What is to happen next: a thread makes the call of its next line, or the back makes one step. A cleanup is told the completed
/// numbers that were read, of all indexes.
#[derive(Clone, Copy, Debug, PartialEq, Eq)]
pub enum Event {
    Call(u32),
    Submit,
    Turn,
    Retire,
    Cleanup([u64; 64]),
}

/// What an event did: it happened, there was nothing to do at the back, the thread's next line waits for another one, or the thread
/// has no line left.
#[derive(Clone, Copy, Debug, PartialEq, Eq)]
pub enum Stepped {
    Done,
    Nothing,
    NotReady,
    Ended,
}
