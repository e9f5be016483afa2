// What is told of a context, and the answers of the calls.
use vk_types::SerialIndex;

/// What the table has of a context beside its number.
#[derive(Clone, Copy, Debug, PartialEq, Eq)]
pub struct ContextState {
    /// The index of its serials.
    pub index: SerialIndex,
    /// Whether it was destroyed while current, and ends when its thread lets go of it.
    pub marked: bool,
    /// The thread where it is current.
    pub thread: Option<u32>,
}

/// The blank of an unused place.
impl Default for ContextState {
    fn default() -> ContextState {
        ContextState {
            index: SerialIndex::new(0),
            marked: false,
            thread: None,
        }
    }
}

/// A context, with its number.
#[derive(Clone, Copy, Debug, PartialEq, Eq)]
pub struct ContextFacts {
    pub number: u16,
    pub index: SerialIndex,
    pub marked: bool,
    pub thread: Option<u32>,
}

/// Why no context is created (EGL 1.5, Creating Rendering Contexts).
#[derive(Clone, Copy, Debug, PartialEq, Eq)]
pub enum CreateStop {
    /// A context has the number, marked or not.
    Taken,
    /// There are eight contexts, marked ones counted.
    BadAlloc,
}

/// What a thread gave up as it took another context, or none.
#[derive(Clone, Copy, Debug, PartialEq, Eq)]
pub struct Switched {
    /// The index of the context that was current before and is no more.
    pub replaced: Option<SerialIndex>,
    /// The same index, where that context was marked and so ends now.
    pub ended: Option<SerialIndex>,
}
