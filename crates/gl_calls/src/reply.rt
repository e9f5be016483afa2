ghost use Rattle.std.specs.Prelude.{◌≡◌, IfOk};

use crate::call::Call;
use cells::Bytes;
use formats::{EglError, FbStatus};
use std::alloc::{AllocError, Global};
use std::marker::Model;

/// The errors of OpenGL ES, as GetError answers them. (OpenGL ES 3.0.6, GL Errors.)
#[derive(Clone, Copy, Debug, PartialEq, Eq)]
pub enum GlError {
    NoError,
    InvalidEnum,
    InvalidValue,
    InvalidOperation,
    InvalidFramebufferOperation,
    OutOfMemory,
}

/// What a wait for a sync answers. A refused wait answers `Reply::WaitFailed`.
#[derive(Clone, Copy, Debug, PartialEq, Eq)]
pub enum Waited {
    AlreadySignaled,
    TimeoutExpired,
    ConditionSatisfied,
}

/// The names that Gen answers, seen as a list.
#[derive(Drop, Debug)]
pub struct NameList {
    items: Vec<u32>,
}

impl Model for NameList {
    ghost use Rattle.std.specs.Prelude.{List, ℕ};

    ghost Value = { List ℕ };

    ghost view = { λ n. n.items.items };
}

impl NameList {
    /// The list of a vector's names. This takes no memory.
    pub fn of(items: Vec<u32>) -> NameList
        ensures { result ≡ items.items }
    {
        NameList { items }
    }

    /// The vector back. This takes no memory.
    pub fn into_vec(self) -> Vec<u32>
        ensures { result.items ≡ self }
    {
        self.items
    }

    /// The names in their order.
    pub fn as_slice(&self) -> &[u32]
        ensures { result.now ≡ self.now }
    {
        self.items.as_slice()
    }

    /// A list of the same names.
    pub fn copy(&self, alloc: Global) -> Result<NameList, AllocError>
        ensures { IfOk result (λ copy. copy ≡ self.now) }
    {
        Ok(NameList {
            items: Vec::from_slice(alloc, self.items.as_slice())?,
        })
    }
}

/// What a call answers. `Done` is an accepted call without a value. From `GlFault` to `Taken` are the refusals: an error of
/// OpenGL ES or of EGL, no current context, no such range of a map, a client pointer where a buffer is bound (or the reverse),
/// a number that exists. From `GlFlag` on are the values of accepted calls, and `WaitFailed` is a refused ClientWaitSync.
#[derive(Drop, Debug)]
pub enum Reply {
    Done,
    GlFault(GlError),
    EglFault(EglError),
    NoContext,
    NoMap,
    BadPointer,
    Taken,
    Names(NameList),
    Bytes(Bytes),
    Status(FbStatus),
    GlFlag(GlError),
    EglFlag(EglError),
    True,
    Limit(u32),
    Waited(Waited),
    WaitFailed,
}

impl Reply {
    /// A reply of the same value.
    pub fn copy(&self, alloc: Global) -> Result<Reply, AllocError>
        ensures { IfOk result (λ copy. copy ≡ self.now) }
    {
        Ok(match self {
            Reply::Done => Reply::Done,
            Reply::GlFault(error) => Reply::GlFault(*error),
            Reply::EglFault(error) => Reply::EglFault(*error),
            Reply::NoContext => Reply::NoContext,
            Reply::NoMap => Reply::NoMap,
            Reply::BadPointer => Reply::BadPointer,
            Reply::Taken => Reply::Taken,
            Reply::Names(names) => Reply::Names(names.copy(alloc)?),
            Reply::Bytes(bytes) => Reply::Bytes(Bytes::copy_of(alloc, bytes.as_slice())?),
            Reply::Status(status) => Reply::Status(*status),
            Reply::GlFlag(error) => Reply::GlFlag(*error),
            Reply::EglFlag(error) => Reply::EglFlag(*error),
            Reply::True => Reply::True,
            Reply::Limit(limit) => Reply::Limit(*limit),
            Reply::Waited(waited) => Reply::Waited(*waited),
            Reply::WaitFailed => Reply::WaitFailed,
        })
    }
}

/// One call of a history, with its reply: the thread that made it and the line of the trace where it stands.
#[derive(Drop, Debug)]
pub struct Entry {
    pub thread: u32,
    pub line: u32,
    pub call: Call,
    pub reply: Reply,
}

impl Entry {
    /// An entry of the same value.
    pub fn copy(&self, alloc: Global) -> Result<Entry, AllocError>
        ensures { IfOk result (λ copy. copy ≡ self.now) }
    {
        Ok(Entry {
            thread: self.thread,
            line: self.line,
            call: self.call.copy(alloc)?,
            reply: self.reply.copy(alloc)?,
        })
    }
}
