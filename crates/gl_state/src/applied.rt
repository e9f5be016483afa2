// What an accepted call answers and switches.
ghost use Rattle.std.specs.Prelude.{◌≡◌, false, unwrap_or};
ghost use Rattle.tables.specs.Table.{entry};
ghost use Rattle.gl_calls.specs.Words.{limit_of};
ghost use Rattle.gl_model.specs.Bindings.{current_entry};
ghost use Rattle.gl_state.specs.Applied.{is_gen, gl_reply, reply_of, switched_from, ended_at_once, switched_by};

use crate::contexts::current_mark;
use crate::nameless::Ended;
use formats::EglError;
use gl_calls::{Call, LimitName, PixelDestination, Reply};
use gl_model::{Context, GroupState};

/// The contexts that a call replaced and ended, by their numbers. Where a context that is given up is marked, it is both.
#[derive(Clone, Copy, Debug, PartialEq, Eq)]
pub struct Switched {
    pub replaced: Option<u32>,
    pub ended: Option<u32>,
}

/// What an accepted call did beside changing the state.
#[derive(Debug, Drop)]
pub struct Applied {
    /// The reply. It is none exactly for a read through a map, a read of pixels by the client, and the waits of the client.
    pub reply: Option<Reply>,
    /// The objects that stopped existing.
    pub ended: Ended,
    /// The contexts that were replaced and ended.
    pub switched: Switched,
}

/// A limit that GetIntegerv answers.
fn limit_of(limit: LimitName) -> u32
    ensures { result ≡ limit_of limit }
{
    match limit {
        LimitName::MaxTextureSize | LimitName::MaxRenderbufferSize => 2048,
        LimitName::MaxColorAttachments | LimitName::MaxDrawBuffers => 4,
        LimitName::Other => 0,
    }
}

/// The reply of a call of OpenGL ES that generates no names.
fn gl_reply(group: &GroupState, context: &Context, call: &Call) -> Option<Reply>
    requires { is_gen call.now ≡ false }
    ensures { result ≡ gl_reply group.now context.now call.now }
{
    match call {
        Call::GetError => Some(Reply::GlFlag(context.error)),
        Call::GetInteger { limit } => Some(Reply::Limit(limit_of(*limit))),
        Call::UnmapBuffer { .. } => Some(Reply::True),
        Call::CheckFramebufferStatus { target } => {
            let name = context.framebuffer_name(*target);
            Some(Reply::Status(group.status(context.framebuffer(name))))
        }
        Call::MapRead { .. } | Call::ClientWaitSync { .. } => None,
        Call::ReadPixels { destination, .. } => match destination {
            PixelDestination::Client => None,
            PixelDestination::Offset(_) => Some(Reply::Done),
        },
        _ => Some(Reply::Done),
    }
}

/// The EGL error of a thread.
fn egl_error(group: &GroupState, thread: u32) -> EglError
    ensures { result ≡ unwrap_or (entry thread group.now.threads) EglError.Success }
{
    match group.threads.get(thread) {
        Some(error) => *error,
        None => EglError::Success,
    }
}

/// The reply of a call that generates no names.
pub fn reply_of(group: &GroupState, thread: u32, call: &Call) -> Option<Reply>
    requires { is_gen call.now ≡ false }
    ensures { result ≡ reply_of group.now thread call.now }
{
    match call {
        Call::EglGetError => Some(Reply::EglFlag(egl_error(group, thread))),
        Call::EglClientWaitSync { .. } => None,
        _ => {
            if call.is_egl() {
                return Some(Reply::Done);
            }
            match group.current(thread) {
                Some(context) => gl_reply(group, context, call),
                None => None,
            }
        }
    }
}

/// What a thread gives up as it takes another context, or none.
fn switched_from(group: &GroupState, thread: u32, number: u32) -> Switched
    ensures { result ≡ switched_from number (current_entry group.now thread) }
{
    match current_mark(&group.contexts, thread) {
        Some((n, marked)) if n != number => Switched {
            replaced: Some(n),
            ended: if marked { Some(n) } else { None },
        },
        _ => Switched {
            replaced: None,
            ended: None,
        },
    }
}

/// The context of a number, if it ends as it is destroyed.
fn ended_at_once(group: &GroupState, number: u32) -> Option<u32>
    ensures { result ≡ ended_at_once number (entry number group.now.contexts) }
{
    match group.contexts.get(number) {
        Some(context) => match context.thread {
            Some(_) => None,
            None => Some(number),
        },
        None => None,
    }
}

/// The contexts that a call replaces and ends.
pub fn switched_by(group: &GroupState, thread: u32, call: &Call) -> Switched
    ensures { result ≡ switched_by group.now thread call.now }
{
    match call {
        Call::MakeCurrent { number } => switched_from(group, thread, u32::from(*number)),
        Call::DestroyContext { number } => Switched {
            replaced: None,
            ended: ended_at_once(group, u32::from(*number)),
        },
        _ => Switched {
            replaced: None,
            ended: None,
        },
    }
}
