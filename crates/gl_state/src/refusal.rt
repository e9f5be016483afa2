// What a refused call changes: the errors alone.
ghost use Rattle.std.specs.Prelude.{◌≡◌, IsTrue, Some};
ghost use Rattle.tables.specs.Table.{has};
ghost use Rattle.gl_model.specs.Legal.{refused_group, note_gl_error};
ghost use Rattle.gl_model.specs.Refusal.{refusal};

use crate::contexts::{current_number, note_error};
use crate::state::SharedState;
use gl_calls::{Call, GlError, Reply};

/// Notes a GL error in the context that is current on a thread. An error that stands there already stays.
fn note_gl_error(state: &mut SharedState, thread: u32, error: GlError)
    ensures { state.new ≡ note_gl_error state.old thread error }
{
    let number = current_number(&state.group.contexts, thread);
    note_error(&mut state.group.contexts, number, error);
}

/// Sets the errors as a refusal by a reply does (OpenGL ES 3.0.6, GL Errors; EGL 1.5, Errors). This takes no memory.
pub fn refuse(state: &mut SharedState, thread: u32, call: &Call, reply: &Reply)
    requires declared { IsTrue (has thread state.old.threads) }
    requires refused { refusal state.old thread call.now ≡ Some reply.now }
    ensures { state.new ≡ refused_group state.old thread reply.now }
{
    match reply {
        Reply::GlFault(error) => note_gl_error(state, thread, *error),
        Reply::WaitFailed => note_gl_error(state, thread, GlError::InvalidValue),
        Reply::EglFault(error) => state.group.threads.replace(thread, *error),
        _ => (),
    }
}
