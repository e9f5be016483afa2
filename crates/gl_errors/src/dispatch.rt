ghost use Rattle.std.specs.Prelude.{◌≡◌};
ghost use Rattle.gl_errors.specs.Decision.{decided, decision_of};
ghost use Rattle.gl_model.specs.Refusal.{egl_rows, gl_rows, refusal};

use crate::decision::Decision;
use crate::gather::{
    decide_blit, decide_buffer, decide_copy, decide_read, decide_renderbuffer, decide_texture,
    decide_upload,
};
use crate::{contexts, framebuffers};
use gl_calls::{Call, Reply};
use gl_model::{Context, GroupState};

/// A call of EGL on a thread.
fn decide_egl(state: &GroupState, thread: u32, call: &Call) -> Decision
    ensures { result ≡ decided (egl_rows state.now thread call.now) }
{
    match call {
        Call::CreateContext { number } => contexts::create_context(
            state.contexts.contains_key(*number as u32),
            state.contexts.len(),
        ),
        Call::DestroyContext { number } => {
            contexts::destroy_context(state.contexts.get(*number as u32))
        }
        Call::MakeCurrent { number } => {
            contexts::make_current(thread, *number, state.contexts.get(*number as u32))
        }
        Call::CreateSync { number } => contexts::create_sync(
            state.current(thread).is_some(),
            state.egl_syncs.contains_key(*number as u32),
        ),
        Call::EglClientWaitSync { number, .. } => {
            contexts::use_sync(state.egl_syncs.contains_key(*number as u32))
        }
        Call::DestroySync { number } => {
            contexts::use_sync(state.egl_syncs.contains_key(*number as u32))
        }
        _ => Decision::Accepted,
    }
}

/// A call of OpenGL ES in a context.
fn decide_gl(state: &GroupState, context: &Context, call: &Call) -> Decision
    ensures { result ≡ decided (gl_rows state.now context.now call.now) }
{
    match call {
        Call::BufferData { .. }
        | Call::BufferSubData { .. }
        | Call::CopyBufferSubData { .. }
        | Call::MapBufferRange { .. }
        | Call::FlushMappedBufferRange { .. }
        | Call::UnmapBuffer { .. }
        | Call::MapRead { .. }
        | Call::MapWrite { .. } => decide_buffer(state, context, call),
        Call::GetInteger { limit } => framebuffers::get(*limit),
        Call::Gen { count, .. } => framebuffers::gen_names(*count),
        Call::Bind { target, .. } => framebuffers::bind(*target),
        Call::TexStorage {
            levels,
            format,
            width,
            height,
        } => decide_texture(state, context, *levels, *format, *width, *height),
        Call::TexSubImage {
            x,
            y,
            width,
            height,
            format,
            kind,
            source,
        } => decide_upload(
            state, context, *x, *y, *width, *height, *format, *kind, source,
        ),
        Call::CopyTexSubImage {
            x,
            y,
            width,
            height,
            ..
        } => decide_copy(state, context, *x, *y, *width, *height),
        Call::RenderbufferStorage {
            format,
            width,
            height,
        } => decide_renderbuffer(state, context, *format, *width, *height),
        Call::Attach {
            target,
            what,
            name,
            ..
        } => framebuffers::attach(
            *target,
            context.framebuffer_name(*target),
            *name,
            state.has_image(*what, *name),
        ),
        Call::CheckFramebufferStatus { target } => framebuffers::status(*target),
        Call::DrawBuffers { buffers } => {
            framebuffers::draw_buffers(buffers.as_slice(), context.draw)
        }
        Call::ReadBuffer { buffer } => framebuffers::read_buffer(*buffer, context.read),
        Call::ClearUnsigned { buffer, .. } => {
            framebuffers::clear(*buffer, state.draw_is_complete(context))
        }
        Call::ClearSigned { buffer, .. } => {
            framebuffers::clear(*buffer, state.draw_is_complete(context))
        }
        Call::ScissorBox { width, height, .. } => framebuffers::scissor(*width, *height),
        Call::Blit { mask, filter, .. } => decide_blit(state, context, *mask, *filter),
        Call::Invalidate { target, buffer } => {
            framebuffers::invalidate(*target, *buffer, context.framebuffer_name(*target))
        }
        Call::ReadPixels {
            width,
            height,
            format,
            kind,
            destination,
            ..
        } => decide_read(
            state,
            context,
            *width,
            *height,
            *format,
            *kind,
            *destination,
        ),
        Call::PixelStore { parameter, value } => framebuffers::pixel_store(*parameter, *value),
        Call::FenceSync {
            number,
            condition,
            flags,
        } => contexts::fence(*condition, *flags, state.syncs.contains_key(*number as u32)),
        Call::ClientWaitSync { number, flags, .. } => {
            contexts::client_wait(*flags, state.syncs.contains_key(*number as u32))
        }
        Call::WaitSync { number, flags, end } => {
            contexts::wait(*flags, *end, state.syncs.contains_key(*number as u32))
        }
        Call::DeleteSync { number } => {
            contexts::delete_sync(*number, state.syncs.contains_key(*number as u32))
        }
        _ => Decision::Accepted,
    }
}

/// Whether a call of a thread is refused, and by which reply: that of the first row of its table that holds. This takes no
/// memory. The tables are written after OpenGL ES 3.0.6 and EGL 1.5; their order is this project's own.
pub fn decide(state: &GroupState, thread: u32, call: &Call) -> Decision
    ensures { result ≡ decision_of (refusal state.now thread call.now) }
{
    if call.is_egl() {
        return decide_egl(state, thread, call);
    }
    match state.current(thread) {
        Some(context) => decide_gl(state, context, call),
        None => Decision::Refused(Reply::NoContext),
    }
}
