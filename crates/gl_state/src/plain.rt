// The effect of an accepted call, for the calls that leave names, bindings and attachments.
ghost use Rattle.std.specs.Prelude.{◌≡◌, ◌||◌, IsTrue, None};
ghost use Rattle.std.specs.Bool.{OnTrue, OnFalse};
ghost use Rattle.tables.specs.Table.{has};
ghost use Rattle.gl_model.specs.GroupEffect.{group_effect};
ghost use Rattle.gl_model.specs.Refusal.{refusal};
ghost use Rattle.gl_state.specs.Quiet.{is_quiet, sets_fact};

use crate::buffers::{buffer_data, map_buffer_range, unmap_buffer};
use crate::parameters::{get_error, pixel_store, scissor_box, scissor_test};
use crate::state::SharedState;
use crate::syncs::{delete_sync, destroy_sync, succeed};
use gl_calls::Call;

/// Whether a call of OpenGL ES changes nothing but what objects hold. Then the state stays as it is.
fn is_quiet(call: &Call) -> bool
    ensures { result ≡ is_quiet call.now }
{
    matches!(
        call,
        Call::GetInteger { .. }
            | Call::BufferSubData { .. }
            | Call::CopyBufferSubData { .. }
            | Call::FlushMappedBufferRange { .. }
            | Call::MapRead { .. }
            | Call::MapWrite { .. }
            | Call::TexSubImage { .. }
            | Call::CopyTexSubImage { .. }
            | Call::CheckFramebufferStatus { .. }
            | Call::ClearUnsigned { .. }
            | Call::ClearSigned { .. }
            | Call::Blit { .. }
            | Call::Invalidate { .. }
            | Call::ReadPixels { .. }
            | Call::ClientWaitSync { .. }
            | Call::WaitSync { .. }
            | Call::Flush
            | Call::Finish
    )
}

/// Applies a call that sets a fact, and tells whether this call does. The state stays as it is where it does not.
fn set_fact(state: &mut SharedState, thread: u32, call: &Call) -> bool
    requires declared { IsTrue (has thread state.old.threads) }
    requires accepted { refusal state.old thread call.now ≡ None }
    ensures which { result ≡ sets_fact call.now }
    ensures set { OnTrue result (state.new ≡ group_effect state.old thread call.now) }
    ensures left { OnFalse result (state.new ≡ state.old) }
{
    match call {
        Call::GetError => {
            get_error(state, thread);
            true
        }
        Call::BufferData { target, size, .. } => {
            buffer_data(state, thread, *target, *size);
            true
        }
        Call::MapBufferRange {
            target,
            offset,
            length,
            access,
        } => {
            map_buffer_range(state, thread, *target, *offset, *length, *access);
            true
        }
        Call::UnmapBuffer { target } => {
            unmap_buffer(state, thread, *target);
            true
        }
        Call::ScissorTest { on } => {
            scissor_test(state, thread, *on);
            true
        }
        Call::ScissorBox {
            x,
            y,
            width,
            height,
        } => {
            scissor_box(state, thread, *x, *y, *width, *height);
            true
        }
        Call::PixelStore { parameter, value } => {
            pixel_store(state, thread, *parameter, *value);
            true
        }
        Call::DeleteSync { number } => {
            delete_sync(state, thread, *number);
            true
        }
        Call::EglGetError | Call::EglClientWaitSync { .. } => {
            succeed(state, thread);
            true
        }
        Call::DestroySync { number } => {
            destroy_sync(state, thread, *number);
            true
        }
        _ => false,
    }
}

/// Applies an accepted call that makes nothing and changes no context's end, binding, attachment or name, and tells
/// whether this call is one. The state stays as it is where it is not.
pub fn apply_plain(state: &mut SharedState, thread: u32, call: &Call) -> bool
    requires declared { IsTrue (has thread state.old.threads) }
    requires accepted { refusal state.old thread call.now ≡ None }
    ensures which { result ≡ (is_quiet call.now || sets_fact call.now) }
    ensures applied { OnTrue result (state.new ≡ group_effect state.old thread call.now) }
    ensures left { OnFalse result (state.new ≡ state.old) }
{
    let _ = &state.group;
    if is_quiet(call) {
        return true;
    }
    set_fact(state, thread, call)
}
