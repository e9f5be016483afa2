// The calls that change a parameter of the current context.
ghost use Rattle.std.specs.Prelude.{◌≡◌, None, unsigned_abs};
ghost use Rattle.gl_model.specs.GroupEffect.{group_effect};
ghost use Rattle.gl_model.specs.Refusal.{refusal};

use crate::contexts::{clear_error, current_number, set_parameter, set_scissor, set_scissor_test};
use crate::state::SharedState;
use gl_calls::{Call, StoreParameter};
use gl_model::ScissorBox;

/// The magnitude of a number.
fn magnitude(value: i32) -> u32
    ensures { result ≡ unsigned_abs value }
{
    value.unsigned_abs()
}

/// A scissor box.
fn box_of(x: i32, y: i32, width: i32, height: i32) -> ScissorBox
    ensures { result ≡ record { x = x; y = y; width = unsigned_abs width; height = unsigned_abs height } }
{
    ScissorBox {
        x,
        y,
        width: width.unsigned_abs(),
        height: height.unsigned_abs(),
    }
}

/// Clears the error flag of the current context, which the caller has read (OpenGL ES 3.0.6, GL Errors).
pub fn get_error(state: &mut SharedState, thread: u32)
    ensures { state.new ≡ group_effect state.old thread Call.GetError }
{
    let number = current_number(&state.group.contexts, thread);
    clear_error(&mut state.group.contexts, number);
}

/// Sets a pixel store parameter (OpenGL ES 3.0.6, Pixel Storage Modes and Pixel Buffer Objects).
pub fn pixel_store(state: &mut SharedState, thread: u32, parameter: StoreParameter, value: i32)
    requires { refusal state.old thread (Call.PixelStore parameter value) ≡ None }
    ensures { state.new ≡ group_effect state.old thread (Call.PixelStore parameter value) }
{
    let number = current_number(&state.group.contexts, thread);
    let value = magnitude(value);
    set_parameter(&mut state.group.contexts, number, parameter, value);
}

/// Turns the scissor test on or off (OpenGL ES 3.0.6, Scissor Test).
pub fn scissor_test(state: &mut SharedState, thread: u32, on: bool)
    ensures { state.new ≡ group_effect state.old thread (Call.ScissorTest on) }
{
    let number = current_number(&state.group.contexts, thread);
    set_scissor_test(&mut state.group.contexts, number, on);
}

/// Sets the scissor box (OpenGL ES 3.0.6, Scissor Test).
pub fn scissor_box(state: &mut SharedState, thread: u32, x: i32, y: i32, width: i32, height: i32)
    ensures { state.new ≡ group_effect state.old thread (Call.ScissorBox x y width height) }
{
    let number = current_number(&state.group.contexts, thread);
    let scissor = box_of(x, y, width, height);
    set_scissor(&mut state.group.contexts, number, scissor);
}
