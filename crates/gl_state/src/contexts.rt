// Changes of one context.
ghost use Rattle.std.specs.Prelude.{◌≡◌, ◌||◌, IsTrue, not, Some, if◌then◌else◌};
ghost use Rattle.std.specs.Option.{option_map};
ghost use Rattle.std.specs.List.{find};
ghost use Rattle.std.specs.Map.Iter.{deref_pair};
ghost use Rattle.gl_model.specs.Bindings.{same_option};
ghost use Rattle.formats.specs.Rows.{is_alignment};
ghost use Rattle.gl_calls.specs.Words.{is_align_parameter};
ghost use Rattle.gl_model.specs.GroupEffect.{with_parameter};
ghost use Rattle.gl_model.specs.Legal.{with_gl_error};
ghost use Rattle.gl_model.specs.declared.state.Context.{Context as Held};
ghost use Rattle.gl_state.specs.Changes.{changed_if};

use gl_calls::{GlError, StoreParameter};
use gl_model::{Context, ScissorBox};
use tables::Table;

/// Whether a context is current on a thread.
fn is_current_on(context: &Context, thread: u32) -> bool
    ensures { result ≡ same_option context.now.thread (Some thread) }
{
    match context.thread {
        Some(t) => t == thread,
        None => false,
    }
}

/// The context that is current on a thread, with its number.
fn current_entry(contexts: &Table<Context>, thread: u32) -> Option<(&u32, &Context)>
    ensures { option_map deref_pair result ≡ find (λ e. same_option e.1.thread (Some thread)) contexts.now }
{
    contexts.iter().find(|e| is_current_on(e.1, thread))
}

/// The number of the context that is current on a thread.
pub fn current_number(contexts: &Table<Context>, thread: u32) -> Option<u32>
    ensures { result ≡ option_map (λ e. e.0) (find (λ e. same_option e.1.thread (Some thread)) contexts.now) }
{
    match current_entry(contexts, thread) {
        Some((number, _)) => Some(*number),
        None => None,
    }
}

/// The number of the context that is current on a thread, and whether it is marked.
pub fn current_mark(contexts: &Table<Context>, thread: u32) -> Option<(u32, bool)>
    ensures { result ≡ option_map (λ e. (e.0, e.1.marked)) (find (λ e. same_option e.1.thread (Some thread)) contexts.now) }
{
    match current_entry(contexts, thread) {
        Some((number, context)) => Some((*number, context.marked)),
        None => None,
    }
}

/// The flag of a context after an error: the first error stays.
fn noted(flag: GlError, error: GlError) -> GlError
    ensures { (context : Held) → with_gl_error error (record context { error = flag }) ≡ record context { error = result } }
{
    match flag {
        GlError::NoError => error,
        _ => flag,
    }
}

/// Notes an error in a context, if it is the one.
fn note(context: &mut Context, is_it: bool, error: GlError)
    ensures { context.new ≡ (if is_it then with_gl_error error context.old else context.old) }
{
    if is_it {
        context.error = noted(context.error, error);
    }
}

/// Notes an error in the context of a number.
pub fn note_error(contexts: &mut Table<Context>, number: Option<u32>, error: GlError)
    ensures { contexts.new ≡ changed_if number (with_gl_error error) contexts.old }
{
    let Some(number) = number else {
        return;
    };
    contexts.retain(|n, context| {
        note(context, *n == number, error);
        true
    });
}

/// Clears the error of a context, if it is the one.
fn clear(context: &mut Context, is_it: bool)
    ensures { context.new ≡ (if is_it then record context.old { error = GlError.NoError } else context.old) }
{
    if is_it {
        context.error = GlError::NoError;
    }
}

/// Clears the error of the context of a number.
pub fn clear_error(contexts: &mut Table<Context>, number: Option<u32>)
    ensures { contexts.new ≡ changed_if number (λ c. record c { error = GlError.NoError }) contexts.old }
{
    let Some(number) = number else {
        return;
    };
    contexts.retain(|n, context| {
        clear(context, *n == number);
        true
    });
}

/// Turns the scissor test of a context on or off, if it is the one.
fn set_test(context: &mut Context, is_it: bool, on: bool)
    ensures { context.new ≡ (if is_it then record context.old { scissor_on = on } else context.old) }
{
    if is_it {
        context.scissor_on = on;
    }
}

/// Turns the scissor test of the context of a number on or off.
pub fn set_scissor_test(contexts: &mut Table<Context>, number: Option<u32>, on: bool)
    ensures { contexts.new ≡ changed_if number (λ c. record c { scissor_on = on }) contexts.old }
{
    let Some(number) = number else {
        return;
    };
    contexts.retain(|n, context| {
        set_test(context, *n == number, on);
        true
    });
}

/// Sets the scissor box of a context, if it is the one.
fn set_box(context: &mut Context, is_it: bool, scissor: ScissorBox)
    ensures { context.new ≡ (if is_it then record context.old { scissor = scissor } else context.old) }
{
    if is_it {
        context.scissor = scissor;
    }
}

/// Sets the scissor box of the context of a number.
pub fn set_scissor(contexts: &mut Table<Context>, number: Option<u32>, scissor: ScissorBox)
    ensures { contexts.new ≡ changed_if number (λ c. record c { scissor = scissor }) contexts.old }
{
    let Some(number) = number else {
        return;
    };
    contexts.retain(|n, context| {
        set_box(context, *n == number, scissor);
        true
    });
}

/// Sets a pixel store parameter of a context, if it is the one.
fn set_store(context: &mut Context, is_it: bool, parameter: StoreParameter, value: u32)
    requires { IsTrue (not (is_align_parameter parameter) || is_alignment value) }
    ensures { context.new ≡ (if is_it then with_parameter context.old parameter value else context.old) }
{
    if !is_it {
        return;
    }
    match parameter {
        StoreParameter::PackAlign => context.pack.align = value,
        StoreParameter::PackRow => context.pack.row = value,
        StoreParameter::PackSkipRows => context.pack.skip_rows = value,
        StoreParameter::PackSkipPixels => context.pack.skip_pixels = value,
        StoreParameter::UnpackAlign => context.unpack.align = value,
        StoreParameter::UnpackRow => context.unpack.row = value,
        StoreParameter::UnpackSkipRows => context.unpack.skip_rows = value,
        StoreParameter::UnpackSkipPixels => context.unpack.skip_pixels = value,
        StoreParameter::Other => (),
    }
}

/// Sets a pixel store parameter of the context of a number.
pub fn set_parameter(
    contexts: &mut Table<Context>,
    number: Option<u32>,
    parameter: StoreParameter,
    value: u32,
)
    requires { IsTrue (not (is_align_parameter parameter) || is_alignment value) }
    ensures { contexts.new ≡ changed_if number (λ c. with_parameter c parameter value) contexts.old }
{
    let Some(number) = number else {
        return;
    };
    contexts.retain(|n, context| {
        set_store(context, *n == number, parameter, value);
        true
    });
}
