// The calls that create, destroy and take contexts.
ghost use Rattle.std.specs.Prelude.{◌≡◌, ◌&&◌, ℕ, IsTrue, IfOk, OnOk, OnErr, None, Some, not, true, is_some, if◌then◌else◌};
ghost use Rattle.tables.specs.Table.{has, with_entry};
ghost use Rattle.gl_model.specs.Bindings.{same_option};
ghost use Rattle.gl_model.specs.GroupState.{new_context};
ghost use Rattle.gl_model.specs.GroupEffect.{group_effect, destroyed, let_go, taken_by};
ghost use Rattle.gl_model.specs.Refusal.{refusal};
ghost use Rattle.gl_state.specs.Ended.{AreGone};

use crate::nameless::Ended;
use crate::state::SharedState;
use crate::sweep::sweep;
use formats::{EglError, PixelStore};
use gl_calls::{Call, GlError};
use gl_model::{Context, ScissorBox};
use std::alloc::{AllocError, Global};
use tables::Table;

/// A context as it is created (OpenGL ES 3.0.6, State Tables). This takes no memory.
fn new_context(alloc: Global) -> Context
    ensures { result ≡ new_context }
{
    Context {
        marked: false,
        thread: None,
        array: None,
        copy_read: None,
        copy_write: None,
        pixel_pack: None,
        pixel_unpack: None,
        texture: None,
        renderbuffer: None,
        framebuffers: Table::new(alloc),
        draw: 0,
        read: 0,
        pack: PixelStore::new(),
        unpack: PixelStore::new(),
        scissor_on: false,
        scissor: ScissorBox {
            x: 0,
            y: 0,
            width: 0,
            height: 0,
        },
        error: GlError::NoError,
    }
}

/// Marks a context that is destroyed, and tells whether it stays.
fn destroy_one(context: &mut Context, is_it: bool) -> bool
    ensures stays { result ≡ not (is_it && not (is_some context.old.thread)) }
    ensures marked { context.new ≡ (if is_it then record context.old { marked = true } else context.old) }
{
    if !is_it {
        return true;
    }
    context.marked = true;
    context.thread.is_some()
}

/// Ends the context of a number where it is current on no thread, and marks it elsewhere.
fn destroy_context_of(contexts: &mut Table<Context>, number: u32)
    ensures { contexts.new ≡ destroyed number contexts.old }
{
    contexts.retain(|n, context| destroy_one(context, *n == number));
}

/// Whether a context is current on a thread.
fn is_current_on(context: &Context, thread: u32) -> bool
    ensures { result ≡ same_option context.now.thread (Some thread) }
{
    match context.thread {
        Some(t) => t == thread,
        None => false,
    }
}

/// Lets a thread go of a context, and tells whether the context stays.
fn let_go_of_one(context: &mut Context, thread: u32) -> bool
    ensures stays { result ≡ not (same_option context.old.thread (Some thread) && context.old.marked) }
    ensures free { context.new ≡ (if same_option context.old.thread (Some thread) then record context.old { thread = None } else context.old) }
{
    if !is_current_on(context, thread) {
        return true;
    }
    context.thread = None;
    !context.marked
}

/// Lets a thread go of its context. One that is marked ends.
fn let_go_of(contexts: &mut Table<Context>, thread: u32)
    ensures { contexts.new ≡ let_go thread contexts.old }
{
    contexts.retain(|_, context| let_go_of_one(context, thread));
}

/// Makes a context current on a thread, if it is the one.
fn take_one(context: &mut Context, is_it: bool, thread: u32)
    ensures { context.new ≡ (if is_it then record context.old { thread = Some thread } else context.old) }
{
    if is_it {
        context.thread = Some(thread);
    }
}

/// Makes the context of a number current on a thread.
fn take(contexts: &mut Table<Context>, thread: u32, number: u32)
    ensures { contexts.new ≡ taken_by thread number contexts.old }
{
    contexts.retain(|n, context| {
        take_one(context, *n == number, thread);
        true
    });
}

/// Creates a context (EGL 1.5, Creating Rendering Contexts). For want of memory nothing changes.
pub fn create_context(
    alloc: Global,
    state: &mut SharedState,
    thread: u32,
    number: u16,
) -> Result<(), AllocError>
    requires declared { IsTrue (has thread state.old.threads) }
    requires accepted { refusal state.old thread (Call.CreateContext number) ≡ None }
    ensures ok { OnOk result (state.new ≡ group_effect state.old thread (Call.CreateContext number)) }
    ensures err { OnErr result (state.new ≡ state.old) }
{
    state
        .group
        .contexts
        .insert(u32::from(number), new_context(alloc))?;
    state.group.threads.replace(thread, EglError::Success);
    Ok(())
}

/// Destroys a context, or marks one that is current (EGL 1.5, Destroying Rendering Contexts). A context that ends releases
/// its bindings and framebuffers. For want of memory nothing changes.
pub fn destroy_context(
    alloc: Global,
    state: &mut SharedState,
    thread: u32,
    number: u16,
) -> Result<Ended, AllocError>
    requires { IsTrue (has thread state.old.threads) }
    ensures ok { OnOk result (state.new ≡ group_effect state.old thread (Call.DestroyContext number)) }
    ensures ended { IfOk result (λ ended. AreGone state.old state.new ended) }
    ensures err { OnErr result (state.new ≡ state.old) }
{
    let mut ended = state.nameless.room(alloc, 0)?;
    destroy_context_of(&mut state.group.contexts, u32::from(number));
    state.group.threads.replace(thread, EglError::Success);
    sweep(&mut state.group, &mut state.nameless, &mut ended);
    Ok(ended)
}

/// Makes a context current on a thread, or none for number 0 (EGL 1.5, Binding Contexts and Drawables). The context that
/// the thread had ends where it is marked, and releases its bindings and framebuffers. For want of memory nothing changes.
pub fn make_current(
    alloc: Global,
    state: &mut SharedState,
    thread: u32,
    number: u16,
) -> Result<Ended, AllocError>
    requires { IsTrue (has thread state.old.threads) }
    ensures ok { OnOk result (state.new ≡ group_effect state.old thread (Call.MakeCurrent number)) }
    ensures ended { IfOk result (λ ended. AreGone state.old state.new ended) }
    ensures err { OnErr result (state.new ≡ state.old) }
{
    let mut ended = state.nameless.room(alloc, 0)?;
    let_go_of(&mut state.group.contexts, thread);
    take(&mut state.group.contexts, thread, u32::from(number));
    state.group.threads.replace(thread, EglError::Success);
    sweep(&mut state.group, &mut state.nameless, &mut ended);
    Ok(ended)
}
