// The calls on framebuffers.
ghost use Rattle.std.specs.Prelude.{◌≡◌, ◌<◌, IfOk, OnOk, OnErr};
ghost use Rattle.gl_calls.specs.declared.words.BindTarget.{BindTarget};
ghost use Rattle.gl_calls.specs.declared.words.ObjectKind.{ObjectKind};
ghost use Rattle.gl_model.specs.Bindings.{framebuffer_name};
ghost use Rattle.gl_model.specs.GroupEffect.{group_effect, attachment_of, with_point, with_framebuffer, with_framebuffer_binding, without_framebuffer, change_framebuffer};
ghost use Rattle.gl_state.specs.Changes.{changed_at, with_draws, with_read};
ghost use Rattle.gl_state.specs.Ended.{AreGone};

use crate::contexts::current_number;
use crate::framebuffers::{
    attach_in, bind_framebuffer_in, delete_framebuffer_in, set_draws_in, set_read_in,
};
use crate::nameless::Ended;
use crate::names::object_of;
use crate::state::SharedState;
use crate::sweep::sweep;
use gl_calls::{AttachPoint, AttachWhat, Call, DrawBuffer, DrawBufferList, FramebufferTarget};
use gl_model::{Attachment, Context, GroupState};
use std::alloc::{AllocError, Global};
use tables::Table;

/// Binds a framebuffer in the context of a number, and makes it where the name has none.
fn bind_at(
    contexts: &mut Table<Context>,
    number: u32,
    target: FramebufferTarget,
    name: u32,
) -> Result<(), AllocError>
    ensures ok { OnOk result (contexts.new ≡ changed_at number (λ c. with_framebuffer_binding (with_framebuffer c name) target name) contexts.old) }
    ensures err { OnErr result (contexts.new ≡ contexts.old) }
{
    match contexts.get_mut(number) {
        Some(context) => bind_framebuffer_in(context, target, name),
        None => Ok(()),
    }
}

/// Deletes a framebuffer of the context of a number.
fn delete_at(contexts: &mut Table<Context>, number: u32, name: u32)
    ensures { contexts.new ≡ changed_at number (λ c. without_framebuffer c name) contexts.old }
{
    if let Some(context) = contexts.get_mut(number) {
        delete_framebuffer_in(context, name);
    }
}

/// Puts an image at a point of the framebuffer that is bound to a target of a context.
fn attach_to_bound(context: &mut Context, target: FramebufferTarget, point: u8, image: Attachment)
    requires { point < 4 }
    ensures { context.new ≡ change_framebuffer context.old (framebuffer_name context.old target) (with_point point image) }
{
    let name = context.framebuffer_name(target);
    attach_in(context, name, point, image);
}

/// Puts an image at a point of a framebuffer of the context of a number.
fn attach_at(
    contexts: &mut Table<Context>,
    number: u32,
    target: FramebufferTarget,
    point: u8,
    image: Attachment,
)
    requires { point < 4 }
    ensures { contexts.new ≡ changed_at number (λ c. change_framebuffer c (framebuffer_name c target) (with_point point image)) contexts.old }
{
    if let Some(context) = contexts.get_mut(number) {
        attach_to_bound(context, target, point, image);
    }
}

/// Sets the draw buffers of the draw framebuffer of the context of a number.
fn draw_at(contexts: &mut Table<Context>, number: u32, buffers: &[DrawBuffer])
    ensures { contexts.new ≡ changed_at number (λ c. change_framebuffer c c.draw (with_draws buffers.now)) contexts.old }
{
    if let Some(context) = contexts.get_mut(number) {
        set_draws_in(context, buffers);
    }
}

/// Sets the point that the read framebuffer of the context of a number reads.
fn read_at(contexts: &mut Table<Context>, number: u32, buffer: DrawBuffer)
    ensures { contexts.new ≡ changed_at number (λ c. change_framebuffer c c.read (with_read buffer)) contexts.old }
{
    if let Some(context) = contexts.get_mut(number) {
        set_read_in(context, buffer);
    }
}

/// What attaching a name puts at a point.
fn attachment_of(group: &GroupState, what: AttachWhat, name: u32) -> Attachment
    ensures { result ≡ attachment_of group.now what name }
{
    match what {
        AttachWhat::Texture => match object_of(&group.texture_names, name) {
            Some(texture) => Attachment::Texture(texture),
            None => Attachment::Empty,
        },
        AttachWhat::Renderbuffer => match object_of(&group.renderbuffer_names, name) {
            Some(renderbuffer) => Attachment::Renderbuffer(renderbuffer),
            None => Attachment::Empty,
        },
    }
}

/// Binds a framebuffer, and makes it where the name has none (OpenGL ES 3.0.6, Binding and Managing Framebuffer Objects).
/// For want of memory nothing changes.
pub fn bind_framebuffer(
    alloc: Global,
    state: &mut SharedState,
    thread: u32,
    target: FramebufferTarget,
    name: u32,
) -> Result<Ended, AllocError>
    ensures ok { OnOk result (state.new ≡ group_effect state.old thread (Call.Bind (BindTarget.Framebuffer target) name)) }
    ensures ended { IfOk result (λ ended. AreGone state.old state.new ended) }
    ensures err { OnErr result (state.new ≡ state.old) }
{
    let mut ended = state.nameless.room(alloc, 0)?;
    let Some(number) = current_number(&state.group.contexts, thread) else {
        return Ok(ended);
    };
    bind_at(&mut state.group.contexts, number, target, name)?;
    sweep(&mut state.group, &mut state.nameless, &mut ended);
    Ok(ended)
}

/// Deletes the name of a framebuffer of the current context (OpenGL ES 3.0.6, Binding and Managing Framebuffer Objects). What
/// was attached lives on while something else refers to it. For want of memory nothing changes.
pub fn delete_framebuffer(
    alloc: Global,
    state: &mut SharedState,
    thread: u32,
    name: u32,
) -> Result<Ended, AllocError>
    ensures ok { OnOk result (state.new ≡ group_effect state.old thread (Call.Delete ObjectKind.Framebuffer name)) }
    ensures ended { IfOk result (λ ended. AreGone state.old state.new ended) }
    ensures err { OnErr result (state.new ≡ state.old) }
{
    let mut ended = state.nameless.room(alloc, 0)?;
    let Some(number) = current_number(&state.group.contexts, thread) else {
        return Ok(ended);
    };
    delete_at(&mut state.group.contexts, number, name);
    sweep(&mut state.group, &mut state.nameless, &mut ended);
    Ok(ended)
}

/// Attaches a texture or renderbuffer, or nothing for 0 (OpenGL ES 3.0.6, Attaching Images to Framebuffer Objects). What was
/// attached before lives on while something else refers to it. For want of memory nothing changes.
pub fn attach(
    alloc: Global,
    state: &mut SharedState,
    thread: u32,
    target: FramebufferTarget,
    point: AttachPoint,
    what: AttachWhat,
    name: u32,
) -> Result<Ended, AllocError>
    ensures ok { OnOk result (state.new ≡ group_effect state.old thread (Call.Attach target point what name)) }
    ensures ended { IfOk result (λ ended. AreGone state.old state.new ended) }
    ensures err { OnErr result (state.new ≡ state.old) }
{
    let mut ended = state.nameless.room(alloc, 0)?;
    let Some(number) = current_number(&state.group.contexts, thread) else {
        return Ok(ended);
    };
    let image = attachment_of(&state.group, what, name);
    attach_at(
        &mut state.group.contexts,
        number,
        target,
        point.number(),
        image,
    );
    sweep(&mut state.group, &mut state.nameless, &mut ended);
    Ok(ended)
}

/// Sets the draw buffers of the draw framebuffer (OpenGL ES 3.0.6, Selecting a Buffer for Writing). For want of memory
/// nothing changes.
pub fn draw_buffers(
    alloc: Global,
    state: &mut SharedState,
    thread: u32,
    buffers: &DrawBufferList,
) -> Result<Ended, AllocError>
    ensures ok { OnOk result (state.new ≡ group_effect state.old thread (Call.DrawBuffers buffers.now)) }
    ensures ended { IfOk result (λ ended. AreGone state.old state.new ended) }
    ensures err { OnErr result (state.new ≡ state.old) }
{
    let mut ended = state.nameless.room(alloc, 0)?;
    let Some(number) = current_number(&state.group.contexts, thread) else {
        return Ok(ended);
    };
    draw_at(&mut state.group.contexts, number, buffers.as_slice());
    sweep(&mut state.group, &mut state.nameless, &mut ended);
    Ok(ended)
}

/// Sets the point that the read framebuffer reads (OpenGL ES 3.0.6, Obtaining Pixels from the Framebuffer). For want of
/// memory nothing changes.
pub fn read_buffer(
    alloc: Global,
    state: &mut SharedState,
    thread: u32,
    buffer: DrawBuffer,
) -> Result<Ended, AllocError>
    ensures ok { OnOk result (state.new ≡ group_effect state.old thread (Call.ReadBuffer buffer)) }
    ensures ended { IfOk result (λ ended. AreGone state.old state.new ended) }
    ensures err { OnErr result (state.new ≡ state.old) }
{
    let mut ended = state.nameless.room(alloc, 0)?;
    let Some(number) = current_number(&state.group.contexts, thread) else {
        return Ok(ended);
    };
    read_at(&mut state.group.contexts, number, buffer);
    sweep(&mut state.group, &mut state.nameless, &mut ended);
    Ok(ended)
}
