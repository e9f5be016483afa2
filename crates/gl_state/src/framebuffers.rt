// Changes of framebuffers.
ghost use Rattle.std.specs.Prelude.{◌≡◌, ◌<◌, ◌==◌, Some, None, Option, OnOk, OnErr, false, not, map, slice_get, if◌then◌else◌};
ghost use Rattle.std.specs.Option.{option_map, option_map_or};
ghost use Rattle.tables.specs.Table.{IsOrdered};
ghost use Rattle.gl_calls.specs.Words.{is_none_drawn};
ghost use Rattle.gl_model.specs.Bindings.{same_attachment};
ghost use Rattle.gl_model.specs.GroupEffect.{with_point, detached, new_framebuffer, with_framebuffer, with_framebuffer_binding, without_framebuffer, change_framebuffer, detached_from_bound, listed_draws};
ghost use Rattle.gl_state.specs.Changes.{changed_at, with_draws, with_read};

use gl_calls::{DrawBuffer, FramebufferTarget};
use gl_model::{Attachment, Context, Framebuffer};
use std::alloc::AllocError;
use tables::Table;

/// Puts an image at a point, or nothing.
fn set_point(framebuffer: &mut Framebuffer, point: u8, attachment: Attachment)
    requires { point < 4 }
    ensures { framebuffer.new ≡ with_point point attachment framebuffer.old }
{
    framebuffer.points[usize::from(point)] = attachment;
}

/// An attachment after an image was taken away.
fn without_image(attachment: Attachment, image: Attachment) -> Attachment
    ensures { result ≡ (if same_attachment attachment image then Attachment.Empty else attachment) }
{
    if attachment.is_same(&image) {
        Attachment::Empty
    } else {
        attachment
    }
}

/// Takes an image from all points.
fn detach(framebuffer: &mut Framebuffer, image: Attachment)
    ensures { framebuffer.new ≡ detached image framebuffer.old }
{
    let [a, b, c, d] = framebuffer.points;
    framebuffer.points = [
        without_image(a, image),
        without_image(b, image),
        without_image(c, image),
        without_image(d, image),
    ];
}

/// Takes an image from all points of a framebuffer, if there is one.
fn detach_if_made(framebuffer: &mut Option<Framebuffer>, image: Attachment)
    ensures { framebuffer.new ≡ option_map (detached image) framebuffer.old }
{
    if let Some(framebuffer) = framebuffer {
        detach(framebuffer, image);
    }
}

/// Takes an image from the framebuffer of a name.
fn detach_from(framebuffers: &mut Table<Option<Framebuffer>>, name: u32, image: Attachment)
    ensures changed { framebuffers.new ≡ changed_at name (option_map (detached image)) framebuffers.old }
    ensures ordered { IsOrdered framebuffers.old }
{
    if let Some(framebuffer) = framebuffers.get_mut(name) {
        detach_if_made(framebuffer, image);
    }
}

/// Takes an image from the framebuffers of a context that are bound.
pub fn detach_from_bound(context: &mut Context, image: Attachment)
    ensures { context.new ≡ detached_from_bound context.old image }
{
    detach_from(&mut context.framebuffers, context.draw, image);
    detach_from(&mut context.framebuffers, context.read, image);
}

/// Puts an image at a point of a framebuffer, if there is one.
fn attach_if_made(framebuffer: &mut Option<Framebuffer>, point: u8, image: Attachment)
    requires { point < 4 }
    ensures { framebuffer.new ≡ option_map (with_point point image) framebuffer.old }
{
    if let Some(framebuffer) = framebuffer {
        set_point(framebuffer, point, image);
    }
}

/// Puts an image at a point of the framebuffer of a name.
fn attach_to(framebuffers: &mut Table<Option<Framebuffer>>, name: u32, point: u8, image: Attachment)
    requires { point < 4 }
    ensures changed { framebuffers.new ≡ changed_at name (option_map (with_point point image)) framebuffers.old }
    ensures ordered { IsOrdered framebuffers.old }
{
    if let Some(framebuffer) = framebuffers.get_mut(name) {
        attach_if_made(framebuffer, point, image);
    }
}

/// Puts an image at a point of the framebuffer of a name of a context.
pub fn attach_in(context: &mut Context, name: u32, point: u8, image: Attachment)
    requires { point < 4 }
    ensures { context.new ≡ change_framebuffer context.old name (with_point point image) }
{
    attach_to(&mut context.framebuffers, name, point, image);
}

/// Whether a list names a buffer for draw buffer k.
fn draws_at(buffers: &[DrawBuffer], k: usize) -> bool
    ensures { result ≡ option_map_or (λ b. not (is_none_drawn b)) (slice_get buffers.now k) false }
{
    match buffers.get(k) {
        Some(buffer) => !matches!(buffer, DrawBuffer::None),
        None => false,
    }
}

/// The draw buffers that a list names.
fn listed_draws(buffers: &[DrawBuffer]) -> [bool; 4]
    ensures { result ≡ listed_draws buffers.now }
{
    [
        draws_at(buffers, 0),
        draws_at(buffers, 1),
        draws_at(buffers, 2),
        draws_at(buffers, 3),
    ]
}

/// Sets the draw buffers of a framebuffer, if there is one.
fn set_draws(framebuffer: &mut Option<Framebuffer>, buffers: &[DrawBuffer])
    ensures { framebuffer.new ≡ option_map (with_draws buffers.now) framebuffer.old }
{
    if let Some(framebuffer) = framebuffer {
        framebuffer.draws = listed_draws(buffers);
    }
}

/// Sets the draw buffers of the framebuffer of a name.
fn set_draws_of(framebuffers: &mut Table<Option<Framebuffer>>, name: u32, buffers: &[DrawBuffer])
    ensures changed { framebuffers.new ≡ changed_at name (option_map (with_draws buffers.now)) framebuffers.old }
    ensures ordered { IsOrdered framebuffers.old }
{
    if let Some(framebuffer) = framebuffers.get_mut(name) {
        set_draws(framebuffer, buffers);
    }
}

/// Sets the draw buffers of the draw framebuffer of a context.
pub fn set_draws_in(context: &mut Context, buffers: &[DrawBuffer])
    ensures { context.new ≡ change_framebuffer context.old context.old.draw (with_draws buffers.now) }
{
    set_draws_of(&mut context.framebuffers, context.draw, buffers);
}

/// Sets the point that a framebuffer reads, if there is one.
fn set_read(framebuffer: &mut Option<Framebuffer>, buffer: DrawBuffer)
    ensures { framebuffer.new ≡ option_map (with_read buffer) framebuffer.old }
{
    if let Some(framebuffer) = framebuffer {
        framebuffer.read = buffer.point();
    }
}

/// Sets the point that the framebuffer of a name reads.
fn set_read_of(framebuffers: &mut Table<Option<Framebuffer>>, name: u32, buffer: DrawBuffer)
    ensures changed { framebuffers.new ≡ changed_at name (option_map (with_read buffer)) framebuffers.old }
    ensures ordered { IsOrdered framebuffers.old }
{
    if let Some(framebuffer) = framebuffers.get_mut(name) {
        set_read(framebuffer, buffer);
    }
}

/// Sets the point that the read framebuffer of a context reads.
pub fn set_read_in(context: &mut Context, buffer: DrawBuffer)
    ensures { context.new ≡ change_framebuffer context.old context.old.read (with_read buffer) }
{
    set_read_of(&mut context.framebuffers, context.read, buffer);
}

/// A framebuffer as it is made.
fn new_framebuffer() -> Framebuffer
    ensures { result ≡ new_framebuffer }
{
    Framebuffer {
        points: [Attachment::Empty; 4],
        draws: [true, false, false, false],
        read: Some(0),
    }
}

/// Makes the framebuffer of a name other than 0 that has none.
fn make_framebuffer(context: &mut Context, name: u32) -> Result<(), AllocError>
    ensures ok { OnOk result (context.new ≡ with_framebuffer context.old name) }
    ensures err { OnErr result (context.new ≡ context.old) }
{
    if name == 0 || context.framebuffer(name).is_some() {
        return Ok(());
    }
    context.framebuffers.insert(name, Some(new_framebuffer()))
}

/// Binds the framebuffer of a name, and makes it where there is none. For want of memory nothing changes.
pub fn bind_framebuffer_in(
    context: &mut Context,
    target: FramebufferTarget,
    name: u32,
) -> Result<(), AllocError>
    ensures ok { OnOk result (context.new ≡ with_framebuffer_binding (with_framebuffer context.old name) target name) }
    ensures err { OnErr result (context.new ≡ context.old) }
{
    make_framebuffer(context, name)?;
    match target {
        FramebufferTarget::Both => {
            context.draw = name;
            context.read = name;
        }
        FramebufferTarget::Draw => context.draw = name,
        FramebufferTarget::Read => context.read = name,
        FramebufferTarget::Other => (),
    }
    Ok(())
}

/// Deletes the framebuffer of a name. A target where it is bound has 0 then.
pub fn delete_framebuffer_in(context: &mut Context, name: u32)
    ensures { context.new ≡ without_framebuffer context.old name }
{
    context.framebuffers.remove(name);
    if context.draw == name {
        context.draw = 0;
    }
    if context.read == name {
        context.read = 0;
    }
}
