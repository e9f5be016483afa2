// What the contexts refer to.
ghost use Rattle.std.specs.Prelude.{◌≡◌, ◌||◌, Some, false};
ghost use Rattle.std.specs.List.{list_any};
ghost use Rattle.std.specs.Option.{option_map_or};
ghost use Rattle.tables.specs.Table.{any_value};
ghost use Rattle.gl_model.specs.Bindings.{same_option, same_attachment};
ghost use Rattle.gl_model.specs.GroupEffect.{binds_buffer, attaches};
ghost use Rattle.gl_model.specs.declared.state.Attachment.{Attachment as Attached};

use gl_model::{Attachment, Context, Framebuffer};
use tables::Table;

/// Whether a binding names an object.
fn names(binding: Option<u32>, object: u32) -> bool
    ensures { result ≡ same_option binding (Some object) }
{
    match binding {
        Some(bound) => bound == object,
        None => false,
    }
}

/// Whether a context has a buffer bound.
fn binds_buffer(context: &Context, buffer: u32) -> bool
    ensures { result ≡ binds_buffer buffer context.now }
{
    names(context.array, buffer)
        || names(context.copy_read, buffer)
        || names(context.copy_write, buffer)
        || names(context.pixel_pack, buffer)
        || names(context.pixel_unpack, buffer)
}

/// Whether a framebuffer has an image attached.
fn has_image(framebuffer: &Framebuffer, image: Attachment) -> bool
    ensures { result ≡ list_any (same_attachment image) framebuffer.now.points }
{
    framebuffer.points.iter().any(|a| image.is_same(a))
}

/// Whether there is a framebuffer, and it has an image attached.
fn has_point(framebuffer: &Option<Framebuffer>, image: Attachment) -> bool
    ensures { result ≡ option_map_or (λ f. list_any (same_attachment image) f.points) framebuffer.now false }
{
    match framebuffer {
        Some(f) => has_image(f, image),
        None => false,
    }
}

/// Whether a framebuffer of a context has an image attached.
fn attaches(context: &Context, image: Attachment) -> bool
    ensures { result ≡ attaches image context.now }
{
    context.framebuffers.iter().any(|e| has_point(e.1, image))
}

/// Whether a context refers to a texture.
fn refers_to_texture(context: &Context, texture: u32) -> bool
    ensures { result ≡ (same_option context.now.texture (Some texture) || attaches (Attached.Texture texture) context.now) }
{
    names(context.texture, texture) || attaches(context, Attachment::Texture(texture))
}

/// Whether a context refers to a renderbuffer.
fn refers_to_renderbuffer(context: &Context, renderbuffer: u32) -> bool
    ensures { result ≡ (same_option context.now.renderbuffer (Some renderbuffer) || attaches (Attached.Renderbuffer renderbuffer) context.now) }
{
    names(context.renderbuffer, renderbuffer)
        || attaches(context, Attachment::Renderbuffer(renderbuffer))
}

/// Whether some context has a buffer bound.
pub fn is_bound_buffer(contexts: &Table<Context>, buffer: u32) -> bool
    ensures { result ≡ any_value (binds_buffer buffer) contexts.now }
{
    contexts.iter().any(|e| binds_buffer(e.1, buffer))
}

/// Whether some context refers to a texture.
pub fn is_bound_texture(contexts: &Table<Context>, texture: u32) -> bool
    ensures { result ≡ any_value (λ c. same_option c.texture (Some texture) || attaches (Attached.Texture texture) c) contexts.now }
{
    contexts.iter().any(|e| refers_to_texture(e.1, texture))
}

/// Whether some context refers to a renderbuffer.
pub fn is_bound_renderbuffer(contexts: &Table<Context>, renderbuffer: u32) -> bool
    ensures { result ≡ any_value (λ c. same_option c.renderbuffer (Some renderbuffer) || attaches (Attached.Renderbuffer renderbuffer) c) contexts.now }
{
    contexts
        .iter()
        .any(|e| refers_to_renderbuffer(e.1, renderbuffer))
}
