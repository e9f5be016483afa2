// The calls that give images storage.
ghost use Rattle.std.specs.Prelude.{◌≡◌, None, true, IfOk, OnOk, OnErr};
ghost use Rattle.std.specs.Option.{option_map_or};
ghost use Rattle.tables.specs.Table.{has};
ghost use Rattle.gl_model.specs.GroupEffect.{group_effect, new_image, change_image};
ghost use Rattle.gl_model.specs.Refusal.{refusal};
ghost use Rattle.gl_state.specs.Changes.{bound_texture_number, bound_renderbuffer_number};
ghost use Rattle.gl_state.specs.Ended.{AreGone};

use crate::nameless::Ended;
use crate::state::SharedState;
use crate::sweep::sweep;
use gl_calls::{Call, FormatWord};
use gl_model::{Counted, GroupState, ImageInfo};
use std::alloc::{AllocError, Global};

/// The image that new storage makes: none where a side is 0.
fn new_image(format: FormatWord, width: i32, height: i32) -> Option<ImageInfo>
    ensures { result ≡ new_image format width height }
{
    let width = width.unsigned_abs();
    let height = height.unsigned_abs();
    if width == 0 || height == 0 {
        return None;
    }
    match format {
        FormatWord::Known(format) => Some(ImageInfo {
            format,
            width,
            height,
        }),
        FormatWord::Other => None,
    }
}

/// Gives the object of a number an image.
fn set_image(images: &mut Counted<Option<ImageInfo>>, number: Option<u32>, image: Option<ImageInfo>)
    requires { option_map_or (λ t. has t images.old) number true ≡ true }
    ensures { images.new ≡ change_image number image images.old }
{
    if let Some(object) = number {
        images.replace(object, image);
    }
}

/// The texture that is bound on a thread, by its number.
fn bound_texture(group: &GroupState, thread: u32) -> Option<u32>
    ensures { result ≡ bound_texture_number group.now thread }
{
    match group.current(thread) {
        Some(context) => context.texture,
        None => None,
    }
}

/// The renderbuffer that is bound on a thread, by its number.
fn bound_renderbuffer(group: &GroupState, thread: u32) -> Option<u32>
    ensures { result ≡ bound_renderbuffer_number group.now thread }
{
    match group.current(thread) {
        Some(context) => context.renderbuffer,
        None => None,
    }
}

/// Gives the bound texture storage (OpenGL ES 3.0.6, Immutable-Format Texture Images). For want of memory nothing changes.
pub fn tex_storage(
    alloc: Global,
    state: &mut SharedState,
    thread: u32,
    levels: i32,
    format: FormatWord,
    width: i32,
    height: i32,
) -> Result<Ended, AllocError>
    requires { refusal state.old thread (Call.TexStorage levels format width height) ≡ None }
    ensures ok { OnOk result (state.new ≡ group_effect state.old thread (Call.TexStorage levels format width height)) }
    ensures ended { IfOk result (λ ended. AreGone state.old state.new ended) }
    ensures err { OnErr result (state.new ≡ state.old) }
{
    let mut ended = state.nameless.room(alloc, 0)?;
    let number = bound_texture(&state.group, thread);
    set_image(
        &mut state.group.textures,
        number,
        new_image(format, width, height),
    );
    sweep(&mut state.group, &mut state.nameless, &mut ended);
    Ok(ended)
}

/// Gives the bound renderbuffer storage, or takes it where a side is 0 (OpenGL ES 3.0.6, Renderbuffer Objects). For want of
/// memory nothing changes.
pub fn renderbuffer_storage(
    alloc: Global,
    state: &mut SharedState,
    thread: u32,
    format: FormatWord,
    width: i32,
    height: i32,
) -> Result<Ended, AllocError>
    requires { refusal state.old thread (Call.RenderbufferStorage format width height) ≡ None }
    ensures ok { OnOk result (state.new ≡ group_effect state.old thread (Call.RenderbufferStorage format width height)) }
    ensures ended { IfOk result (λ ended. AreGone state.old state.new ended) }
    ensures err { OnErr result (state.new ≡ state.old) }
{
    let mut ended = state.nameless.room(alloc, 0)?;
    let number = bound_renderbuffer(&state.group, thread);
    set_image(
        &mut state.group.renderbuffers,
        number,
        new_image(format, width, height),
    );
    sweep(&mut state.group, &mut state.nameless, &mut ended);
    Ok(ended)
}
