ghost use Rattle.std.specs.Prelude.{◌≡◌, IsTrue, map};
ghost use Rattle.gl_errors.specs.Decision.{decided};
ghost use Rattle.gl_errors.specs.BufferCalls.{is_buffer_call};
ghost use Rattle.gl_model.specs.BufferRows.{size_of};
ghost use Rattle.gl_model.specs.Bindings.{bound_buffer, attached_image, drawn_attachments};
ghost use Rattle.gl_model.specs.Storage.{image_bytes, passes_limit};
ghost use Rattle.gl_model.specs.Refusal.{gl_rows, bound_texture, bound_renderbuffer, read_is_complete, draw_is_complete, read_image, reads_bound_texture, reads_drawn, draw_framebuffer};
ghost use Rattle.gl_model.specs.ImageRows.{storage_of, storage_bytes, tex_storage_rows, tex_sub_image_rows, copy_tex_sub_image_rows, renderbuffer_storage_rows, read_pixels_rows};
ghost use Rattle.gl_model.specs.FramebufferRows.{blit_rows};

use crate::decision::Decision;
use crate::{buffers, framebuffers, images};
use formats::{PixelFormat, PixelType, texel_size};
use gl_calls::{
    BlitFilter, BlitMask, BufferTarget, Call, FormatWord, PixelDestination, PixelSource,
};
use gl_model::{BufferFacts, Context, GroupState, ImageInfo, bytes_of};

/// The size of the store of what is bound.
fn size_of(bound: &Option<BufferFacts>) -> u64
    ensures { result ≡ size_of bound.now }
{
    match bound {
        Some(buffer) => buffer.size,
        None => 0,
    }
}

/// A call on buffers in a context.
pub fn decide_buffer(state: &GroupState, context: &Context, call: &Call) -> Decision
    requires { IsTrue (is_buffer_call call.now) }
    ensures { result ≡ decided (gl_rows state.now context.now call.now) }
{
    match call {
        Call::BufferData {
            target,
            size,
            usage,
            ..
        } => {
            let bound = state.bound_buffer(context, *target);
            let full = state.passes_limit(size_of(&bound) as u128, size.unsigned_abs() as u128);
            buffers::buffer_data(*target, *size, *usage, &bound, full)
        }
        Call::BufferSubData {
            target,
            offset,
            payload,
        } => {
            let bound = state.bound_buffer(context, *target);
            buffers::buffer_sub_data(*target, *offset, payload.len(), &bound)
        }
        Call::CopyBufferSubData {
            from,
            to,
            read,
            write,
            size,
        } => {
            let source = state.bound_buffer(context, *from);
            let target = state.bound_buffer(context, *to);
            let same = context.buffer_binding(*from) == context.buffer_binding(*to);
            buffers::copy_buffer(*from, *to, *read, *write, *size, &source, &target, same)
        }
        Call::MapBufferRange {
            target,
            offset,
            length,
            access,
        } => {
            let bound = state.bound_buffer(context, *target);
            buffers::map_range(*target, *offset, *length, *access, &bound)
        }
        Call::FlushMappedBufferRange {
            target,
            offset,
            length,
        } => {
            let bound = state.bound_buffer(context, *target);
            buffers::flush_range(*target, *offset, *length, &bound)
        }
        Call::UnmapBuffer { target } => {
            let bound = state.bound_buffer(context, *target);
            buffers::unmap(*target, &bound)
        }
        Call::MapRead {
            target,
            offset,
            length,
        } => {
            let bound = state.bound_buffer(context, *target);
            buffers::map_read(*target, *offset, *length, &bound)
        }
        Call::MapWrite {
            target,
            offset,
            payload,
        } => {
            let bound = state.bound_buffer(context, *target);
            buffers::map_write(*target, *offset, payload.len(), &bound)
        }
        _ => Decision::Accepted,
    }
}

/// The storage of what is bound.
fn storage(bound: Option<Option<ImageInfo>>) -> Option<ImageInfo>
    ensures { result ≡ storage_of bound }
{
    match bound {
        Some(image) => image,
        None => None,
    }
}

/// TexSubImage2D.
pub fn decide_upload(
    state: &GroupState,
    context: &Context,
    x: i32,
    y: i32,
    width: i32,
    height: i32,
    format: PixelFormat,
    kind: PixelType,
    source: &PixelSource,
) -> Decision
    ensures { result ≡ decided (tex_sub_image_rows x y width height format kind source.now context.now.unpack (bound_buffer state.now context.now BufferTarget.PixelUnpack) (storage_of (bound_texture state.now context.now))) }
{
    let unpack = state.bound_buffer(context, BufferTarget::PixelUnpack);
    let image = storage(state.bound_texture(context));
    images::tex_sub_image(
        x,
        y,
        width,
        height,
        format,
        kind,
        source,
        &context.unpack,
        &unpack,
        image,
    )
}

/// CopyTexSubImage2D.
pub fn decide_copy(
    state: &GroupState,
    context: &Context,
    x: i32,
    y: i32,
    width: i32,
    height: i32,
) -> Decision
    ensures { result ≡ decided (copy_tex_sub_image_rows x y width height (read_is_complete state.now context.now) (read_image state.now context.now) (storage_of (bound_texture state.now context.now)) (reads_bound_texture context.now)) }
{
    images::copy_tex_sub_image(
        x,
        y,
        width,
        height,
        state.read_is_complete(context),
        state.read_image(context),
        storage(state.bound_texture(context)),
        context.reads_bound_texture(),
    )
}

/// The bytes of an image of a format and size.
fn bytes_of_storage(format: FormatWord, width: i32, height: i32) -> u128
    ensures { result ≡ storage_bytes format width height }
{
    match format {
        FormatWord::Known(format) => {
            width.unsigned_abs() as u128
                * height.unsigned_abs() as u128
                * texel_size(format) as u128
        }
        FormatWord::Other => 0,
    }
}

/// TexStorage2D.
pub fn decide_texture(
    state: &GroupState,
    context: &Context,
    levels: i32,
    format: FormatWord,
    width: i32,
    height: i32,
) -> Decision
    ensures { result ≡ decided (tex_storage_rows levels format width height (bound_texture state.now context.now) (passes_limit state.now 0 (storage_bytes format width height))) }
{
    let full = state.passes_limit(0, bytes_of_storage(format, width, height));
    let bound = state.bound_texture(context);
    images::tex_storage(levels, format, width, height, bound, full)
}

/// RenderbufferStorage.
pub fn decide_renderbuffer(
    state: &GroupState,
    context: &Context,
    format: FormatWord,
    width: i32,
    height: i32,
) -> Decision
    ensures { let bound = bound_renderbuffer state.now context.now in result ≡ decided (renderbuffer_storage_rows format width height bound (passes_limit state.now (image_bytes (storage_of bound)) (storage_bytes format width height))) }
{
    let bound = state.bound_renderbuffer(context);
    let held = bytes_of(storage(bound));
    let full = state.passes_limit(held, bytes_of_storage(format, width, height));
    images::renderbuffer_storage(format, width, height, bound, full)
}

/// BlitFramebuffer.
pub fn decide_blit(
    state: &GroupState,
    context: &Context,
    mask: BlitMask,
    filter: BlitFilter,
) -> Decision
    ensures { result ≡ decided (blit_rows mask filter (read_is_complete state.now context.now) (draw_is_complete state.now context.now) (read_image state.now context.now) (map (attached_image state.now) (drawn_attachments (draw_framebuffer context.now))) (reads_drawn context.now)) }
{
    let read_complete = state.read_is_complete(context);
    let draw_complete = state.draw_is_complete(context);
    let read = state.read_image(context);
    let same = context.reads_drawn();
    match context.draw_framebuffer() {
        Some(f) => framebuffers::blit(
            mask,
            filter,
            read_complete,
            draw_complete,
            read,
            &[
                state.attached_image(f.draw_attachment(0)),
                state.attached_image(f.draw_attachment(1)),
                state.attached_image(f.draw_attachment(2)),
                state.attached_image(f.draw_attachment(3)),
            ],
            same,
        ),
        None => framebuffers::blit(mask, filter, read_complete, draw_complete, read, &[], same),
    }
}

/// ReadPixels.
pub fn decide_read(
    state: &GroupState,
    context: &Context,
    width: i32,
    height: i32,
    format: PixelFormat,
    kind: PixelType,
    destination: PixelDestination,
) -> Decision
    ensures { result ≡ decided (read_pixels_rows width height format kind destination context.now.pack (bound_buffer state.now context.now BufferTarget.PixelPack) (read_is_complete state.now context.now) (read_image state.now context.now)) }
{
    let pack = state.bound_buffer(context, BufferTarget::PixelPack);
    images::read_pixels(
        width,
        height,
        format,
        kind,
        destination,
        &context.pack,
        &pack,
        state.read_is_complete(context),
        state.read_image(context),
    )
}
