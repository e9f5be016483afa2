ghost use Rattle.std.specs.Prelude.{◌≡◌, ◌&&◌, ◌||◌, not, Some, is_some};
ghost use Rattle.gl_errors.specs.Decision.{decided};
ghost use Rattle.gl_calls.specs.Words.{is_none_drawn, is_other_drawn, drawn_point, is_color_mask};
ghost use Rattle.std.specs.List.{list_any};
ghost use Rattle.gl_model.specs.Bindings.{same_option};
ghost use Rattle.gl_model.specs.ImageRows.{image_has};
ghost use Rattle.gl_model.specs.FramebufferRows.{
  get_rows,
  bind_rows,
  gen_rows,
  attach_rows,
  status_rows,
  draw_buffers_rows,
  read_buffer_rows,
  clear_rows,
  scissor_rows,
  blit_rows,
  invalidate_rows,
  pixel_store_rows,
  is_only_none,
  is_misplaced,
  differs_in_sign,
};

use crate::decision::{Decision, refused};
use formats::is_signed;
use gl_calls::{
    BindTarget, BlitFilter, BlitMask, BufferTarget, DrawBuffer, FramebufferTarget, GlError,
    LimitName, StoreParameter,
};
use gl_model::ImageInfo;

/// GetIntegerv.
pub fn get(limit: LimitName) -> Decision
    ensures { result ≡ decided (get_rows limit) }
{
    if matches!(limit, LimitName::Other) {
        return refused(GlError::InvalidEnum);
    }
    Decision::Accepted
}

/// The Bind calls.
pub fn bind(target: BindTarget) -> Decision
    ensures { result ≡ decided (bind_rows target) }
{
    match target {
        BindTarget::Buffer(BufferTarget::Other)
        | BindTarget::Framebuffer(FramebufferTarget::Other) => refused(GlError::InvalidEnum),
        _ => Decision::Accepted,
    }
}

/// The Gen calls.
pub fn gen_names(count: i32) -> Decision
    ensures { result ≡ decided (gen_rows count) }
{
    if count < 0 {
        return refused(GlError::InvalidValue);
    }
    Decision::Accepted
}

/// FramebufferTexture2D and FramebufferRenderbuffer; bound is the name of the framebuffer.
pub fn attach(target: FramebufferTarget, bound: u32, name: u32, exists: bool) -> Decision
    ensures { result ≡ decided (attach_rows target bound name exists) }
{
    if matches!(target, FramebufferTarget::Other) {
        return refused(GlError::InvalidEnum);
    }
    if bound == 0 {
        return refused(GlError::InvalidOperation);
    }
    if name != 0 && !exists {
        return refused(GlError::InvalidOperation);
    }
    Decision::Accepted
}

/// CheckFramebufferStatus.
pub fn status(target: FramebufferTarget) -> Decision
    ensures { result ≡ decided (status_rows target) }
{
    if matches!(target, FramebufferTarget::Other) {
        return refused(GlError::InvalidEnum);
    }
    Decision::Accepted
}

/// Whether a word is none.
fn is_none_word(buffer: DrawBuffer) -> bool
    ensures { result ≡ is_none_drawn buffer }
{
    matches!(buffer, DrawBuffer::None)
}

/// Whether a word is other.
fn is_other_word(buffer: DrawBuffer) -> bool
    ensures { result ≡ is_other_drawn buffer }
{
    matches!(buffer, DrawBuffer::Other)
}

/// Whether the list is the one word none.
fn only_none(buffers: &[DrawBuffer]) -> bool
    ensures { result ≡ is_only_none buffers.now }
{
    match buffers {
        [buffer] => is_none_word(*buffer),
        _ => false,
    }
}

/// Whether a word may stand as argument i.
fn fits_argument(buffer: DrawBuffer, i: usize) -> bool
    ensures { result ≡ (is_none_drawn buffer || same_option (drawn_point buffer) (Some i)) }
{
    if is_none_word(buffer) {
        return true;
    }
    match buffer.point() {
        Some(point) => point as usize == i,
        None => false,
    }
}

/// Whether some argument is neither none nor the point of its own place.
fn misplaced(buffers: &[DrawBuffer]) -> bool
    ensures { result ≡ is_misplaced buffers.now }
{
    buffers
        .iter()
        .enumerate()
        .any(|(i, buffer)| !fits_argument(*buffer, i))
}

/// Whether some word is other.
fn has_other(buffers: &[DrawBuffer]) -> bool
    ensures { result ≡ list_any is_other_drawn buffers.now }
{
    buffers.iter().any(|buffer| is_other_word(*buffer))
}

/// DrawBuffers.
pub fn draw_buffers(buffers: &[DrawBuffer], bound: u32) -> Decision
    ensures { result ≡ decided (draw_buffers_rows buffers.now bound) }
{
    if has_other(buffers) {
        return refused(GlError::InvalidEnum);
    }
    if bound == 0 && !only_none(buffers) {
        return refused(GlError::InvalidOperation);
    }
    if misplaced(buffers) {
        return refused(GlError::InvalidOperation);
    }
    Decision::Accepted
}

/// ReadBuffer.
pub fn read_buffer(buffer: DrawBuffer, bound: u32) -> Decision
    ensures { result ≡ decided (read_buffer_rows buffer bound) }
{
    match buffer {
        DrawBuffer::Other => refused(GlError::InvalidEnum),
        DrawBuffer::Point(_) if bound == 0 => refused(GlError::InvalidOperation),
        _ => Decision::Accepted,
    }
}

/// ClearBufferuiv and ClearBufferiv of COLOR.
pub fn clear(buffer: i32, complete: bool) -> Decision
    ensures { result ≡ decided (clear_rows buffer complete) }
{
    if buffer < 0 || buffer > 3 {
        return refused(GlError::InvalidValue);
    }
    if !complete {
        return refused(GlError::InvalidFramebufferOperation);
    }
    Decision::Accepted
}

/// Scissor.
pub fn scissor(width: i32, height: i32) -> Decision
    ensures { result ≡ decided (scissor_rows width height) }
{
    if width < 0 || height < 0 {
        return refused(GlError::InvalidValue);
    }
    Decision::Accepted
}

/// Whether two images differ in signedness.
fn differs(read: Option<ImageInfo>, drawn: Option<ImageInfo>) -> bool
    ensures { result ≡ image_has (differs_in_sign read) drawn }
{
    match (read, drawn) {
        (Some(read), Some(drawn)) => is_signed(read.format) != is_signed(drawn.format),
        _ => false,
    }
}

/// Whether some image is drawn to.
fn some_drawn(drawn: &[Option<ImageInfo>]) -> bool
    ensures { result ≡ list_any is_some drawn.now }
{
    drawn.iter().any(|d| d.is_some())
}

/// Whether a blit copies anything.
fn copies(mask: BlitMask, read: Option<ImageInfo>, drawn: &[Option<ImageInfo>]) -> bool
    ensures { result ≡ (is_color_mask mask && is_some read && list_any is_some drawn.now) }
{
    match (mask, read) {
        (BlitMask::Color, Some(_)) => some_drawn(drawn),
        _ => false,
    }
}

/// Whether some image that is drawn to differs in signedness from the one that is read.
fn some_differ(read: Option<ImageInfo>, drawn: &[Option<ImageInfo>]) -> bool
    ensures { result ≡ list_any (image_has (differs_in_sign read)) drawn.now }
{
    drawn.iter().any(|d| differs(read, *d))
}

/// BlitFramebuffer. Same says that the read image is one of those drawn to.
pub fn blit(
    mask: BlitMask,
    filter: BlitFilter,
    read_complete: bool,
    draw_complete: bool,
    read: Option<ImageInfo>,
    drawn: &[Option<ImageInfo>],
    same: bool,
) -> Decision
    ensures { result ≡ decided (blit_rows mask filter read_complete draw_complete read drawn.now same) }
{
    if matches!(mask, BlitMask::Other) {
        return refused(GlError::InvalidValue);
    }
    if matches!(filter, BlitFilter::Other) {
        return refused(GlError::InvalidEnum);
    }
    if !read_complete || !draw_complete {
        return refused(GlError::InvalidFramebufferOperation);
    }
    if !copies(mask, read, drawn) {
        return Decision::Accepted;
    }
    if matches!(filter, BlitFilter::Linear) {
        return refused(GlError::InvalidOperation);
    }
    if some_differ(read, drawn) {
        return refused(GlError::InvalidOperation);
    }
    if same {
        return refused(GlError::InvalidOperation);
    }
    Decision::Accepted
}

/// InvalidateFramebuffer of one attachment.
pub fn invalidate(target: FramebufferTarget, buffer: DrawBuffer, bound: u32) -> Decision
    ensures { result ≡ decided (invalidate_rows target buffer bound) }
{
    match (target, buffer) {
        (FramebufferTarget::Other, _) | (_, DrawBuffer::None | DrawBuffer::Other) => {
            refused(GlError::InvalidEnum)
        }
        _ if bound == 0 => refused(GlError::InvalidEnum),
        _ => Decision::Accepted,
    }
}

/// PixelStorei.
pub fn pixel_store(parameter: StoreParameter, value: i32) -> Decision
    ensures { result ≡ decided (pixel_store_rows parameter value) }
{
    match parameter {
        StoreParameter::Other => refused(GlError::InvalidEnum),
        StoreParameter::PackAlign | StoreParameter::UnpackAlign => {
            if value == 1 || value == 2 || value == 4 || value == 8 {
                Decision::Accepted
            } else {
                refused(GlError::InvalidValue)
            }
        }
        _ => {
            if value < 0 {
                refused(GlError::InvalidValue)
            } else {
                Decision::Accepted
            }
        }
    }
}
