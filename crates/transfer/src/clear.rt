ghost use Rattle.std.specs.Prelude.{◌≡◌, ◌+◌, ◌≤◌, [], ◌∷◌, IfSome, unsigned_abs};
ghost use Rattle.transfer.specs.Clears.{stored, least_area, IsCommonArea, scissor_of, box_in, clear_rect};
ghost use Rattle.transfer.specs.Clears.{texel_of, clears_nothing, clear_of};

use crate::overlap::overlap_of;
use formats::{Format, fits, is_signed, pack, texel_size};
use gl_model::{ImageInfo, ScissorBox};
use vk_types::{HandleId, Node, Op, Rect};

/// The lesser sides of an area and of an image that has storage.
fn narrowed(area: (u32, u32), image: Option<ImageInfo>) -> (u32, u32)
    ensures { result ≡ least_area (image ∷ []) area }
{
    match image {
        Some(info) => (info.width.min(area.0), info.height.min(area.1)),
        None => area,
    }
}

/// The least width and the least height of an area and of the images that have storage.
fn least_area(attached: &[Option<ImageInfo>; 4], area: (u32, u32)) -> (u32, u32)
    ensures { result ≡ least_area attached.now area }
{
    let [a, b, c, d] = *attached;
    narrowed(narrowed(narrowed(narrowed(area, d), c), b), a)
}

/// What an image has in common with all images at the points of its framebuffer, by its width and its height.
pub fn common_area(info: &ImageInfo, attached: &[Option<ImageInfo>; 4]) -> (u32, u32)
    ensures value { result ≡ least_area attached.now (info.now.width, info.now.height) }
    ensures common { IsCommonArea info.now (stored attached.now) result }
{
    least_area(attached, (info.width, info.height))
}

/// The box of a scissor whose test is on.
pub fn scissor_of(on: bool, scissor: ScissorBox) -> Option<ScissorBox>
    ensures { result ≡ scissor_of on scissor }
{
    if on { Some(scissor) } else { None }
}

/// The box of a scissor, and a whole area where there is none.
fn box_in(scissor: Option<ScissorBox>, area: (u32, u32)) -> Rect
    ensures { result ≡ box_in scissor area }
{
    match scissor {
        Some(scissor) => Rect {
            x: scissor.x,
            y: scissor.y,
            w: scissor.width,
            h: scissor.height,
        },
        None => Rect {
            x: 0,
            y: 0,
            w: area.0,
            h: area.1,
        },
    }
}

/// What of a scissor's box lies in an area, and the whole area where there is no scissor. There is none where that has no texel.
pub fn clear_rect(scissor: Option<ScissorBox>, area: (u32, u32)) -> Option<Rect>
    ensures value { result ≡ clear_rect scissor area }
    ensures columns { IfSome result (λ rect. unsigned_abs rect.x + rect.w ≤ area.0) }
    ensures rows { IfSome result (λ rect. unsigned_abs rect.y + rect.h ≤ area.1) }
{
    match overlap_of(area, box_in(scissor, area)) {
        Some(part) => Some(part.rect),
        None => None,
    }
}

/// The texel of a value, in the first of 16 bytes.
fn texel_of(format: Format, value: &[u32; 4]) -> [u8; 16]
    ensures { result ≡ texel_of format value.now }
{
    let mut texel = [0u8; 16];
    let size = texel_size(format) as usize;
    pack(format, value, &mut texel[0..size]);
    texel
}

/// Whether no cell that a clear writes is defined.
fn clears_nothing(info: &ImageInfo, signed: bool, value: &[u32; 4]) -> bool
    ensures { result ≡ clears_nothing info.now signed value.now }
{
    signed != is_signed(info.format) || !fits(info.format, value)
}

/// The node of a clear of an image to a value of the given signedness, in what of the scissor's box lies in the area that
/// `common_area` gives. Where the value is of another signedness or does not fit, no cell gets defined, and there is no node.
/// (OpenGL ES 3.0.6, Clearing the Buffers.)
pub fn clear_node(
    image: HandleId,
    info: &ImageInfo,
    signed: bool,
    value: &[u32; 4],
    scissor: Option<ScissorBox>,
    area: (u32, u32),
) -> Option<Node>
    ensures { result ≡ clear_of image info.now signed value.now scissor area }
{
    if clears_nothing(info, signed, value) {
        return None;
    }
    match clear_rect(scissor, area) {
        Some(rect) => Some(Node {
            op: Op::ClearImage {
                image,
                rect,
                texel: texel_of(info.format, value),
            },
        }),
        None => None,
    }
}
