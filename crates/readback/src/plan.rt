ghost use Rattle.std.specs.Prelude.{◌≡◌, ◌+◌, ◌<◌, ◌≤◌, IfSome};
ghost use Rattle.gl_model.specs.ImageRows.{pair_texel};
ghost use Rattle.readback.specs.Plans.{plan_of};

use formats::{Format, PixelFormat, PixelType, is_pair, own_pair, texel_size};
use gl_model::ImageInfo;
use transfer::{Overlap, overlap_of};
use vk_types::Rect;

/// A read of a rectangle of an image: its sides, what of it lies in the image, the image's format, the bytes of a texel of the
/// client, and whether texels are expanded to four words.
#[derive(Clone, Copy, Debug, PartialEq, Eq)]
pub struct ReadPlan {
    pub width: u32,
    pub height: u32,
    pub part: Overlap,
    pub format: Format,
    pub texel: u32,
    pub expand: bool,
}

/// The bytes of a texel of the client in a pair that the format may be read in.
fn pair_texel(format: Format, pixels: PixelFormat, kind: PixelType) -> u32
    ensures value { result ≡ pair_texel format pixels kind }
    ensures bound { result ≤ 16 }
{
    if is_pair(pixels, kind, own_pair(format)) {
        texel_size(format)
    } else {
        16
    }
}

/// The plan of a read of a rectangle in the format's own pair or in the general one. There is none where the rectangle meets no
/// pixel of the image. (OpenGL ES 3.0.6, Reading Pixels.)
pub fn plan_of(
    info: &ImageInfo,
    pixels: PixelFormat,
    kind: PixelType,
    rect: Rect,
) -> Option<ReadPlan>
    ensures value { result ≡ plan_of info.now pixels kind rect }
    ensures texel { IfSome result (λ plan. plan.texel ≤ 16) }
    ensures columns { IfSome result (λ plan. plan.part.left + plan.part.rect.w ≤ plan.width) }
    ensures rows { IfSome result (λ plan. plan.part.top + plan.part.rect.h ≤ plan.height) }
    ensures some_columns { IfSome result (λ plan. 0 < plan.part.rect.w) }
    ensures some_rows { IfSome result (λ plan. 0 < plan.part.rect.h) }
    ensures in_width { IfSome result (λ plan. plan.part.rect.w ≤ info.now.width) }
    ensures in_height { IfSome result (λ plan. plan.part.rect.h ≤ info.now.height) }
{
    match overlap_of((info.width, info.height), rect) {
        Some(part) => Some(ReadPlan {
            width: rect.w,
            height: rect.h,
            part,
            format: info.format,
            texel: pair_texel(info.format, pixels, kind),
            expand: !is_pair(pixels, kind, own_pair(info.format)),
        }),
        None => None,
    }
}
