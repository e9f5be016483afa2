ghost use Rattle.std.specs.Prelude.{◌≡◌, ◌+◌, ◌^◌, ◌<◌, pos, unsigned_abs};
ghost use Rattle.transfer.specs.Copies.{copy_of};

use crate::overlap::overlap_of;
use gl_model::ImageInfo;
use vk_types::{HandleId, Node, Op, Rect};

/// A number that is not below 0, and so many more.
fn moved_by(z: i32, by: u32) -> i32
    requires { unsigned_abs z + by < 2 ^ 31 }
    ensures { result ≡ pos (unsigned_abs z + by) }
{
    (z.unsigned_abs() + by) as i32
}

/// The node of a copy to a rectangle of an image, from the texels of another image from the column `x` and the row `y` on.
/// Texels outside the image that is read are not copied, and there is no node where all lie outside.
/// (OpenGL ES 3.0.6, Alternate Texture Image Specification Commands.)
pub fn copy_node(
    src: HandleId,
    read: &ImageInfo,
    x: i32,
    y: i32,
    dst: HandleId,
    rect: Rect,
) -> Option<Node>
    requires columns { unsigned_abs rect.x + rect.w < 2 ^ 31 }
    requires rows { unsigned_abs rect.y + rect.h < 2 ^ 31 }
    ensures { result ≡ copy_of src read.now x y dst rect }
{
    let source = Rect {
        x,
        y,
        w: rect.w,
        h: rect.h,
    };
    match overlap_of((read.width, read.height), source) {
        None => None,
        Some(part) => Some(Node {
            op: Op::CopyImage {
                src,
                src_x: part.rect.x,
                src_y: part.rect.y,
                dst,
                rect: Rect {
                    x: moved_by(rect.x, part.left),
                    y: moved_by(rect.y, part.top),
                    w: part.rect.w,
                    h: part.rect.h,
                },
            },
        }),
    }
}
