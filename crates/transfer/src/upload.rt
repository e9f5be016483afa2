ghost use Rattle.std.specs.Prelude.{◌≡◌, ◌+◌, ◌^◌, ◌<◌};
ghost use Rattle.formats.specs.Rows.{needed_length};
ghost use Rattle.gl_model.specs.ImageEffect.{texel_bytes};
ghost use Rattle.transfer.specs.Uploads.{upload_of};

use formats::{PixelStore, row_layout, texel_size};
use gl_model::ImageInfo;
use vk_types::{HandleId, Node, Op, Rect};

/// The node of an upload to a rectangle of an image. The bytes that its rows need begin at the place `at` of the buffer `src`.
/// (OpenGL ES 3.0.6, Transfer of Pixel Rectangles and Alternate Texture Image Specification Commands.)
pub fn upload_node(
    src: HandleId,
    at: u64,
    store: &PixelStore,
    info: &ImageInfo,
    image: HandleId,
    rect: Rect,
) -> Option<Node>
    requires { at + needed_length store.now (texel_bytes info.now) rect.w rect.h < 2 ^ 64 }
    ensures { result ≡ upload_of src at store.now info.now image rect }
{
    if rect.w == 0 || rect.h == 0 {
        return None;
    }
    let texel_size = texel_size(info.format);
    let layout = row_layout(store, texel_size, rect.w, rect.h);
    Some(Node {
        op: Op::BufferToImage {
            src,
            src_at: at + layout.first as u64,
            stride: layout.stride,
            texel_size,
            dst: image,
            rect,
        },
    })
}
