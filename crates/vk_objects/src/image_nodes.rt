// Nodes on images.
ghost use Rattle.std.specs.Prelude.{◌≡◌, ◌≢◌, ◌*◌};
ghost use Rattle.vk_model.specs.Cells.{texel_size};
ghost use Rattle.vk_model.specs.Fitting.{HasRect, HasRange, OpFits, format_in, IsImage};
ghost use Rattle.vk_types.specs.declared.ops.Op.TheVariants.{ClearImage, CopyImage, BufferToImage, ImageToBuffer, BlitImage};
ghost use Rattle.vk_types.specs.Touches.{rows_size, buffer_texel};
ghost use Rattle.vk_objects.specs.Images.{IsCleared, AreWritten, AreCopied};
ghost use Rattle.vk_objects.specs.Blits.{IsBlitted};
ghost use Rattle.vk_objects.specs.Rows.{row_byte, HasOutRows};
ghost use Rattle.vk_objects.specs.Objects.{kind_of, bytes_of, kinds_of, HasSize, Rewrites, Executes};

use crate::Objects;
use crate::blits::blit;
use crate::images::{clear, write_rows};
use crate::out_rows::read_area;
use crate::shapes::Area;
use vk_types::{Coords, HandleId, Rect};

/// Clears a rectangle of an image.
fn put_clear(objects: &mut Objects, image: HandleId, rect: Rect, texel: &[u8; 16])
    requires rect { HasRect (kind_of objects.old image.0) rect }
    requires sized { HasSize (kind_of objects.old image.0) (bytes_of objects.old image.0) }
    ensures rewrites { Rewrites objects.old objects.new image.0 }
    ensures cleared { IsCleared (bytes_of objects.old image.0) (bytes_of objects.new image.0) (kinds_of objects.old image.0) rect texel.now }
{
    let shape = objects.shape(image);
    let area = Area::of(rect, shape);
    let mut bytes = objects.take(image);
    clear(bytes.as_mut_slice(), shape, area, texel);
    objects.put_back(image, bytes);
}

/// Copies rows of a buffer to a rectangle of an image.
fn put_rows(
    objects: &mut Objects,
    src: HandleId,
    src_at: usize,
    stride: usize,
    dst: HandleId,
    rect: Rect,
)
    requires src { HasRange (kind_of objects.old src.0) src_at (rows_size rect stride (texel_size (kinds_of objects.old dst.0))) }
    requires src_sized { HasSize (kind_of objects.old src.0) (bytes_of objects.old src.0) }
    requires rect { HasRect (kind_of objects.old dst.0) rect }
    requires sized { HasSize (kind_of objects.old dst.0) (bytes_of objects.old dst.0) }
    ensures rewrites { Rewrites objects.old objects.new dst.0 }
    ensures written { AreWritten (bytes_of objects.old dst.0) (bytes_of objects.new dst.0) (kinds_of objects.old dst.0) rect (bytes_of objects.old src.0) src_at stride }
{
    let shape = objects.shape(dst);
    let area = Area::of(rect, shape);
    let mut bytes = objects.take(dst);
    match objects.bytes(src) {
        Some(from) => write_rows(bytes.as_mut_slice(), shape, area, from, src_at, stride),
        None => unreachable!(),
    }
    objects.put_back(dst, bytes);
}

fn rectangle(x: i32, y: i32, w: u32, h: u32) -> Rect
    ensures { result ≡ record { x = x; y = y; w = w; h = h } }
{
    Rect { x, y, w, h }
}

/// Copies texels between two images of one format.
fn put_image(
    objects: &mut Objects,
    src: HandleId,
    src_x: i32,
    src_y: i32,
    dst: HandleId,
    rect: Rect,
)
    requires source { HasRect (kind_of objects.old src.0) (record { x = src_x; y = src_y; w = rect.w; h = rect.h }) }
    requires src_sized { HasSize (kind_of objects.old src.0) (bytes_of objects.old src.0) }
    requires rect { HasRect (kind_of objects.old dst.0) rect }
    requires sized { HasSize (kind_of objects.old dst.0) (bytes_of objects.old dst.0) }
    requires format { format_in (kind_of objects.old src.0) ≡ format_in (kind_of objects.old dst.0) }
    requires apart { src.0 ≢ dst.0 }
    ensures rewrites { Rewrites objects.old objects.new dst.0 }
    ensures copied { AreCopied (bytes_of objects.old dst.0) (bytes_of objects.new dst.0) (kinds_of objects.old src.0) (kinds_of objects.old dst.0)
        (bytes_of objects.old src.0) src_x src_y rect }
{
    let from = objects.shape(src);
    let source = Area::of(rectangle(src_x, src_y, rect.w, rect.h), from);
    let shape = objects.shape(dst);
    let area = Area::of(rect, shape);
    let mut bytes = objects.take(dst);
    let at = from.place(source.left, source.top);
    let stride = from.width as usize * from.texel();
    match objects.bytes(src) {
        Some(image) => write_rows(bytes.as_mut_slice(), shape, area, image, at, stride),
        None => unreachable!(),
    }
    objects.put_back(dst, bytes);
}

/// Copies rows of an image to a buffer.
fn put_out_rows(
    objects: &mut Objects,
    src: HandleId,
    rect: Rect,
    dst: HandleId,
    dst_at: usize,
    stride: usize,
    expand: bool,
)
    requires rect { HasRect (kind_of objects.old src.0) rect }
    requires src_sized { HasSize (kind_of objects.old src.0) (bytes_of objects.old src.0) }
    requires dst { HasRange (kind_of objects.old dst.0) dst_at (rows_size rect stride (buffer_texel (texel_size (kinds_of objects.old src.0)) expand)) }
    requires sized { HasSize (kind_of objects.old dst.0) (bytes_of objects.old dst.0) }
    ensures rewrites { Rewrites objects.old objects.new dst.0 }
    ensures rows { HasOutRows (bytes_of objects.old dst.0) (bytes_of objects.new dst.0) dst_at (rect.w * buffer_texel (texel_size (kinds_of objects.old src.0)) expand) stride rect.h
        (row_byte (kinds_of objects.old src.0) (bytes_of objects.old src.0) rect (buffer_texel (texel_size (kinds_of objects.old src.0)) expand) expand) }
{
    let shape = objects.shape(src);
    let area = Area::of(rect, shape);
    let mut bytes = objects.take(dst);
    match objects.bytes(src) {
        Some(image) => read_area(
            bytes.as_mut_slice(),
            dst_at,
            stride,
            image,
            shape,
            area,
            expand,
        ),
        None => unreachable!(),
    }
    objects.put_back(dst, bytes);
}

/// Writes a texel to a rectangle of an image.
pub(crate) fn clear_image(objects: &mut Objects, image: HandleId, rect: Rect, texel: &[u8; 16])
    requires fits { OpFits (kind_of objects.old) (ClearImage image rect texel.now) }
    requires sized { HasSize (kind_of objects.old image.0) (bytes_of objects.old image.0) }
    ensures { Executes objects.old objects.new (record { op = ClearImage image rect texel.now }) }
{
    put_clear(objects, image, rect, texel);
}

/// Copies texels between two images.
pub(crate) fn copy_image(
    objects: &mut Objects,
    src: HandleId,
    src_x: i32,
    src_y: i32,
    dst: HandleId,
    rect: Rect,
)
    requires fits { OpFits (kind_of objects.old) (CopyImage src src_x src_y dst rect) }
    requires src_sized { HasSize (kind_of objects.old src.0) (bytes_of objects.old src.0) }
    requires sized { HasSize (kind_of objects.old dst.0) (bytes_of objects.old dst.0) }
    ensures { Executes objects.old objects.new (record { op = CopyImage src src_x src_y dst rect }) }
{
    put_image(objects, src, src_x, src_y, dst, rect);
}

/// Copies rows of a buffer to a rectangle of an image.
pub(crate) fn buffer_to_image(
    objects: &mut Objects,
    src: HandleId,
    src_at: u64,
    stride: u64,
    texel_size: u32,
    dst: HandleId,
    rect: Rect,
)
    requires fits { OpFits (kind_of objects.old) (BufferToImage src src_at stride texel_size dst rect) }
    requires src_sized { HasSize (kind_of objects.old src.0) (bytes_of objects.old src.0) }
    requires sized { HasSize (kind_of objects.old dst.0) (bytes_of objects.old dst.0) }
    ensures { Executes objects.old objects.new (record { op = BufferToImage src src_at stride texel_size dst rect }) }
{
    let _count = objects.byte_count(src);
    put_rows(objects, src, src_at as usize, stride as usize, dst, rect);
}

/// Copies rows of an image to a buffer, each texel as it is or as four words.
pub(crate) fn image_to_buffer(
    objects: &mut Objects,
    src: HandleId,
    rect: Rect,
    dst: HandleId,
    dst_at: u64,
    stride: u64,
    texel_size: u32,
    expand: bool,
)
    requires fits { OpFits (kind_of objects.old) (ImageToBuffer src rect dst dst_at stride texel_size expand) }
    requires src_sized { HasSize (kind_of objects.old src.0) (bytes_of objects.old src.0) }
    requires sized { HasSize (kind_of objects.old dst.0) (bytes_of objects.old dst.0) }
    ensures { Executes objects.old objects.new (record { op = ImageToBuffer src rect dst dst_at stride texel_size expand }) }
{
    put_out_rows(
        objects,
        src,
        rect,
        dst,
        dst_at as usize,
        stride as usize,
        expand,
    );
}

fn put_blit(objects: &mut Objects, src: HandleId, dst: HandleId, coords: &Coords, clip: Rect)
    requires source { IsImage (kind_of objects.old src.0) }
    requires src_sized { HasSize (kind_of objects.old src.0) (bytes_of objects.old src.0) }
    requires rect { HasRect (kind_of objects.old dst.0) clip }
    requires sized { HasSize (kind_of objects.old dst.0) (bytes_of objects.old dst.0) }
    requires apart { src.0 ≢ dst.0 }
    ensures rewrites { Rewrites objects.old objects.new dst.0 }
    ensures blitted { IsBlitted (bytes_of objects.old dst.0) (bytes_of objects.new dst.0) (kinds_of objects.old src.0) (kinds_of objects.old dst.0)
        (bytes_of objects.old src.0) coords.now clip }
{
    let source = objects.shape(src);
    let shape = objects.shape(dst);
    let area = Area::of(clip, shape);
    let mut bytes = objects.take(dst);
    match objects.bytes(src) {
        Some(image) => blit(bytes.as_mut_slice(), shape, image, source, coords, area),
        None => unreachable!(),
    }
    objects.put_back(dst, bytes);
}

/// Copies and scales texels between two images.
pub(crate) fn blit_image(
    objects: &mut Objects,
    src: HandleId,
    dst: HandleId,
    coords: &Coords,
    clip: Rect,
)
    requires fits { OpFits (kind_of objects.old) (BlitImage src dst coords.now clip) }
    requires src_sized { HasSize (kind_of objects.old src.0) (bytes_of objects.old src.0) }
    requires sized { HasSize (kind_of objects.old dst.0) (bytes_of objects.old dst.0) }
    ensures { Executes objects.old objects.new (record { op = BlitImage src dst coords.now clip }) }
{
    put_blit(objects, src, dst, coords, clip);
}
