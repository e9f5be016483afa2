// Blits between two images, on their bytes.
ghost use Rattle.std.specs.Prelude.{◌≡◌, ◌+◌, ◌<◌, ◌≤◌, ◌^◌, max, min, length, IfSome};
ghost use Rattle.cells.specs.Contents.{part, overwritten};
ghost use Rattle.vk_objects.specs.Images.{kind_of_shape, rect_of, IsInside, HasAll};
ghost use Rattle.vk_objects.specs.Blits.{HasTexel, HasTexels, IsBlitted};
ghost use Rattle.vk_model.specs.Texels.{texel_bytes, converted_texel};
ghost use Rattle.vk_model.specs.Cells.{place, texel_size, moved, middle, scaled, in_source, source_of};

use crate::images::row_of;
use crate::shapes::{Area, Shape};
use crate::texels::format;
use vk_types::Coords;

/// A coordinate moved up by 2^31, so that none is below 0.
fn moved(z: i32) -> u64
    ensures value { result ≡ moved z }
    ensures bound { result < 2 ^ 32 }
{
    (i64::from(z) + 0x8000_0000) as u64
}

/// Twice the way from the destination's first column to the middle of a column.
fn middle(d0: u64, d1: u64, x: u64) -> u64
    requires first { d0 < 2 ^ 32 }
    requires last { d1 < 2 ^ 32 }
    requires from { min d0 d1 ≤ x }
    requires below { x < max d0 d1 }
    ensures value { result ≡ middle d0 d1 x }
    ensures bound { result < 2 ^ 33 }
{
    if d0 < d1 {
        2 * x + 1 - 2 * d0
    } else {
        2 * d0 - (2 * x + 1)
    }
}

/// The source's column for a column of the destination.
fn scaled(s0: u64, s1: u64, d0: u64, d1: u64, x: u64) -> u128
    requires source_first { s0 < 2 ^ 32 }
    requires source_last { s1 < 2 ^ 32 }
    requires first { d0 < 2 ^ 32 }
    requires last { d1 < 2 ^ 32 }
    requires from { min d0 d1 ≤ x }
    requires below { x < max d0 d1 }
    ensures { result ≡ scaled s0 s1 d0 d1 x }
{
    let way = u128::from(middle(d0, d1, x));
    let wide = 2 * u128::from(d0.max(d1) - d0.min(d1));
    if s0 <= s1 {
        u128::from(s0) + way * u128::from(s1 - s0) / wide
    } else {
        u128::from(s0).saturating_sub((way * u128::from(s0 - s1) + (wide - 1)) / wide)
    }
}

/// The column that is read, counted from the image's first one.
fn in_source(size: u32, s: u128) -> Option<usize>
    ensures value { result ≡ in_source size s }
    ensures bound { IfSome result (λ x. x < size) }
{
    let origin = 0x8000_0000;
    if origin <= s && s < origin + u128::from(size) {
        Some((s - origin) as usize)
    } else {
        None
    }
}

/// The column that is read for a column, where the column is in the destination and its source in the read image.
/// A source without width gives none.
fn source_of(size: u32, s0: i32, s1: i32, d0: i32, d1: i32, x: usize) -> Option<usize>
    requires { x < 2 ^ 32 }
    ensures value { result ≡ source_of size s0 s1 d0 d1 x }
    ensures bound { IfSome result (λ s. s < size) }
{
    let source = (moved(s0), moved(s1));
    let first = moved(d0);
    let last = moved(d1);
    let at = x as u64 + 0x8000_0000;
    if source.0 != source.1 && first.min(last) <= at && at < first.max(last) {
        in_source(size, scaled(source.0, source.1, first, last, at))
    } else {
        None
    }
}

fn source_column(size: u32, coords: &Coords, x: usize) -> Option<usize>
    requires { x < 2 ^ 32 }
    ensures value { result ≡ source_of size coords.now.sx0 coords.now.sx1 coords.now.dx0 coords.now.dx1 x }
    ensures bound { IfSome result (λ s. s < size) }
{
    let c = *coords;
    source_of(size, c.sx0, c.sx1, c.dx0, c.dx1, x)
}

fn source_row(size: u32, coords: &Coords, y: usize) -> Option<usize>
    requires { y < 2 ^ 32 }
    ensures value { result ≡ source_of size coords.now.sy0 coords.now.sy1 coords.now.dy0 coords.now.dy1 y }
    ensures bound { IfSome result (λ s. s < size) }
{
    let c = *coords;
    source_of(size, c.sy0, c.sy1, c.dy0, c.dy1, y)
}

/// Writes a texel of one format as one of another; a component keeps its low bits.
fn put_converted(bytes: &mut [u8], at: usize, to: u8, from: u8, texel: &[u8])
    requires from_known { from < 12 }
    requires to_known { to < 12 }
    requires size { length texel.now ≡ texel_bytes from }
    requires fits { at + texel_bytes to ≤ length bytes.old }
    ensures { bytes.new ≡ overwritten bytes.old at (converted_texel from to texel.now) }
{
    let words = formats::expand(format(from), texel);
    let size = crate::objects::texel_size(to);
    formats::pack(format(to), &words, &mut bytes[at..at + size]);
}

/// The bytes of a texel.
fn texel_of(image: &[u8], shape: Shape, column: usize, row: usize) -> &[u8]
    requires column { column < shape.width }
    requires row { row < shape.height }
    requires whole { HasAll shape (length image.now) }
    ensures texel { result.now ≡ part image.now (place (kind_of_shape shape) column row 0) (texel_size (kind_of_shape shape)) }
    ensures size { length result.now ≡ texel_bytes shape.format }
{
    row_of(image, shape.place(column, row), shape.texel())
}

/// Writes one texel of a blit, where its source lies in the read image.
fn blit_texel(
    bytes: &mut [u8],
    shape: Shape,
    from: &[u8],
    source: Shape,
    coords: &Coords,
    column: usize,
    row: usize,
)
    requires column { column < shape.width }
    requires row { row < shape.height }
    requires whole { HasAll shape (length bytes.old) }
    requires source_whole { HasAll source (length from.now) }
    ensures { HasTexel bytes.old bytes.new (kind_of_shape source) (kind_of_shape shape) from.now coords.now column row }
{
    let Some(x) = source_column(source.width, coords, column) else {
        return;
    };
    let Some(y) = source_row(source.height, coords, row) else {
        return;
    };
    let texel = texel_of(from, source, x, y);
    put_converted(
        bytes,
        shape.place(column, row),
        shape.format,
        source.format,
        texel,
    );
}

/// Writes some texels of a row of a blit.
fn blit_row(
    bytes: &mut [u8],
    shape: Shape,
    from: &[u8],
    source: Shape,
    coords: &Coords,
    area: Area,
    row: usize,
)
    requires columns { area.left + area.width ≤ shape.width }
    requires row { row < shape.height }
    requires whole { HasAll shape (length bytes.old) }
    requires source_whole { HasAll source (length from.now) }
    ensures { HasTexels bytes.old bytes.new (kind_of_shape source) (kind_of_shape shape) from.now coords.now area.left row area.width }
{
    for x in 0..area.width {
        blit_texel(bytes, shape, from, source, coords, area.left + x, row);
    }
}

/// Writes the texels of a blit in an area.
pub(crate) fn blit(
    bytes: &mut [u8],
    shape: Shape,
    from: &[u8],
    source: Shape,
    coords: &Coords,
    area: Area,
)
    requires inside { IsInside area shape }
    requires whole { HasAll shape (length bytes.old) }
    requires source_whole { HasAll source (length from.now) }
    ensures { IsBlitted bytes.old bytes.new (kind_of_shape source) (kind_of_shape shape) from.now coords.now (rect_of area) }
{
    for k in 0..area.height {
        blit_row(bytes, shape, from, source, coords, area, area.top + k);
    }
}
