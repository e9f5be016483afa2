// Nodes that write a rectangle of an image, on its bytes.
ghost use Rattle.std.specs.Prelude.{◌≡◌, ◌+◌, ◌*◌, ◌≤◌, length};
ghost use Rattle.cells.specs.Contents.{part, overwritten};
ghost use Rattle.vk_model.specs.Cells.{texel_size};
ghost use Rattle.vk_objects.specs.Images.{kind_of_shape, rect_of, IsInside, HasAll, IsPainted, IsCleared, HasRows, AreWritten};

use crate::shapes::{Area, Shape};

/// Puts bytes in the place of those that stand from `at` on.
pub(crate) fn put(bytes: &mut [u8], at: usize, others: &[u8])
    requires { at + length others.now ≤ length bytes.old }
    ensures { bytes.new ≡ overwritten bytes.old at others.now }
{
    bytes[at..at + others.len()].copy_from_slice(others);
}

/// Writes a texel `count` times from `at` on.
fn paint(bytes: &mut [u8], at: usize, count: usize, texel: &[u8])
    requires { at + count * length texel.now ≤ length bytes.old }
    ensures { IsPainted bytes.old bytes.new at count texel.now }
{
    let size = texel.len();
    for x in 0..count {
        put(bytes, at + x * size, texel);
    }
}

/// Writes a texel to each place of an area.
pub(crate) fn clear(bytes: &mut [u8], shape: Shape, area: Area, texel: &[u8; 16])
    requires inside { IsInside area shape }
    requires whole { HasAll shape (length bytes.old) }
    ensures { IsCleared bytes.old bytes.new (kind_of_shape shape) (rect_of area) texel.now }
{
    let start = &texel[..shape.texel()];
    for k in 0..area.height {
        let at = shape.place(area.left, area.top + k);
        paint(bytes, at, area.width, start);
    }
}

/// Some bytes from a place on.
pub(crate) fn row_of(from: &[u8], at: usize, len: usize) -> &[u8]
    requires { at + len ≤ length from.now }
    ensures { result.now ≡ part from.now at len }
{
    &from[at..at + len]
}

/// Writes rows to an area: row k is that from `at + k * stride` on.
pub(crate) fn write_rows(
    bytes: &mut [u8],
    shape: Shape,
    area: Area,
    from: &[u8],
    at: usize,
    stride: usize,
)
    requires inside { IsInside area shape }
    requires whole { HasAll shape (length bytes.old) }
    requires rows { HasRows (length from.now) at stride area.height (area.width * texel_size (kind_of_shape shape)) }
    ensures { AreWritten bytes.old bytes.new (kind_of_shape shape) (rect_of area) from.now at stride }
{
    let len = area.width * shape.texel();
    for k in 0..area.height {
        let row = row_of(from, at + k * stride, len);
        put(bytes, shape.place(area.left, area.top + k), row);
    }
}
