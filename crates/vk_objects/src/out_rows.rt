// Rows of an image that go to a buffer, on their bytes.
ghost use Rattle.std.specs.Prelude.{◌*◌, length, true, false};
ghost use Rattle.vk_types.specs.Touches.{buffer_texel};
ghost use Rattle.vk_model.specs.Cells.{texel_size};
ghost use Rattle.vk_objects.specs.Images.{kind_of_shape, rect_of, IsInside, HasAll, HasRows};
ghost use Rattle.vk_objects.specs.Rows.{row_byte, HasOutRows};

use crate::images::{put, row_of};
use crate::shapes::{Area, Shape};
use crate::texels::expand_row;

/// Writes the rows of an area to a buffer: row k from `at + k * stride` on.
fn read_rows(bytes: &mut [u8], at: usize, stride: usize, image: &[u8], shape: Shape, area: Area)
    requires inside { IsInside area shape }
    requires whole { HasAll shape (length image.now) }
    requires rows { HasRows (length bytes.old) at stride area.height (area.width * texel_size (kind_of_shape shape)) }
    ensures { HasOutRows bytes.old bytes.new at (area.width * texel_size (kind_of_shape shape)) stride area.height
        (row_byte (kind_of_shape shape) image.now (rect_of area) (texel_size (kind_of_shape shape)) false) }
{
    let len = area.width * shape.texel();
    for k in 0..area.height {
        let row = row_of(image, shape.place(area.left, area.top + k), len);
        put(bytes, at + k * stride, row);
    }
}

/// So with each texel as four words of 32 bits.
fn read_expanded(bytes: &mut [u8], at: usize, stride: usize, image: &[u8], shape: Shape, area: Area)
    requires inside { IsInside area shape }
    requires whole { HasAll shape (length image.now) }
    requires rows { HasRows (length bytes.old) at stride area.height (area.width * 16) }
    ensures { HasOutRows bytes.old bytes.new at (area.width * 16) stride area.height (row_byte (kind_of_shape shape) image.now (rect_of area) 16 true) }
{
    for k in 0..area.height {
        let row = area.top + k;
        expand_row(
            bytes,
            at + k * stride,
            image,
            shape,
            area.left,
            row,
            area.width,
        );
    }
}

/// Writes the rows of an area to a buffer, each texel as it is or as four words of 32 bits.
pub(crate) fn read_area(
    bytes: &mut [u8],
    at: usize,
    stride: usize,
    image: &[u8],
    shape: Shape,
    area: Area,
    expand: bool,
)
    requires inside { IsInside area shape }
    requires whole { HasAll shape (length image.now) }
    requires rows { HasRows (length bytes.old) at stride area.height (area.width * buffer_texel (texel_size (kind_of_shape shape)) expand) }
    ensures { HasOutRows bytes.old bytes.new at (area.width * buffer_texel (texel_size (kind_of_shape shape)) expand) stride area.height
        (row_byte (kind_of_shape shape) image.now (rect_of area) (buffer_texel (texel_size (kind_of_shape shape)) expand) expand) }
{
    if expand {
        read_expanded(bytes, at, stride, image, shape, area);
    } else {
        read_rows(bytes, at, stride, image, shape, area);
    }
}
