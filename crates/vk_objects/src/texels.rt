// Texels that become four words of 32 bits.
ghost use Rattle.std.specs.Prelude.{◌≡◌, ◌+◌, ◌*◌, ◌/◌, ◌%◌, ◌<◌, ◌≤◌, length, true};
ghost use Rattle.cells.specs.Contents.{cell_at};
ghost use Rattle.vk_model.specs.Texels.{format_at, texel_bytes, expanded_texel};
ghost use Rattle.vk_model.specs.Cells.{texel_to_buffer};
ghost use Rattle.vk_objects.specs.Images.{kind_of_shape, HasAll};
ghost use Rattle.vk_objects.specs.Rows.{HasRow};

use crate::images::{put, row_of};
use crate::shapes::Shape;
use formats::Format;

/// The format at a place of the list of formats.
pub(crate) fn format(number: u8) -> Format
    requires { number < 12 }
    ensures { result ≡ format_at number }
{
    match number {
        0 => Format::R8ui,
        1 => Format::R8i,
        2 => Format::R16ui,
        3 => Format::R16i,
        4 => Format::R32ui,
        5 => Format::R32i,
        6 => Format::Rg8ui,
        7 => Format::Rgba8ui,
        8 => Format::Rgba8i,
        9 => Format::Rgb10A2ui,
        10 => Format::Rgba32ui,
        _ => Format::Rgba32i,
    }
}

/// The low byte of a number.
fn low(v: u32) -> u8
    ensures { result ≡ v % 256 }
{
    (v % 256) as u8
}

/// A texel's four components as words, the lowest byte first.
fn expanded(number: u8, texel: &[u8]) -> [u8; 16]
    requires known { number < 12 }
    requires size { length texel.now ≡ texel_bytes number }
    ensures { result ≡ expanded_texel number texel.now }
{
    let [r, g, b, a] = formats::expand(format(number), texel);
    [
        low(r),
        low(r / 256),
        low(r / 256 / 256),
        low(r / 256 / 256 / 256),
        low(g),
        low(g / 256),
        low(g / 256 / 256),
        low(g / 256 / 256 / 256),
        low(b),
        low(b / 256),
        low(b / 256 / 256),
        low(b / 256 / 256 / 256),
        low(a),
        low(a / 256),
        low(a / 256 / 256),
        low(a / 256 / 256 / 256),
    ]
}

/// Writes the texels of a row of an image, from a column on, each as four words.
pub(crate) fn expand_row(
    bytes: &mut [u8],
    at: usize,
    image: &[u8],
    shape: Shape,
    left: usize,
    row: usize,
    count: usize,
)
    requires columns { left + count ≤ shape.width }
    requires row { row < shape.height }
    requires whole { HasAll shape (length image.now) }
    requires fits { at + count * 16 ≤ length bytes.old }
    ensures { HasRow bytes.old bytes.new at (count * 16) (λ j. texel_to_buffer (kind_of_shape shape) (cell_at image.now) true (left + j / 16) row (j % 16)) }
{
    for x in 0..count {
        let texel = row_of(image, shape.place(left + x, row), shape.texel());
        put(bytes, at + x * 16, &expanded(shape.format, texel));
    }
}
