ghost use Rattle.std.specs.Prelude.{◌≡◌, IsTrue};
ghost use Rattle.formats.specs.Rows.{first_row_place, row_stride, needed_length, is_alignment, first_storage};

use std::marker::Model;

/// The pixel storage parameters of transfers one way: to the client (pack) or from it (unpack). The alignment of rows is
/// 1, 2, 4 or 8 bytes. `row` counts texels, and 0 stands for the width of the transfer. Skipped rows and pixels come first.
/// (OpenGL ES 3.0.6, Pixel Storage Modes and Pixel Buffer Objects.)
#[derive(Clone, Copy, Debug, PartialEq, Eq)]
pub struct PixelStore {
    pub align: u32,
    pub row: u32,
    pub skip_rows: u32,
    pub skip_pixels: u32,
}

impl Model for PixelStore {
    ghost use Rattle.std.specs.Prelude.{IsTrue};
    ghost use Rattle.formats.specs.Rows.{PixelStorage, is_alignment};

    ghost Value = { PixelStorage };

    ghost view = { λ s. record { align = s.align; row = s.row; skip_rows = s.skip_rows; skip_pixels = s.skip_pixels } };

    ghost invariant = { λ s. IsTrue (is_alignment s.align) };

    ghost inverse = { λ v. record { align = v.align; row = v.row; skip_rows = v.skip_rows; skip_pixels = v.skip_pixels } };
}

impl PixelStore {
    /// The parameters at first: rows begin at multiples of 4, and nothing is skipped.
    pub fn new() -> PixelStore
        ensures { result ≡ first_storage }
    {
        PixelStore {
            align: 4,
            row: 0,
            skip_rows: 0,
            skip_pixels: 0,
        }
    }

    /// The same parameters with another alignment.
    pub fn aligned(self, align: u32) -> PixelStore
        requires { IsTrue (is_alignment align) }
        ensures { result ≡ record self { align = align } }
    {
        PixelStore {
            align,
            row: self.row,
            skip_rows: self.skip_rows,
            skip_pixels: self.skip_pixels,
        }
    }
}

/// Where the rows of a transfer lie, in bytes: where the first one begins, from the start of a row to the start of the
/// next, and up to the end of the last texel, which is 0 where there is none.
#[derive(Clone, Copy, Debug, PartialEq, Eq)]
pub struct RowLayout {
    pub first: u128,
    pub stride: u64,
    pub needed: u128,
}

/// Where the rows of a transfer of width by height texels lie. `texel` is the bytes of a texel.
/// (OpenGL ES 3.0.6, Transfer of Pixel Rectangles.)
pub fn row_layout(store: &PixelStore, texel: u32, width: u32, height: u32) -> RowLayout
    ensures first { result.first ≡ first_row_place store.now texel width }
    ensures stride { result.stride ≡ row_stride store.now texel width }
    ensures needed { result.needed ≡ needed_length store.now texel width height }
{
    let texels = if store.row == 0 { width } else { store.row };
    let align = store.align as u64;
    let stride = (texels as u64 * texel as u64).div_ceil(align) * align;
    let first = store.skip_rows as u128 * stride as u128
        + store.skip_pixels as u128 * texel as u128;
    let needed = if width == 0 || height == 0 {
        0
    } else {
        first + (height - 1) as u128 * stride as u128 + width as u128 * texel as u128
    };
    RowLayout {
        first,
        stride,
        needed,
    }
}
