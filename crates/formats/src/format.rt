ghost use Rattle.std.specs.Prelude.{◌≡◌};
ghost use Rattle.formats.specs.Pairs.{format_number, same_format};
ghost use Rattle.formats.specs.Texel.{bytes_per_texel, has_signed_components, own_pair_of, general_pair_of};

use crate::pixel::{PixelFormat, PixelType};

/// The sized internal formats of images: one, two or four integer components, in the order R, G, B, A.
/// (OpenGL ES 3.0.6, Required Texture Formats and Texture Image Specification.)
#[derive(Clone, Copy, Debug, PartialEq, Eq)]
pub enum Format {
    R8ui,
    R8i,
    R16ui,
    R16i,
    R32ui,
    R32i,
    Rg8ui,
    Rgba8ui,
    Rgba8i,
    Rgb10A2ui,
    Rgba32ui,
    Rgba32i,
}

/// The bytes of one texel: 1, 2, 4 or 16.
pub fn texel_size(format: Format) -> u32
    ensures { result ≡ bytes_per_texel format }
{
    match format {
        Format::R8ui | Format::R8i => 1,
        Format::R16ui | Format::R16i | Format::Rg8ui => 2,
        Format::R32ui | Format::R32i | Format::Rgba8ui | Format::Rgba8i | Format::Rgb10A2ui => 4,
        Format::Rgba32ui | Format::Rgba32i => 16,
    }
}

/// Whether the components are signed. Signed components are in two's complement.
pub fn is_signed(format: Format) -> bool
    ensures { result ≡ has_signed_components format }
{
    matches!(
        format,
        Format::R8i | Format::R16i | Format::R32i | Format::Rgba8i | Format::Rgba32i
    )
}

/// The client pixels that have the layout of the format's texels. They are the ones that TexSubImage2D takes, and the
/// implementation's choice that ReadPixels takes beside the general pair.
pub fn own_pair(format: Format) -> (PixelFormat, PixelType)
    ensures { result ≡ own_pair_of format }
{
    match format {
        Format::R8ui => (PixelFormat::RedInteger, PixelType::UnsignedByte),
        Format::R8i => (PixelFormat::RedInteger, PixelType::Byte),
        Format::R16ui => (PixelFormat::RedInteger, PixelType::UnsignedShort),
        Format::R16i => (PixelFormat::RedInteger, PixelType::Short),
        Format::R32ui => (PixelFormat::RedInteger, PixelType::UnsignedInt),
        Format::R32i => (PixelFormat::RedInteger, PixelType::Int),
        Format::Rg8ui => (PixelFormat::RgInteger, PixelType::UnsignedByte),
        Format::Rgba8ui => (PixelFormat::RgbaInteger, PixelType::UnsignedByte),
        Format::Rgba8i => (PixelFormat::RgbaInteger, PixelType::Byte),
        Format::Rgb10A2ui => (PixelFormat::RgbaInteger, PixelType::UnsignedInt2101010Rev),
        Format::Rgba32ui => (PixelFormat::RgbaInteger, PixelType::UnsignedInt),
        Format::Rgba32i => (PixelFormat::RgbaInteger, PixelType::Int),
    }
}

/// The client pixels in which every image of the format's signedness can be read: four components of 32 bits.
/// (OpenGL ES 3.0.6, Reading Pixels.)
pub fn general_pair(format: Format) -> (PixelFormat, PixelType)
    ensures { result ≡ general_pair_of format }
{
    if is_signed(format) {
        (PixelFormat::RgbaInteger, PixelType::Int)
    } else {
        (PixelFormat::RgbaInteger, PixelType::UnsignedInt)
    }
}

/// Whether two formats are the same.
pub fn is_same_format(a: Format, b: Format) -> bool
    ensures { result ≡ same_format a b }
{
    number_of_format(a) == number_of_format(b)
}

/// The place of a format in the list of formats.
fn number_of_format(format: Format) -> u8
    ensures { result ≡ format_number format }
{
    match format {
        Format::R8ui => 0,
        Format::R8i => 1,
        Format::R16ui => 2,
        Format::R16i => 3,
        Format::R32ui => 4,
        Format::R32i => 5,
        Format::Rg8ui => 6,
        Format::Rgba8ui => 7,
        Format::Rgba8i => 8,
        Format::Rgb10A2ui => 9,
        Format::Rgba32ui => 10,
        Format::Rgba32i => 11,
    }
}
