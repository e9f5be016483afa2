ghost use Rattle.std.specs.Prelude.{◌≡◌, ◌≤◌};
ghost use Rattle.formats.specs.Pairs.{pixels_number, kind_number, same_pair, is_other_pair, bytes_per_element};

/// The format of client pixels. `Other` is a format that no transfer of integers takes.
#[derive(Clone, Copy, Debug, PartialEq, Eq)]
pub enum PixelFormat {
    RedInteger,
    RgInteger,
    RgbaInteger,
    Other,
}

/// The type of client pixels. `Other` is a type that no transfer of integers takes.
#[derive(Clone, Copy, Debug, PartialEq, Eq)]
pub enum PixelType {
    UnsignedByte,
    Byte,
    UnsignedShort,
    Short,
    UnsignedInt,
    Int,
    UnsignedInt2101010Rev,
    Other,
}

/// The bytes of one element of a pixel type. A packed pixel is one element.
pub fn element_size(kind: PixelType) -> u64
    ensures size { result ≡ bytes_per_element kind }
    ensures positive { 1 ≤ result }
{
    match kind {
        PixelType::UnsignedByte | PixelType::Byte | PixelType::Other => 1,
        PixelType::UnsignedShort | PixelType::Short => 2,
        PixelType::UnsignedInt | PixelType::Int | PixelType::UnsignedInt2101010Rev => 4,
    }
}

/// Whether client pixels have the format and the type of a pair.
pub fn is_pair(pixels: PixelFormat, kind: PixelType, pair: (PixelFormat, PixelType)) -> bool
    ensures { result ≡ same_pair (pixels, kind) pair }
{
    number_of_pixels(pixels) == number_of_pixels(pair.0)
        && number_of_kind(kind) == number_of_kind(pair.1)
}

/// Whether no transfer takes client pixels of this format and type.
pub fn is_other(pixels: PixelFormat, kind: PixelType) -> bool
    ensures { result ≡ is_other_pair pixels kind }
{
    matches!(pixels, PixelFormat::Other) || matches!(kind, PixelType::Other)
}

/// The place of a pixel format in its list.
fn number_of_pixels(pixels: PixelFormat) -> u8
    ensures { result ≡ pixels_number pixels }
{
    match pixels {
        PixelFormat::RedInteger => 0,
        PixelFormat::RgInteger => 1,
        PixelFormat::RgbaInteger => 2,
        PixelFormat::Other => 3,
    }
}

/// The place of a pixel type in its list.
fn number_of_kind(kind: PixelType) -> u8
    ensures { result ≡ kind_number kind }
{
    match kind {
        PixelType::UnsignedByte => 0,
        PixelType::Byte => 1,
        PixelType::UnsignedShort => 2,
        PixelType::Short => 3,
        PixelType::UnsignedInt => 4,
        PixelType::Int => 5,
        PixelType::UnsignedInt2101010Rev => 6,
        PixelType::Other => 7,
    }
}
