ghost use Rattle.std.specs.Prelude.{◌≡◌, ◌<◌, ◌≤◌, ◌+◌, ◌*◌, ◌^◌, ◌/◌, ◌%◌, length, true, false, Bool, slice_set};
ghost use Rattle.formats.specs.Texel.{bytes_per_texel};
ghost use Rattle.formats.specs.Components.{little, expanded, widened, fits_format, loses_nothing, low_bytes, packed};

use crate::format::{Format, is_signed};

/// Two bytes as a little-endian number.
fn two(bytes: &[u8], at: usize) -> u32
    requires { at + 2 ≤ length bytes.now }
    ensures { result ≡ little bytes.now at 2 }
{
    bytes[at] as u32 + 256 * bytes[at + 1] as u32
}

/// Four bytes as a little-endian number.
fn four(bytes: &[u8], at: usize) -> u32
    requires { at + 4 ≤ length bytes.now }
    ensures { result ≡ little bytes.now at 4 }
{
    bytes[at] as u32
        + 256 * (bytes[at + 1] as u32 + 256 * (bytes[at + 2] as u32 + 256 * bytes[at + 3] as u32))
}

/// A signed component of 8 bits, as 32 bits.
fn widen_8(v: u32) -> u32
    requires { v < 2 ^ 8 }
    ensures { result ≡ widened true 8 v }
{
    if v < 0x80 { v } else { v + 0xffff_ff00 }
}

/// A signed component of 16 bits, as 32 bits.
fn widen_16(v: u32) -> u32
    requires { v < 2 ^ 16 }
    ensures { result ≡ widened true 16 v }
{
    if v < 0x8000 { v } else { v + 0xffff_0000 }
}

/// The four components R, G, B, A that a texel stands for, each as 32 bits, signed ones in two's complement. A missing G or
/// B is 0, and a missing A is 1. `texel` has the format's texel size, and its numbers are little-endian.
/// (OpenGL ES 3.0.6, Reading Pixels, Conversion of RGBA values.)
pub fn expand(format: Format, texel: &[u8]) -> [u32; 4]
    requires { length texel.now ≡ bytes_per_texel format }
    ensures { result ≡ expanded format texel.now }
{
    match format {
        Format::R8ui => [texel[0] as u32, 0, 0, 1],
        Format::R8i => [widen_8(texel[0] as u32), 0, 0, 1],
        Format::R16ui => [two(texel, 0), 0, 0, 1],
        Format::R16i => [widen_16(two(texel, 0)), 0, 0, 1],
        Format::R32ui | Format::R32i => [four(texel, 0), 0, 0, 1],
        Format::Rg8ui => [texel[0] as u32, texel[1] as u32, 0, 1],
        Format::Rgba8ui => [
            texel[0] as u32,
            texel[1] as u32,
            texel[2] as u32,
            texel[3] as u32,
        ],
        Format::Rgba8i => [
            widen_8(texel[0] as u32),
            widen_8(texel[1] as u32),
            widen_8(texel[2] as u32),
            widen_8(texel[3] as u32),
        ],
        Format::Rgb10A2ui => {
            let word = four(texel, 0);
            [
                word % 1024,
                word / 1024 % 1024,
                word / 1048576 % 1024,
                word / 1073741824,
            ]
        }
        Format::Rgba32ui | Format::Rgba32i => [
            four(texel, 0),
            four(texel, 4),
            four(texel, 8),
            four(texel, 12),
        ],
    }
}

/// Whether a signed component loses nothing in 8 bits.
fn fits_8(v: u32) -> bool
    ensures { result ≡ loses_nothing true 8 v }
{
    v < 0x80 || v >= 0xffff_ff80
}

/// Whether a signed component loses nothing in 16 bits.
fn fits_16(v: u32) -> bool
    ensures { result ≡ loses_nothing true 16 v }
{
    v < 0x8000 || v >= 0xffff_8000
}

/// Whether the components that the format has lose nothing when the value is packed. The others are not looked at.
pub fn fits(format: Format, value: &[u32; 4]) -> bool
    ensures { result ≡ fits_format format value.now }
{
    let [r, g, b, a] = *value;
    match format {
        Format::R8ui => r < 0x100,
        Format::R8i => fits_8(r),
        Format::R16ui => r < 0x1_0000,
        Format::R16i => fits_16(r),
        Format::Rg8ui => r < 0x100 && g < 0x100,
        Format::Rgba8ui => r < 0x100 && g < 0x100 && b < 0x100 && a < 0x100,
        Format::Rgba8i => { fits_8(r) && fits_8(g) && fits_8(b) && fits_8(a) }
        Format::Rgb10A2ui => r < 1024 && g < 1024 && b < 1024 && a < 4,
        Format::R32ui | Format::R32i | Format::Rgba32ui | Format::Rgba32i => true,
    }
}

/// The low byte of a number.
fn low(v: u32) -> u8
    ensures { result ≡ v % 256 }
{
    (v % 256) as u8
}

/// The four bytes of a number, little-endian.
fn bytes_of(v: u32) -> [u8; 4]
    ensures { result ≡ low_bytes 4 v }
{
    [
        low(v),
        low(v / 256),
        low(v / 256 / 256),
        low(v / 256 / 256 / 256),
    ]
}

/// Writes four components of 32 bits.
fn pack_wide(value: &[u32; 4], out: &mut [u8])
    requires { length out.old ≡ 16 }
    ensures { out.new ≡ packed Format.Rgba32ui value.now }
{
    let [r, g, b, a] = *value;
    let [r0, r1, r2, r3] = bytes_of(r);
    let [g0, g1, g2, g3] = bytes_of(g);
    let [b0, b1, b2, b3] = bytes_of(b);
    let [a0, a1, a2, a3] = bytes_of(a);
    out.copy_from_slice(&[
        r0, r1, r2, r3, g0, g1, g2, g3, b0, b1, b2, b3, a0, a1, a2, a3,
    ]);
}

/// Writes the texel of four components into `out`, which has the format's texel size. Components that the format lacks are
/// dropped, and of the others the low bits are kept.
pub fn pack(format: Format, value: &[u32; 4], out: &mut [u8])
    requires { length out.old ≡ bytes_per_texel format }
    ensures { out.new ≡ packed format value.now }
{
    let [r, g, b, a] = *value;
    match format {
        Format::R8ui | Format::R8i => out[0] = low(r),
        Format::R16ui | Format::R16i => {
            out[0] = low(r);
            out[1] = low(r / 256);
        }
        Format::R32ui | Format::R32i => {
            out[0] = low(r);
            out[1] = low(r / 256);
            out[2] = low(r / 256 / 256);
            out[3] = low(r / 256 / 256 / 256);
        }
        Format::Rg8ui => {
            out[0] = low(r);
            out[1] = low(g);
        }
        Format::Rgba8ui | Format::Rgba8i => {
            out[0] = low(r);
            out[1] = low(g);
            out[2] = low(b);
            out[3] = low(a);
        }
        Format::Rgb10A2ui => {
            let word = r % 1024 + 1024 * (g % 1024) + 1048576 * (b % 1024) + 1073741824 * (a % 4);
            out[0] = low(word);
            out[1] = low(word / 256);
            out[2] = low(word / 256 / 256);
            out[3] = low(word / 256 / 256 / 256);
        }
        Format::Rgba32ui | Format::Rgba32i => {
            pack_wide(value, out);
        }
    }
}
