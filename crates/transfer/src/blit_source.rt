// The column of an image that a column of a blit's destination reads. Rows are read likewise.
ghost use Rattle.std.specs.Prelude.{◌≡◌, ◌+◌, ◌<◌, ◌≤◌, ◌^◌, max, min};
ghost use Rattle.vk_model.specs.Cells.{moved, middle, scaled, in_source, source_of};
ghost use Rattle.transfer.specs.Blits.{reads_some};

/// A coordinate moved up by 2^31, so that none is below 0.
fn moved(z: i32) -> u64
    ensures value { result ≡ moved z }
    ensures bound { result < 2 ^ 32 }
{
    (i64::from(z) + 0x8000_0000) as u64
}

/// Twice the way from the destination's first column to the middle of a column.
fn middle(d0: u64, d1: u64, x: u64) -> u64
    requires first { d0 < 2 ^ 32 }
    requires last { d1 < 2 ^ 32 }
    requires from { min d0 d1 ≤ x }
    requires below { x < max d0 d1 }
    ensures value { result ≡ middle d0 d1 x }
    ensures bound { result < 2 ^ 33 }
{
    if d0 < d1 {
        2 * x + 1 - 2 * d0
    } else {
        2 * d0 - (2 * x + 1)
    }
}

/// The source column by the middle of the destination column, to the lower number.
fn scaled(s0: u64, s1: u64, d0: u64, d1: u64, x: u64) -> u128
    requires source_first { s0 < 2 ^ 32 }
    requires source_last { s1 < 2 ^ 32 }
    requires first { d0 < 2 ^ 32 }
    requires last { d1 < 2 ^ 32 }
    requires from { min d0 d1 ≤ x }
    requires below { x < max d0 d1 }
    ensures { result ≡ scaled s0 s1 d0 d1 x }
{
    let way = u128::from(middle(d0, d1, x));
    let wide = 2 * u128::from(d0.max(d1) - d0.min(d1));
    if s0 <= s1 {
        u128::from(s0) + way * u128::from(s1 - s0) / wide
    } else {
        u128::from(s0).saturating_sub((way * u128::from(s0 - s1) + (wide - 1)) / wide)
    }
}

/// A moved column as a column of the image that is read, if that has it.
fn in_source(size: u32, s: u128) -> Option<u128>
    ensures { result ≡ in_source size s }
{
    let origin = 0x8000_0000;
    if origin <= s && s < origin + u128::from(size) {
        Some(s - origin)
    } else {
        None
    }
}

/// The column that is read for a column, where that is in the destination and its source in the read image.
/// A source without width gives none.
fn source_of(size: u32, s0: i32, s1: i32, d0: i32, d1: i32, x: u32) -> Option<u128>
    ensures { result ≡ source_of size s0 s1 d0 d1 x }
{
    let source = (moved(s0), moved(s1));
    let first = moved(d0);
    let last = moved(d1);
    let at = u64::from(x) + 0x8000_0000;
    if source.0 != source.1 && first.min(last) <= at && at < first.max(last) {
        in_source(size, scaled(source.0, source.1, first, last, at))
    } else {
        None
    }
}

/// Whether one of so many columns from one on reads a column.
pub fn reads_some(size: u32, s0: i32, s1: i32, d0: i32, d1: i32, from: u32, len: u32) -> bool
    requires { from + len < 2 ^ 32 }
    ensures { result ≡ reads_some size s0 s1 d0 d1 from len }
{
    for k in 0..len {
        if source_of(size, s0, s1, d0, d1, from + k).is_some() {
            return true;
        }
    }
    false
}
