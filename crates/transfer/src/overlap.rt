ghost use Rattle.std.specs.Prelude.{◌≡◌, ◌+◌, ◌<◌, ◌≤◌, ◌^◌, pos, IfSome, unsigned_abs};
ghost use Rattle.transfer.specs.Overlaps.{skipped, entered, count_inside, overlap_of};

use vk_types::Rect;

/// What of a rectangle lies in an image: how many of the rectangle's columns and rows come before the image, and the texels of
/// the image that the rectangle has.
#[derive(Clone, Copy, Debug, PartialEq, Eq)]
pub struct Overlap {
    pub left: u32,
    pub top: u32,
    pub rect: Rect,
}

/// How many numbers from one on come before 0.
fn skipped(z: i32) -> u32
    ensures { result ≡ skipped z }
{
    if z < 0 { z.unsigned_abs() } else { 0 }
}

/// The first number from one on that is not below 0.
pub fn entered(z: i32) -> u32
    ensures value { result ≡ entered z }
    ensures bound { result < 2 ^ 31 }
{
    if z < 0 { 0 } else { z.unsigned_abs() }
}

/// The same as a signed number.
fn first_inside(z: i32) -> i32
    ensures { result ≡ pos (entered z) }
{
    if z < 0 { 0 } else { z }
}

/// How many of so many numbers from one on are from 0 on and below a size.
fn count_inside(z: i32, size: u32, len: u32) -> u32
    ensures { result ≡ count_inside z size len }
{
    len.saturating_sub(skipped(z))
        .min(size.saturating_sub(entered(z)))
}

/// What of a rectangle lies in an image with these sides. There is none where they have no texel in common.
pub fn overlap_of(sides: (u32, u32), rect: Rect) -> Option<Overlap>
    ensures value { result ≡ overlap_of sides rect }
    ensures columns { IfSome result (λ part. part.left + part.rect.w ≤ rect.w) }
    ensures rows { IfSome result (λ part. part.top + part.rect.h ≤ rect.h) }
    ensures some_columns { IfSome result (λ part. 0 < part.rect.w) }
    ensures some_rows { IfSome result (λ part. 0 < part.rect.h) }
    ensures in_width { IfSome result (λ part. unsigned_abs part.rect.x + part.rect.w ≤ sides.0) }
    ensures in_height { IfSome result (λ part. unsigned_abs part.rect.y + part.rect.h ≤ sides.1) }
{
    let columns = count_inside(rect.x, sides.0, rect.w);
    let rows = count_inside(rect.y, sides.1, rect.h);
    if columns == 0 || rows == 0 {
        return None;
    }
    Some(Overlap {
        left: skipped(rect.x),
        top: skipped(rect.y),
        rect: Rect {
            x: first_inside(rect.x),
            y: first_inside(rect.y),
            w: columns,
            h: rows,
        },
    })
}
