ghost use Rattle.std.specs.Prelude.{◌≡◌, ◌+◌, ◌<◌, ◌≤◌, ◌^◌, pos, unsigned_abs};
ghost use Rattle.std.specs.Int.{int_max};
ghost use Rattle.transfer.specs.Overlaps.{entered};
ghost use Rattle.transfer.specs.Blits.{AreWords, begins, count_between, blit_clip, reads_column, reads_row, blit_of};

use crate::blit_source::reads_some;
use crate::clear::clear_rect;
use crate::overlap::entered;
use gl_model::{ImageInfo, ScissorBox};
use vk_types::{Coords, HandleId, Node, Op, Rect};

/// Where the numbers from one on begin that are between two ends, the lower one counted.
fn begins(from: u32, a: i32, b: i32) -> u32
    requires { from < 2 ^ 31 }
    ensures value { result ≡ begins from a b }
    ensures bound { result < 2 ^ 31 }
{
    from.max(entered(a.min(b)))
}

/// How many of so many numbers from one on are between two ends.
fn count_between(from: u32, len: u32, a: i32, b: i32) -> u32
    requires sum { from + len < 2 ^ 31 }
    ensures value { result ≡ count_between from len a b }
    ensures bound { begins from a b + result < 2 ^ 32 }
{
    (from + len)
        .min(entered(a.max(b)))
        .saturating_sub(begins(from, a, b))
}

/// What of a rectangle lies in the destination.
fn blit_clip(coords: &Coords, rect: Rect) -> Rect
    requires columns { unsigned_abs rect.x + rect.w < 2 ^ 31 }
    requires rows { unsigned_abs rect.y + rect.h < 2 ^ 31 }
    ensures { result ≡ blit_clip coords.now rect }
{
    let left = rect.x.unsigned_abs();
    let top = rect.y.unsigned_abs();
    Rect {
        x: begins(left, coords.dx0, coords.dx1) as i32,
        y: begins(top, coords.dy0, coords.dy1) as i32,
        w: count_between(left, rect.w, coords.dx0, coords.dx1),
        h: count_between(top, rect.h, coords.dy0, coords.dy1),
    }
}

/// Whether a column of the clip reads one of an image.
fn reads_column(read: &ImageInfo, coords: &Coords, clip: Rect) -> bool
    requires { unsigned_abs clip.x + clip.w < 2 ^ 32 }
    ensures { result ≡ reads_column read.now coords.now clip }
{
    let c = *coords;
    reads_some(
        read.width,
        c.sx0,
        c.sx1,
        c.dx0,
        c.dx1,
        clip.x.unsigned_abs(),
        clip.w,
    )
}

/// Whether a row of the clip reads one of an image.
fn reads_row(read: &ImageInfo, coords: &Coords, clip: Rect) -> bool
    requires { unsigned_abs clip.y + clip.h < 2 ^ 32 }
    ensures { result ≡ reads_row read.now coords.now clip }
{
    let c = *coords;
    reads_some(
        read.height,
        c.sy0,
        c.sy1,
        c.dy0,
        c.dy1,
        clip.y.unsigned_abs(),
        clip.h,
    )
}

/// The node of a blit from an image to another, in what of the scissor's box and of the destination lies in the area that
/// `common_area` gives. There is none where no texel of that reads one of the image that is read.
/// (OpenGL ES 3.0.6, Copying Pixels.)
pub fn blit_node(
    src: HandleId,
    read: &ImageInfo,
    dst: HandleId,
    coords: Coords,
    scissor: Option<ScissorBox>,
    area: (u32, u32),
) -> Option<Node>
    requires columns { area.0 < 2 ^ 31 }
    requires rows { area.1 < 2 ^ 31 }
    ensures node { result ≡ blit_of src read.now dst coords scissor area }
    ensures words { AreWords coords }
{
    let rect = clear_rect(scissor, area)?;
    let clip = blit_clip(&coords, rect);
    if !reads_column(read, &coords, clip) || !reads_row(read, &coords, clip) {
        return None;
    }
    Some(Node {
        op: Op::BlitImage {
            src,
            dst,
            coords,
            clip,
        },
    })
}
