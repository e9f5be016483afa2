// Ranges and rectangles of objects, and what stands at them.
use crate::{Access, HandleId, Layout};

/// A rectangle of texels: its least column and row, its width and height.
#[derive(Clone, Copy, Debug, PartialEq, Eq)]
pub struct Rect {
    pub x: i32,
    pub y: i32,
    pub w: u32,
    pub h: u32,
}

/// A range of one object that a node touches, and how. A buffer's range is in bytes, from `start` up to and without
/// `end`. An image is touched whole, from 0 to 18446744073709551615, and so is the object of a barrier.
#[derive(Clone, Copy, Debug, PartialEq, Eq)]
pub struct Touch {
    pub id: HandleId,
    pub start: u64,
    pub end: u64,
    pub access: Access,
    pub layout: Option<Layout>,
}

/// What comes before, of the kinds in `first`, is done before what comes after, of the kinds in `second`
/// (Vulkan 1.1, Pipeline Barriers). A barrier of an image names the layout before and the one after it.
#[derive(Clone, Copy, Debug, PartialEq, Eq)]
pub struct Barrier {
    pub id: HandleId,
    pub first: Access,
    pub second: Access,
    pub layouts: Option<(Layout, Layout)>,
}

/// A texel that is written to a rectangle. A texel of fewer than 16 bytes has its bytes first.
#[derive(Clone, Copy, Debug, PartialEq, Eq)]
pub struct Clear {
    pub rect: Rect,
    pub texel: [u8; 16],
}

/// A blit's two rectangles, each by two opposite corners: the source and the destination.
#[derive(Clone, Copy, Debug, PartialEq, Eq)]
pub struct Coords {
    pub sx0: i32,
    pub sy0: i32,
    pub sx1: i32,
    pub sy1: i32,
    pub dx0: i32,
    pub dy0: i32,
    pub dx1: i32,
    pub dy1: i32,
}
