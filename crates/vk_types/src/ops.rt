// The commands of the device.
ghost use Rattle.std.specs.Prelude.{◌≡◌, ◌<◌, length, slice_get, Some, IfOk};
ghost use Rattle.vk_types.specs.Touches.{touches, barrier_of, part, whole, rows_size};

use crate::{Access, Barrier, Clears, Coords, HandleId, Layout, Rect, Touch};
use std::alloc::{AllocError, Global};

/// What a pass finds in its attachment (Vulkan 1.1, Render Pass Creation): what was there, a texel everywhere, or
/// nothing that is defined.
#[derive(Clone, Copy, Debug, PartialEq, Eq)]
pub enum Load {
    Load,
    Clear([u8; 16]),
    DontCare,
}

/// What a node does. Places and sizes in buffers and the strides from row to row are in bytes.
#[derive(Debug, Drop)]
pub enum Op {
    /// Copies `size` bytes. Ranges of one buffer are disjoint.
    CopyBuffer {
        src: HandleId,
        src_at: u64,
        dst: HandleId,
        dst_at: u64,
        size: u64,
    },
    /// Row k of the rectangle comes from `src_at + k * stride`.
    BufferToImage {
        src: HandleId,
        src_at: u64,
        stride: u64,
        texel_size: u32,
        dst: HandleId,
        rect: Rect,
    },
    /// Row k of the rectangle goes to `dst_at + k * stride`, a later row over an earlier one. With `expand` a texel
    /// becomes four words of 32 bits.
    ImageToBuffer {
        src: HandleId,
        rect: Rect,
        dst: HandleId,
        dst_at: u64,
        stride: u64,
        texel_size: u32,
        expand: bool,
    },
    /// Copies texels of one format between two images.
    CopyImage {
        src: HandleId,
        src_x: i32,
        src_y: i32,
        dst: HandleId,
        rect: Rect,
    },
    /// Copies and scales the texels in `clip`, each from the nearest one. A component keeps its low bits.
    BlitImage {
        src: HandleId,
        dst: HandleId,
        coords: Coords,
        clip: Rect,
    },
    /// Writes the texel to the rectangle.
    ClearImage {
        image: HandleId,
        rect: Rect,
        texel: [u8; 16],
    },
    /// Writes the byte `size` times.
    FillBuffer {
        dst: HandleId,
        dst_at: u64,
        size: u64,
        byte: u8,
    },
    /// One attachment of a pass: the load, and then the clears in order. What is not kept is not defined afterwards.
    PassPart {
        pass: u32,
        point: u8,
        image: HandleId,
        load: Load,
        keep: bool,
        clears: Clears,
    },
    /// Changes no bytes. A transition from `Undefined` discards the contents.
    Barrier(Barrier),
}

/// A command of the device.
#[derive(Debug, Drop)]
pub struct Node {
    pub op: Op,
}

/// A range of so many bytes of a buffer.
fn touch_part(id: HandleId, at: u64, size: u64, access: Access) -> Touch
    ensures { result ≡ part id at size access }
{
    Touch {
        id,
        start: at,
        end: at.saturating_add(size),
        access,
        layout: None,
    }
}

/// The range of a buffer that has the rows of a rectangle.
fn touch_rows(
    id: HandleId,
    at: u64,
    rect: Rect,
    stride: u64,
    texel_size: u32,
    access: Access,
) -> Touch
    ensures { result ≡ part id at (rows_size rect stride texel_size) access }
{
    let end = if rect.w == 0 || rect.h == 0 {
        at
    } else {
        at.saturating_add(u64::from(rect.h - 1).saturating_mul(stride))
            .saturating_add(u64::from(rect.w) * u64::from(texel_size))
    };
    Touch {
        id,
        start: at,
        end,
        access,
        layout: None,
    }
}

/// A whole object.
fn touch_whole(id: HandleId, access: Access, layout: Option<Layout>) -> Touch
    ensures { result ≡ whole id access layout }
{
    Touch {
        id,
        start: 0,
        end: u64::MAX,
        access,
        layout,
    }
}

impl Node {
    /// How many ranges the node touches.
    pub fn touch_count(&self) -> usize
        ensures { result ≡ length (touches self.now) }
    {
        match self.op {
            Op::CopyBuffer { .. }
            | Op::BufferToImage { .. }
            | Op::ImageToBuffer { .. }
            | Op::CopyImage { .. }
            | Op::BlitImage { .. } => 2,
            Op::ClearImage { .. } | Op::FillBuffer { .. } | Op::PassPart { .. } | Op::Barrier(_) =>
                { 1 }
        }
    }

    /// One of the ranges that the node touches.
    pub fn touch(&self, k: usize) -> Touch
        requires { k < length (touches self.now) }
        ensures { slice_get (touches self.now) k ≡ Some result }
    {
        if k == 0 {
            self.first_touch()
        } else {
            self.second_touch()
        }
    }

    /// The range that is read, where there are two.
    fn first_touch(&self) -> Touch
        ensures { slice_get (touches self.now) 0 ≡ Some result }
    {
        let read = Access::TRANSFER_READ;
        let write = Access::TRANSFER_WRITE;
        match &self.op {
            Op::CopyBuffer {
                src,
                src_at,
                size,
                ..
            } => touch_part(*src, *src_at, *size, read),
            Op::BufferToImage {
                src,
                src_at,
                stride,
                texel_size,
                rect,
                ..
            } => { touch_rows(*src, *src_at, *rect, *stride, *texel_size, read) }
            Op::ImageToBuffer { src, .. } => touch_whole(*src, read, Some(Layout::TransferSrc)),
            Op::CopyImage { src, .. } => touch_whole(*src, read, Some(Layout::TransferSrc)),
            Op::BlitImage { src, .. } => touch_whole(*src, read, Some(Layout::TransferSrc)),
            Op::ClearImage { image, .. } => touch_whole(*image, write, Some(Layout::TransferDst)),
            Op::FillBuffer {
                dst,
                dst_at,
                size,
                ..
            } => touch_part(*dst, *dst_at, *size, write),
            Op::PassPart { image, .. } => {
                touch_whole(*image, Access::COLOR, Some(Layout::ColorAttachment))
            }
            Op::Barrier(barrier) => touch_whole(barrier.id, Access::NONE, None),
        }
    }

    /// The range that is written, where there are two.
    fn second_touch(&self) -> Touch
        requires { 1 < length (touches self.now) }
        ensures { slice_get (touches self.now) 1 ≡ Some result }
    {
        let write = Access::TRANSFER_WRITE;
        match &self.op {
            Op::CopyBuffer {
                dst,
                dst_at,
                size,
                ..
            } => touch_part(*dst, *dst_at, *size, write),
            Op::BufferToImage { dst, .. } => touch_whole(*dst, write, Some(Layout::TransferDst)),
            Op::ImageToBuffer {
                rect,
                dst,
                dst_at,
                stride,
                texel_size,
                expand,
                ..
            } => {
                let texel = if *expand { 16 } else { *texel_size };
                touch_rows(*dst, *dst_at, *rect, *stride, texel, write)
            }
            Op::CopyImage { dst, .. } => touch_whole(*dst, write, Some(Layout::TransferDst)),
            Op::BlitImage { dst, .. } => touch_whole(*dst, write, Some(Layout::TransferDst)),
            Op::ClearImage { .. } | Op::FillBuffer { .. } | Op::PassPart { .. } | Op::Barrier(_) =>
                unreachable!(),
        }
    }

    /// The barrier that the node is, if it is one.
    pub fn barrier(&self) -> Option<Barrier>
        ensures { result ≡ barrier_of self.now }
    {
        match &self.op {
            Op::Barrier(barrier) => Some(*barrier),
            Op::CopyBuffer { .. }
            | Op::BufferToImage { .. }
            | Op::ImageToBuffer { .. }
            | Op::CopyImage { .. }
            | Op::BlitImage { .. }
            | Op::ClearImage { .. }
            | Op::FillBuffer { .. }
            | Op::PassPart { .. } => None,
        }
    }

    pub fn copy(&self, alloc: Global) -> Result<Node, AllocError>
        ensures { IfOk result (λ copy. copy ≡ self.now) }
    {
        Ok(Node {
            op: self.op.copy(alloc)?,
        })
    }
}

impl Op {
    fn copy(&self, alloc: Global) -> Result<Op, AllocError>
        ensures { IfOk result (λ copy. copy ≡ self.now) }
    {
        Ok(match self {
            Op::CopyBuffer {
                src,
                src_at,
                dst,
                dst_at,
                size,
            } => Op::CopyBuffer {
                src: *src,
                src_at: *src_at,
                dst: *dst,
                dst_at: *dst_at,
                size: *size,
            },
            Op::BufferToImage {
                src,
                src_at,
                stride,
                texel_size,
                dst,
                rect,
            } => Op::BufferToImage {
                src: *src,
                src_at: *src_at,
                stride: *stride,
                texel_size: *texel_size,
                dst: *dst,
                rect: *rect,
            },
            Op::ImageToBuffer {
                src,
                rect,
                dst,
                dst_at,
                stride,
                texel_size,
                expand,
            } => Op::ImageToBuffer {
                src: *src,
                rect: *rect,
                dst: *dst,
                dst_at: *dst_at,
                stride: *stride,
                texel_size: *texel_size,
                expand: *expand,
            },
            Op::CopyImage {
                src,
                src_x,
                src_y,
                dst,
                rect,
            } => Op::CopyImage {
                src: *src,
                src_x: *src_x,
                src_y: *src_y,
                dst: *dst,
                rect: *rect,
            },
            Op::BlitImage {
                src,
                dst,
                coords,
                clip,
            } => Op::BlitImage {
                src: *src,
                dst: *dst,
                coords: *coords,
                clip: *clip,
            },
            Op::ClearImage { image, rect, texel } => Op::ClearImage {
                image: *image,
                rect: *rect,
                texel: *texel,
            },
            Op::FillBuffer {
                dst,
                dst_at,
                size,
                byte,
            } => Op::FillBuffer {
                dst: *dst,
                dst_at: *dst_at,
                size: *size,
                byte: *byte,
            },
            Op::PassPart {
                pass,
                point,
                image,
                load,
                keep,
                clears,
            } => Op::PassPart {
                pass: *pass,
                point: *point,
                image: *image,
                load: *load,
                keep: *keep,
                clears: clears.copy(alloc)?,
            },
            Op::Barrier(barrier) => Op::Barrier(*barrier),
        })
    }
}
