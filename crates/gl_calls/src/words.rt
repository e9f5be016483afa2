ghost use Rattle.std.specs.Prelude.{◌≡◌};

use formats::Format;

/// The targets of BindBuffer and of the calls on buffers. `Other` is a target that they do not take.
#[derive(Clone, Copy, Debug, PartialEq, Eq)]
pub enum BufferTarget {
    Array,
    CopyRead,
    CopyWrite,
    PixelPack,
    PixelUnpack,
    Other,
}

/// The targets of framebuffers. `Both` is FRAMEBUFFER: the draw and the read framebuffer where it is bound, and the draw
/// framebuffer elsewhere.
#[derive(Clone, Copy, Debug, PartialEq, Eq)]
pub enum FramebufferTarget {
    Both,
    Read,
    Draw,
    Other,
}

/// What the Bind calls can bind to.
#[derive(Clone, Copy, Debug, PartialEq, Eq)]
pub enum BindTarget {
    Buffer(BufferTarget),
    Framebuffer(FramebufferTarget),
    Texture,
    Renderbuffer,
}

/// The kinds of objects with names, as Gen and Delete take them.
#[derive(Clone, Copy, Debug, PartialEq, Eq)]
pub enum ObjectKind {
    Buffer,
    Texture,
    Renderbuffer,
    Framebuffer,
}

/// How a buffer is meant to be used. (OpenGL ES 3.0.6, Creating Buffer Object Data Stores.)
#[derive(Clone, Copy, Debug, PartialEq, Eq)]
pub enum Usage {
    StreamDraw,
    StreamRead,
    StreamCopy,
    StaticDraw,
    StaticRead,
    StaticCopy,
    DynamicDraw,
    DynamicRead,
    DynamicCopy,
    Other,
}

/// The internal format of new storage, or one that this profile does not take.
#[derive(Clone, Copy, Debug, PartialEq, Eq)]
pub enum FormatWord {
    Known(Format),
    Other,
}

/// An attachment point, COLOR_ATTACHMENT0 to COLOR_ATTACHMENT3.
#[derive(Clone, Copy, Debug, PartialEq, Eq)]
pub enum AttachPoint {
    C0,
    C1,
    C2,
    C3,
}

/// Whether a texture or a renderbuffer is attached.
#[derive(Clone, Copy, Debug, PartialEq, Eq)]
pub enum AttachWhat {
    Texture,
    Renderbuffer,
}

/// A buffer of DrawBuffers, ReadBuffer and InvalidateFramebuffer.
#[derive(Clone, Copy, Debug, PartialEq, Eq)]
pub enum DrawBuffer {
    Point(AttachPoint),
    None,
    Other,
}

/// The access bits of MapBufferRange. `unknown` is any other bit. (OpenGL ES 3.0.6, Mapping and Unmapping Buffer Data.)
#[derive(Clone, Copy, Debug, PartialEq, Eq)]
pub struct AccessWord {
    pub read: bool,
    pub write: bool,
    pub invalidate_range: bool,
    pub invalidate_buffer: bool,
    pub unsynchronized: bool,
    pub flush_explicit: bool,
    pub unknown: bool,
}

/// A parameter of PixelStorei: the alignment, row length, skipped rows and skipped pixels of packs and unpacks.
#[derive(Clone, Copy, Debug, PartialEq, Eq)]
pub enum StoreParameter {
    PackAlign,
    PackRow,
    PackSkipRows,
    PackSkipPixels,
    UnpackAlign,
    UnpackRow,
    UnpackSkipRows,
    UnpackSkipPixels,
    Other,
}

/// A limit that GetIntegerv answers.
#[derive(Clone, Copy, Debug, PartialEq, Eq)]
pub enum LimitName {
    MaxTextureSize,
    MaxRenderbufferSize,
    MaxColorAttachments,
    MaxDrawBuffers,
    Other,
}

/// The mask of BlitFramebuffer: the colour buffer, nothing, or buffers that this profile does not have.
#[derive(Clone, Copy, Debug, PartialEq, Eq)]
pub enum BlitMask {
    Color,
    None,
    Other,
}

/// The filter of BlitFramebuffer.
#[derive(Clone, Copy, Debug, PartialEq, Eq)]
pub enum BlitFilter {
    Nearest,
    Linear,
    Other,
}

/// The condition of FenceSync. `GpuCommandsComplete` is SYNC_GPU_COMMANDS_COMPLETE.
#[derive(Clone, Copy, Debug, PartialEq, Eq)]
pub enum FenceCondition {
    GpuCommandsComplete,
    Other,
}

impl AttachPoint {
    ghost use Rattle.gl_calls.specs.Words.{point_number};

    /// The number of the point, 0 to 3.
    pub fn number(self) -> u8
        ensures { result ≡ point_number self }
    {
        match self {
            AttachPoint::C0 => 0,
            AttachPoint::C1 => 1,
            AttachPoint::C2 => 2,
            AttachPoint::C3 => 3,
        }
    }
}

impl DrawBuffer {
    ghost use Rattle.gl_calls.specs.Words.{drawn_point};

    /// The point of the word, and None for none and other.
    pub fn point(self) -> Option<u8>
        ensures { result ≡ drawn_point self }
    {
        match self {
            DrawBuffer::Point(point) => Some(point.number()),
            DrawBuffer::None | DrawBuffer::Other => None,
        }
    }
}
