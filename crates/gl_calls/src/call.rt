ghost use Rattle.std.specs.Prelude.{◌≡◌};
ghost use Rattle.gl_calls.specs.Egl.{is_egl_call};

use crate::payload::{DrawBufferList, Payload};
use crate::words::{
    AccessWord, AttachPoint, AttachWhat, BindTarget, BlitFilter, BlitMask, BufferTarget,
    DrawBuffer, FenceCondition, FormatWord, FramebufferTarget, LimitName, ObjectKind,
    StoreParameter, Usage,
};
use formats::{PixelFormat, PixelType};

/// Where TexSubImage2D takes its pixels from: the client, or the bound pixel unpack buffer from an offset on.
#[derive(Drop, Debug)]
pub enum PixelSource {
    Client { payload: Payload },
    Offset(u64),
}

/// Where ReadPixels puts its pixels: with the client, or in the bound pixel pack buffer from an offset on.
#[derive(Clone, Copy, Debug, PartialEq, Eq)]
pub enum PixelDestination {
    Client,
    Offset(u64),
}

/// The timeout of WaitSync: TIMEOUT_IGNORED, or a number of nanoseconds, which it refuses.
#[derive(Clone, Copy, Debug, PartialEq, Eq)]
pub enum WaitEnd {
    Ignored,
    After(u64),
}

/// A call of EGL 1.5 or of OpenGL ES 3.0, or a read or a write through a map. Names and numbers are the caller's. Contexts and
/// syncs go by numbers that the caller chooses; context 0 of MakeCurrent is no context.
#[derive(Drop, Debug)]
pub enum Call {
    CreateContext {
        number: u16,
    },
    DestroyContext {
        number: u16,
    },
    MakeCurrent {
        number: u16,
    },
    EglGetError,
    CreateSync {
        number: u16,
    },
    EglClientWaitSync {
        number: u16,
        flush: bool,
        timeout: u64,
    },
    DestroySync {
        number: u16,
    },
    GetError,
    GetInteger {
        limit: LimitName,
    },
    Gen {
        kind: ObjectKind,
        count: i32,
    },
    Delete {
        kind: ObjectKind,
        name: u32,
    },
    Bind {
        target: BindTarget,
        name: u32,
    },
    BufferData {
        target: BufferTarget,
        size: i64,
        usage: Usage,
        payload: Option<Payload>,
    },
    BufferSubData {
        target: BufferTarget,
        offset: i64,
        payload: Payload,
    },
    CopyBufferSubData {
        from: BufferTarget,
        to: BufferTarget,
        read: i64,
        write: i64,
        size: i64,
    },
    MapBufferRange {
        target: BufferTarget,
        offset: i64,
        length: i64,
        access: AccessWord,
    },
    FlushMappedBufferRange {
        target: BufferTarget,
        offset: i64,
        length: i64,
    },
    UnmapBuffer {
        target: BufferTarget,
    },
    MapRead {
        target: BufferTarget,
        offset: i64,
        length: i64,
    },
    MapWrite {
        target: BufferTarget,
        offset: i64,
        payload: Payload,
    },
    TexStorage {
        levels: i32,
        format: FormatWord,
        width: i32,
        height: i32,
    },
    TexSubImage {
        x: i32,
        y: i32,
        width: i32,
        height: i32,
        format: PixelFormat,
        kind: PixelType,
        source: PixelSource,
    },
    CopyTexSubImage {
        x: i32,
        y: i32,
        from_x: i32,
        from_y: i32,
        width: i32,
        height: i32,
    },
    RenderbufferStorage {
        format: FormatWord,
        width: i32,
        height: i32,
    },
    Attach {
        target: FramebufferTarget,
        point: AttachPoint,
        what: AttachWhat,
        name: u32,
    },
    CheckFramebufferStatus {
        target: FramebufferTarget,
    },
    DrawBuffers {
        buffers: DrawBufferList,
    },
    ReadBuffer {
        buffer: DrawBuffer,
    },
    ClearUnsigned {
        buffer: i32,
        r: u32,
        g: u32,
        b: u32,
        a: u32,
    },
    ClearSigned {
        buffer: i32,
        r: i32,
        g: i32,
        b: i32,
        a: i32,
    },
    ScissorTest {
        on: bool,
    },
    ScissorBox {
        x: i32,
        y: i32,
        width: i32,
        height: i32,
    },
    Blit {
        sx0: i32,
        sy0: i32,
        sx1: i32,
        sy1: i32,
        dx0: i32,
        dy0: i32,
        dx1: i32,
        dy1: i32,
        mask: BlitMask,
        filter: BlitFilter,
    },
    Invalidate {
        target: FramebufferTarget,
        buffer: DrawBuffer,
    },
    ReadPixels {
        x: i32,
        y: i32,
        width: i32,
        height: i32,
        format: PixelFormat,
        kind: PixelType,
        destination: PixelDestination,
    },
    PixelStore {
        parameter: StoreParameter,
        value: i32,
    },
    FenceSync {
        number: u16,
        condition: FenceCondition,
        flags: u32,
    },
    ClientWaitSync {
        number: u16,
        flags: u32,
        timeout: u64,
    },
    WaitSync {
        number: u16,
        flags: u32,
        end: WaitEnd,
    },
    DeleteSync {
        number: u16,
    },
    Flush,
    Finish,
}

impl Call {
    /// Whether this is a call of EGL. All others need a current context.
    pub fn is_egl(&self) -> bool
        ensures { result ≡ is_egl_call self.now }
    {
        matches!(
            self,
            Call::CreateContext { .. }
                | Call::DestroyContext { .. }
                | Call::MakeCurrent { .. }
                | Call::EglGetError
                | Call::CreateSync { .. }
                | Call::EglClientWaitSync { .. }
                | Call::DestroySync { .. }
        )
    }
}
