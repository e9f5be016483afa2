ghost use Rattle.std.specs.Prelude.{◌≡◌, IfOk};

use crate::call::{Call, PixelSource};
use crate::payload::Payload;
use std::alloc::{AllocError, Global};

/// A copy of a payload, where there is one.
fn copy_optional(alloc: Global, payload: &Option<Payload>) -> Result<Option<Payload>, AllocError>
    ensures { IfOk result (λ copy. copy ≡ payload.now) }
{
    match payload {
        Some(payload) => Ok(Some(payload.copy(alloc)?)),
        None => Ok(None),
    }
}

impl PixelSource {
    /// A source of the same value.
    pub fn copy(&self, alloc: Global) -> Result<PixelSource, AllocError>
        ensures { IfOk result (λ copy. copy ≡ self.now) }
    {
        match self {
            PixelSource::Client { payload } => Ok(PixelSource::Client {
                payload: payload.copy(alloc)?,
            }),
            PixelSource::Offset(offset) => Ok(PixelSource::Offset(*offset)),
        }
    }
}

impl Call {
    /// A call of the same value: one arm for each kind of call.
    pub fn copy(&self, alloc: Global) -> Result<Call, AllocError>
        ensures { IfOk result (λ copy. copy ≡ self.now) }
    {
        match self {
            Call::CreateContext { number } => Ok(Call::CreateContext { number: *number }),
            Call::DestroyContext { number } => Ok(Call::DestroyContext { number: *number }),
            Call::MakeCurrent { number } => Ok(Call::MakeCurrent { number: *number }),
            Call::EglGetError => Ok(Call::EglGetError),
            Call::CreateSync { number } => Ok(Call::CreateSync { number: *number }),
            Call::EglClientWaitSync {
                number,
                flush,
                timeout,
            } => Ok(Call::EglClientWaitSync {
                number: *number,
                flush: *flush,
                timeout: *timeout,
            }),
            Call::DestroySync { number } => Ok(Call::DestroySync { number: *number }),
            Call::GetError => Ok(Call::GetError),
            Call::GetInteger { limit } => Ok(Call::GetInteger { limit: *limit }),
            Call::Gen { kind, count } => Ok(Call::Gen {
                kind: *kind,
                count: *count,
            }),
            Call::Delete { kind, name } => Ok(Call::Delete {
                kind: *kind,
                name: *name,
            }),
            Call::Bind { target, name } => Ok(Call::Bind {
                target: *target,
                name: *name,
            }),
            Call::BufferData {
                target,
                size,
                usage,
                payload,
            } => Ok(Call::BufferData {
                target: *target,
                size: *size,
                usage: *usage,
                payload: copy_optional(alloc, payload)?,
            }),
            Call::BufferSubData {
                target,
                offset,
                payload,
            } => Ok(Call::BufferSubData {
                target: *target,
                offset: *offset,
                payload: payload.copy(alloc)?,
            }),
            Call::CopyBufferSubData {
                from,
                to,
                read,
                write,
                size,
            } => Ok(Call::CopyBufferSubData {
                from: *from,
                to: *to,
                read: *read,
                write: *write,
                size: *size,
            }),
            Call::MapBufferRange {
                target,
                offset,
                length,
                access,
            } => Ok(Call::MapBufferRange {
                target: *target,
                offset: *offset,
                length: *length,
                access: *access,
            }),
            Call::FlushMappedBufferRange {
                target,
                offset,
                length,
            } => Ok(Call::FlushMappedBufferRange {
                target: *target,
                offset: *offset,
                length: *length,
            }),
            Call::UnmapBuffer { target } => Ok(Call::UnmapBuffer { target: *target }),
            Call::MapRead {
                target,
                offset,
                length,
            } => Ok(Call::MapRead {
                target: *target,
                offset: *offset,
                length: *length,
            }),
            Call::MapWrite {
                target,
                offset,
                payload,
            } => Ok(Call::MapWrite {
                target: *target,
                offset: *offset,
                payload: payload.copy(alloc)?,
            }),
            Call::TexStorage {
                levels,
                format,
                width,
                height,
            } => Ok(Call::TexStorage {
                levels: *levels,
                format: *format,
                width: *width,
                height: *height,
            }),
            Call::TexSubImage {
                x,
                y,
                width,
                height,
                format,
                kind,
                source,
            } => Ok(Call::TexSubImage {
                x: *x,
                y: *y,
                width: *width,
                height: *height,
                format: *format,
                kind: *kind,
                source: source.copy(alloc)?,
            }),
            Call::CopyTexSubImage {
                x,
                y,
                from_x,
                from_y,
                width,
                height,
            } => Ok(Call::CopyTexSubImage {
                x: *x,
                y: *y,
                from_x: *from_x,
                from_y: *from_y,
                width: *width,
                height: *height,
            }),
            Call::RenderbufferStorage {
                format,
                width,
                height,
            } => Ok(Call::RenderbufferStorage {
                format: *format,
                width: *width,
                height: *height,
            }),
            Call::Attach {
                target,
                point,
                what,
                name,
            } => Ok(Call::Attach {
                target: *target,
                point: *point,
                what: *what,
                name: *name,
            }),
            Call::CheckFramebufferStatus { target } => Ok(Call::CheckFramebufferStatus {
                target: *target,
            }),
            Call::DrawBuffers { buffers } => Ok(Call::DrawBuffers {
                buffers: buffers.copy(alloc)?,
            }),
            Call::ReadBuffer { buffer } => Ok(Call::ReadBuffer { buffer: *buffer }),
            Call::ClearUnsigned { buffer, r, g, b, a } => Ok(Call::ClearUnsigned {
                buffer: *buffer,
                r: *r,
                g: *g,
                b: *b,
                a: *a,
            }),
            Call::ClearSigned { buffer, r, g, b, a } => Ok(Call::ClearSigned {
                buffer: *buffer,
                r: *r,
                g: *g,
                b: *b,
                a: *a,
            }),
            Call::ScissorTest { on } => Ok(Call::ScissorTest { on: *on }),
            Call::ScissorBox {
                x,
                y,
                width,
                height,
            } => Ok(Call::ScissorBox {
                x: *x,
                y: *y,
                width: *width,
                height: *height,
            }),
            Call::Blit {
                sx0,
                sy0,
                sx1,
                sy1,
                dx0,
                dy0,
                dx1,
                dy1,
                mask,
                filter,
            } => Ok(Call::Blit {
                sx0: *sx0,
                sy0: *sy0,
                sx1: *sx1,
                sy1: *sy1,
                dx0: *dx0,
                dy0: *dy0,
                dx1: *dx1,
                dy1: *dy1,
                mask: *mask,
                filter: *filter,
            }),
            Call::Invalidate { target, buffer } => Ok(Call::Invalidate {
                target: *target,
                buffer: *buffer,
            }),
            Call::ReadPixels {
                x,
                y,
                width,
                height,
                format,
                kind,
                destination,
            } => Ok(Call::ReadPixels {
                x: *x,
                y: *y,
                width: *width,
                height: *height,
                format: *format,
                kind: *kind,
                destination: *destination,
            }),
            Call::PixelStore { parameter, value } => Ok(Call::PixelStore {
                parameter: *parameter,
                value: *value,
            }),
            Call::FenceSync {
                number,
                condition,
                flags,
            } => Ok(Call::FenceSync {
                number: *number,
                condition: *condition,
                flags: *flags,
            }),
            Call::ClientWaitSync {
                number,
                flags,
                timeout,
            } => Ok(Call::ClientWaitSync {
                number: *number,
                flags: *flags,
                timeout: *timeout,
            }),
            Call::WaitSync { number, flags, end } => Ok(Call::WaitSync {
                number: *number,
                flags: *flags,
                end: *end,
            }),
            Call::DeleteSync { number } => Ok(Call::DeleteSync { number: *number }),
            Call::Flush => Ok(Call::Flush),
            Call::Finish => Ok(Call::Finish),
        }
    }
}
