ghost use Rattle.std.specs.Prelude.{◌≡◌, IfOk, length, map, ◌+◌, ◌*◌, ◌%◌};
ghost use Rattle.std.specs.List.{range_with_len};

use crate::words::DrawBuffer;
use cells::Bytes;
use std::alloc::{AllocError, Global};
use std::marker::Model;

/// Bytes that a call hands over: the bytes themselves, or `len` bytes of which byte k is `start + k * step` modulo 256.
#[derive(Drop, Debug)]
pub enum Payload {
    Literal(Bytes),
    Ramp { len: u32, start: u8, step: u8 },
}

/// The bytes of a ramp.
fn ramp(alloc: Global, len: u32, start: u8, step: u8) -> Result<Vec<u8>, AllocError>
    ensures { IfOk result (λ bytes. bytes.items ≡ map (λ k. (start + k * step) % 256) (range_with_len 0 len)) }
{
    (0..len)
        .map(|k| ((start as u64 + k as u64 * step as u64) % 256) as u8)
        .collect(alloc)
}

impl Payload {
    ghost use Rattle.gl_calls.specs.Words.{payload_len, payload_bytes};

    /// How many bytes there are.
    pub fn len(&self) -> u64
        ensures { result ≡ payload_len self.now }
    {
        match self {
            Payload::Literal(bytes) => bytes.as_slice().len() as u64,
            Payload::Ramp { len, .. } => *len as u64,
        }
    }

    /// The bytes, made.
    pub fn bytes(&self, alloc: Global) -> Result<Bytes, AllocError>
        ensures { IfOk result (λ bytes. bytes ≡ payload_bytes self.now) }
    {
        match self {
            Payload::Literal(bytes) => Bytes::copy_of(alloc, bytes.as_slice()),
            Payload::Ramp { len, start, step } => {
                Ok(Bytes::of(ramp(alloc, *len, *start, *step)?))
            }
        }
    }

    /// A payload of the same value.
    pub fn copy(&self, alloc: Global) -> Result<Payload, AllocError>
        ensures { IfOk result (λ copy. copy ≡ self.now) }
    {
        match self {
            Payload::Literal(bytes) => {
                Ok(Payload::Literal(Bytes::copy_of(alloc, bytes.as_slice())?))
            }
            Payload::Ramp { len, start, step } => Ok(Payload::Ramp {
                len: *len,
                start: *start,
                step: *step,
            }),
        }
    }
}

/// The buffers that DrawBuffers lists, for draw buffer 0, 1 and so on; contracts see them as a list.
/// Those that are not listed become none.
#[derive(Drop, Debug)]
pub struct DrawBufferList {
    items: Vec<DrawBuffer>,
}

impl Model for DrawBufferList {
    ghost use Rattle.std.specs.Prelude.{List};
    ghost use Rattle.gl_calls.specs.declared.words.DrawBuffer.{DrawBuffer};

    ghost Value = { List DrawBuffer };

    ghost view = { λ d. d.items.items };
}

impl DrawBufferList {
    /// The list of a vector's buffers. This takes no memory.
    pub fn of(items: Vec<DrawBuffer>) -> DrawBufferList
        ensures { result ≡ items.items }
    {
        DrawBufferList { items }
    }

    /// The vector back. This takes no memory.
    pub fn into_vec(self) -> Vec<DrawBuffer>
        ensures { result.items ≡ self }
    {
        self.items
    }

    /// A list of the same buffers.
    pub fn copy(&self, alloc: Global) -> Result<DrawBufferList, AllocError>
        ensures { IfOk result (λ copy. copy ≡ self.now) }
    {
        Ok(DrawBufferList {
            items: Vec::from_slice(alloc, self.items.as_slice())?,
        })
    }

    /// The buffers in their order.
    pub fn as_slice(&self) -> &[DrawBuffer]
        ensures { result.now ≡ self.now }
    {
        self.items.as_slice()
    }
}
