//! What a call may ask for, and what it costs.

ghost use Rattle.std.specs.Prelude.{◌≡◌, ◌<◌, ◌^◌, ◌*◌};
ghost use Rattle.trace_text.specs.Limits.{size_of, has_its_length, is_in_profile, source_len, cost_of};

use gl_calls::{Call, PixelSource};

const MOST_BYTES: u64 = 67_108_864;

/// Whether the data of a call has the size that the call names.
pub fn has_stated_length(call: &Call) -> bool
    ensures { result ≡ has_its_length call.now }
{
    match call {
        Call::BufferData {
            size,
            payload: Some(payload),
            ..
        } => { *size >= 0 && *size as u64 == payload.len() }
        _ => true,
    }
}

/// Whether the call asks for no more levels and names than there are.
pub fn is_supported(call: &Call) -> bool
    ensures { result ≡ is_in_profile call.now }
{
    match call {
        Call::TexStorage { levels, .. } => *levels <= 1,
        Call::Gen { count, .. } => *count <= 64,
        _ => true,
    }
}

/// The bytes that the call may make.
pub fn cost(call: &Call) -> u128
    ensures value { result ≡ cost_of call.now }
    ensures range { result < 2 ^ 70 }
{
    match call {
        Call::BufferData { size, .. } => u128::from(not_negative(*size).min(MOST_BYTES)),
        Call::BufferSubData { payload, .. } => u128::from(payload.len()),
        Call::MapWrite { payload, .. } => u128::from(payload.len()),
        Call::MapBufferRange { length, .. } | Call::MapRead { length, .. } => {
            u128::from(not_negative(*length).min(MOST_BYTES))
        }
        Call::TexStorage { width, height, .. } | Call::RenderbufferStorage { width, height, .. } =>
            { area_cost(*width, *height).min(67_108_864) }
        Call::TexSubImage { source, .. } => source_cost(source),
        Call::ReadPixels { width, height, .. } => area_cost(*width, *height),
        _ => 0,
    }
}

fn source_cost(source: &PixelSource) -> u128
    ensures value { result ≡ source_len source.now }
    ensures range { result < 2 ^ 64 }
{
    match source {
        PixelSource::Client { payload } => u128::from(payload.len()),
        PixelSource::Offset(_) => 0,
    }
}

fn area_cost(width: i32, height: i32) -> u128
    ensures value { result ≡ 16 * size_of width * size_of height }
    ensures range { result < 2 ^ 70 }
{
    let width = not_negative(i64::from(width));
    let height = not_negative(i64::from(height));
    16 * u128::from(width) * u128::from(height)
}

fn not_negative(number: i64) -> u64
    ensures value { result ≡ size_of number }
    ensures range { result < 2 ^ 63 }
{
    if number < 0 { 0 } else { number as u64 }
}
