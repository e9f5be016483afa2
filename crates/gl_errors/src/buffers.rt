ghost use Rattle.std.specs.Prelude.{◌≡◌, ◌<◌, ◌≤◌, ◌+◌, ◌^◌};
ghost use Rattle.gl_errors.specs.Decision.{decided};
ghost use Rattle.gl_model.specs.BufferRows.{
  buffer_data_rows,
  buffer_sub_data_rows,
  copy_buffer_rows,
  map_rows,
  flush_rows,
  unmap_rows,
  map_read_rows,
  map_write_rows,
  gap,
};
ghost use Rattle.gl_model.specs.RefusalRows.{invalid_enum, invalid_value, invalid_operation};

use crate::decision::{Decision, refused};
use gl_calls::{AccessWord, BufferTarget, GlError, Reply, Usage};
use gl_model::BufferFacts;

/// BufferData. `full` says that with the new store the group passes its limit.
pub fn buffer_data(
    target: BufferTarget,
    size: i64,
    usage: Usage,
    bound: &Option<BufferFacts>,
    full: bool,
) -> Decision
    ensures { result ≡ decided (buffer_data_rows target size usage bound.now full) }
{
    if matches!(target, BufferTarget::Other) {
        return refused(GlError::InvalidEnum);
    }
    if size < 0 {
        return refused(GlError::InvalidValue);
    }
    if matches!(usage, Usage::Other) {
        return refused(GlError::InvalidEnum);
    }
    if bound.is_none() {
        return refused(GlError::InvalidOperation);
    }
    if full {
        return refused(GlError::OutOfMemory);
    }
    Decision::Accepted
}

/// BufferSubData.
pub fn buffer_sub_data(
    target: BufferTarget,
    offset: i64,
    len: u64,
    bound: &Option<BufferFacts>,
) -> Decision
    ensures { result ≡ decided (buffer_sub_data_rows target offset len bound.now) }
{
    if matches!(target, BufferTarget::Other) {
        return refused(GlError::InvalidEnum);
    }
    if offset < 0 {
        return refused(GlError::InvalidValue);
    }
    let Some(buffer) = bound else {
        return refused(GlError::InvalidOperation);
    };
    if buffer.map.is_some() {
        return refused(GlError::InvalidOperation);
    }
    if buffer.size < offset as u64 || buffer.size - (offset as u64) < len {
        return refused(GlError::InvalidValue);
    }
    Decision::Accepted
}

/// CopyBufferSubData. Same says that both targets have one buffer.
pub fn copy_buffer(
    from: BufferTarget,
    to: BufferTarget,
    read: i64,
    write: i64,
    size: i64,
    source: &Option<BufferFacts>,
    target: &Option<BufferFacts>,
    same: bool,
) -> Decision
    ensures { result ≡ decided (copy_buffer_rows from to read write size source.now target.now same) }
{
    if matches!(from, BufferTarget::Other) || matches!(to, BufferTarget::Other) {
        return refused(GlError::InvalidEnum);
    }
    if read < 0 || write < 0 || size < 0 {
        return refused(GlError::InvalidValue);
    }
    let (Some(source), Some(target)) = (source, target) else {
        return refused(GlError::InvalidOperation);
    };
    if source.map.is_some() || target.map.is_some() {
        return refused(GlError::InvalidOperation);
    }
    let (read, write, size) = (read as u64, write as u64, size as u64);
    if source.size < read + size || target.size < write + size {
        return refused(GlError::InvalidValue);
    }
    if same && 0 < size && read.abs_diff(write) < size {
        return refused(GlError::InvalidValue);
    }
    Decision::Accepted
}

/// MapBufferRange.
pub fn map_range(
    target: BufferTarget,
    offset: i64,
    len: i64,
    access: AccessWord,
    bound: &Option<BufferFacts>,
) -> Decision
    ensures { result ≡ decided (map_rows target offset len access bound.now) }
{
    if matches!(target, BufferTarget::Other) {
        return refused(GlError::InvalidEnum);
    }
    if offset < 0 || len < 0 {
        return refused(GlError::InvalidValue);
    }
    if access.unknown {
        return refused(GlError::InvalidValue);
    }
    let Some(buffer) = bound else {
        return refused(GlError::InvalidOperation);
    };
    if buffer.size < offset as u64 + len as u64 {
        return refused(GlError::InvalidValue);
    }
    if len == 0 || buffer.map.is_some() || !(access.read || access.write) {
        return refused(GlError::InvalidOperation);
    }
    if access.read
        && (access.invalidate_range || access.invalidate_buffer || access.unsynchronized)
    {
        return refused(GlError::InvalidOperation);
    }
    if access.flush_explicit && !access.write {
        return refused(GlError::InvalidOperation);
    }
    Decision::Accepted
}

/// FlushMappedBufferRange.
pub fn flush_range(
    target: BufferTarget,
    offset: i64,
    len: i64,
    bound: &Option<BufferFacts>,
) -> Decision
    ensures { result ≡ decided (flush_rows target offset len bound.now) }
{
    if matches!(target, BufferTarget::Other) {
        return refused(GlError::InvalidEnum);
    }
    if offset < 0 || len < 0 {
        return refused(GlError::InvalidValue);
    }
    let Some(BufferFacts { map: Some(map), .. }) = bound else {
        return refused(GlError::InvalidOperation);
    };
    if !map.access.flush_explicit {
        return refused(GlError::InvalidOperation);
    }
    if map.len < offset as u64 + len as u64 {
        return refused(GlError::InvalidValue);
    }
    Decision::Accepted
}

/// UnmapBuffer.
pub fn unmap(target: BufferTarget, bound: &Option<BufferFacts>) -> Decision
    ensures { result ≡ decided (unmap_rows target bound.now) }
{
    if matches!(target, BufferTarget::Other) {
        return refused(GlError::InvalidEnum);
    }
    let Some(BufferFacts { map: Some(_), .. }) = bound else {
        return refused(GlError::InvalidOperation);
    };
    Decision::Accepted
}

/// A read through the map.
pub fn map_read(
    target: BufferTarget,
    offset: i64,
    len: i64,
    bound: &Option<BufferFacts>,
) -> Decision
    ensures { result ≡ decided (map_read_rows target offset len bound.now) }
{
    if matches!(target, BufferTarget::Other) {
        return Decision::Refused(Reply::NoMap);
    }
    let Some(BufferFacts { map: Some(map), .. }) = bound else {
        return Decision::Refused(Reply::NoMap);
    };
    if offset < 0 || len < 0 || map.len < offset as u64 + len as u64 || !map.access.read {
        return Decision::Refused(Reply::NoMap);
    }
    Decision::Accepted
}

/// A write through the map.
pub fn map_write(
    target: BufferTarget,
    offset: i64,
    len: u64,
    bound: &Option<BufferFacts>,
) -> Decision
    ensures { result ≡ decided (map_write_rows target offset len bound.now) }
{
    if matches!(target, BufferTarget::Other) {
        return Decision::Refused(Reply::NoMap);
    }
    let Some(BufferFacts { map: Some(map), .. }) = bound else {
        return Decision::Refused(Reply::NoMap);
    };
    if offset < 0
        || map.len < offset as u64
        || map.len - (offset as u64) < len
        || !map.access.write
    {
        return Decision::Refused(Reply::NoMap);
    }
    Decision::Accepted
}
