// The calls that change the store or the map of the bound buffer.
ghost use Rattle.std.specs.Prelude.{◌≡◌, Some, None, unsigned_abs, Option};
ghost use Rattle.gl_calls.specs.declared.payload.Payload.{Payload};
ghost use Rattle.gl_calls.specs.declared.words.Usage.{Usage};
ghost use Rattle.gl_model.specs.GroupEffect.{group_effect};
ghost use Rattle.gl_state.specs.Changes.{bound_number, changed_buffer};

use crate::state::SharedState;
use gl_calls::{AccessWord, BufferTarget, Call};
use gl_model::{BufferFacts, Counted, GroupState, Mapped};

/// The magnitude of a number.
fn magnitude(value: i64) -> u64
    ensures { result ≡ unsigned_abs value }
{
    value.unsigned_abs()
}

/// The buffer that is bound to a target on a thread, by its number.
fn bound_number(group: &GroupState, thread: u32, target: BufferTarget) -> Option<u32>
    ensures { result ≡ bound_number group.now thread target }
{
    match group.current(thread) {
        Some(context) => context.buffer_binding(target),
        None => None,
    }
}

/// Gives the buffer of a number a new store.
fn set_store(buffers: &mut Counted<BufferFacts>, number: Option<u32>, size: u64)
    ensures { buffers.new ≡ changed_buffer number (λ _. record { size = size; map = None }) buffers.old }
{
    let Some(buffer) = number else {
        return;
    };
    if buffers.contains_key(buffer) {
        buffers.replace(buffer, BufferFacts { size, map: None });
    }
}

/// Maps the buffer of a number, or ends its map.
pub fn set_map(buffers: &mut Counted<BufferFacts>, number: Option<u32>, map: Option<Mapped>)
    ensures { buffers.new ≡ changed_buffer number (λ f. record f { map = map }) buffers.old }
{
    let Some(buffer) = number else {
        return;
    };
    if let Some(facts) = buffers.get(buffer).copied() {
        buffers.replace(buffer, BufferFacts { map, ..facts });
    }
}

/// Gives the bound buffer a new store, and ends its map (OpenGL ES 3.0.6, Creating Buffer Object Data Stores).
pub fn buffer_data(state: &mut SharedState, thread: u32, target: BufferTarget, size: i64)
    ensures { (usage : Usage) (payload : Option Payload) → state.new ≡ group_effect state.old thread (Call.BufferData target size usage payload) }
{
    let number = bound_number(&state.group, thread, target);
    let size = magnitude(size);
    set_store(&mut state.group.buffers, number, size);
}

/// Maps a range of the bound buffer (OpenGL ES 3.0.6, Mapping and Unmapping Buffer Data).
pub fn map_buffer_range(
    state: &mut SharedState,
    thread: u32,
    target: BufferTarget,
    offset: i64,
    length: i64,
    access: AccessWord,
)
    ensures { state.new ≡ group_effect state.old thread (Call.MapBufferRange target offset length access) }
{
    let number = bound_number(&state.group, thread, target);
    let at = magnitude(offset);
    let len = magnitude(length);
    let map = Some(Mapped { at, len, access });
    set_map(&mut state.group.buffers, number, map);
}

/// Ends the map of the bound buffer (OpenGL ES 3.0.6, Mapping and Unmapping Buffer Data).
pub fn unmap_buffer(state: &mut SharedState, thread: u32, target: BufferTarget)
    ensures { state.new ≡ group_effect state.old thread (Call.UnmapBuffer target) }
{
    let number = bound_number(&state.group, thread, target);
    set_map(&mut state.group.buffers, number, None);
}
