//! Calls on buffers and their maps.

ghost use Rattle.std.specs.Prelude.{◌≡◌};
ghost use Rattle.trace_text.specs.Grammar.{call_of};
ghost use Rattle.trace_text.specs.declared.call_word.CallWord.TheVariants as call_word;
ghost use Rattle.trace_words.specs.Faults.{Gives};

use gl_calls::Call;
use std::alloc::Global;
use trace_words::{Fault, Stop, Words};

#[tactic(auto, unfolding(crate::specs::Grammar::call_of))]
pub fn buffer_data(alloc: Global, words: &mut Words) -> Result<Call, Stop>
    ensures { Gives result (call_of call_word.BufferData words.old) }
{
    words.expect(4, 4)?;
    Ok(Call::BufferData {
        target: words.buffer()?,
        size: words.i64()?,
        usage: words.usage()?,
        payload: words.payload_or_null(alloc)?,
    })
}

#[tactic(auto, unfolding(crate::specs::Grammar::call_of))]
pub fn buffer_sub_data(alloc: Global, words: &mut Words) -> Result<Call, Stop>
    ensures { Gives result (call_of call_word.BufferSubData words.old) }
{
    words.expect(3, 3)?;
    Ok(Call::BufferSubData {
        target: words.buffer()?,
        offset: words.i64()?,
        payload: words.payload(alloc)?,
    })
}

#[tactic(auto, unfolding(crate::specs::Grammar::call_of))]
pub fn copy_buffer_sub_data(words: &mut Words) -> Result<Call, Fault>
    ensures { result ≡ call_of call_word.CopyBufferSubData words.old }
{
    words.expect(5, 5)?;
    Ok(Call::CopyBufferSubData {
        from: words.buffer()?,
        to: words.buffer()?,
        read: words.i64()?,
        write: words.i64()?,
        size: words.i64()?,
    })
}

#[tactic(auto, unfolding(crate::specs::Grammar::call_of))]
pub fn map_buffer_range(words: &mut Words) -> Result<Call, Fault>
    ensures { result ≡ call_of call_word.MapBufferRange words.old }
{
    words.expect(4, 4)?;
    Ok(Call::MapBufferRange {
        target: words.buffer()?,
        offset: words.i64()?,
        length: words.i64()?,
        access: words.access()?,
    })
}

#[tactic(auto, unfolding(crate::specs::Grammar::call_of))]
pub fn flush_mapped_buffer_range(words: &mut Words) -> Result<Call, Fault>
    ensures { result ≡ call_of call_word.FlushMappedBufferRange words.old }
{
    words.expect(3, 3)?;
    Ok(Call::FlushMappedBufferRange {
        target: words.buffer()?,
        offset: words.i64()?,
        length: words.i64()?,
    })
}

#[tactic(auto, unfolding(crate::specs::Grammar::call_of))]
pub fn unmap_buffer(words: &mut Words) -> Result<Call, Fault>
    ensures { result ≡ call_of call_word.UnmapBuffer words.old }
{
    words.expect(1, 1)?;
    Ok(Call::UnmapBuffer {
        target: words.buffer()?,
    })
}

#[tactic(auto, unfolding(crate::specs::Grammar::call_of))]
pub fn map_read(words: &mut Words) -> Result<Call, Fault>
    ensures { result ≡ call_of call_word.MapRead words.old }
{
    words.expect(3, 3)?;
    Ok(Call::MapRead {
        target: words.buffer()?,
        offset: words.i64()?,
        length: words.i64()?,
    })
}

#[tactic(auto, unfolding(crate::specs::Grammar::call_of))]
pub fn map_write(alloc: Global, words: &mut Words) -> Result<Call, Stop>
    ensures { Gives result (call_of call_word.MapWrite words.old) }
{
    words.expect(3, 3)?;
    Ok(Call::MapWrite {
        target: words.buffer()?,
        offset: words.i64()?,
        payload: words.payload(alloc)?,
    })
}
