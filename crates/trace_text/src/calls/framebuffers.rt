//! Calls on framebuffers.

ghost use Rattle.std.specs.Prelude.{◌≡◌, ◌++◌, IfOk, OnOk};
ghost use Rattle.trace_text.specs.Grammar.{call_of, if_given, listed};
ghost use Rattle.trace_text.specs.declared.call_word.CallWord.TheVariants as call_word;
ghost use Rattle.trace_words.specs.Faults.{Gives};

use gl_calls::{Call, DrawBuffer, DrawBufferList};
use std::alloc::{AllocError, Global};
use trace_words::{Fault, Stop, Words};

#[tactic(auto, unfolding(crate::specs::Grammar::call_of))]
pub fn attach(words: &mut Words) -> Result<Call, Fault>
    ensures { result ≡ call_of call_word.Attach words.old }
{
    words.expect(4, 4)?;
    Ok(Call::Attach {
        target: words.framebuffer()?,
        point: words.point()?,
        what: words.attached()?,
        name: words.u32()?,
    })
}

#[tactic(auto, unfolding(crate::specs::Grammar::call_of))]
pub fn check_framebuffer_status(words: &mut Words) -> Result<Call, Fault>
    ensures { result ≡ call_of call_word.CheckFramebufferStatus words.old }
{
    words.expect(1, 1)?;
    Ok(Call::CheckFramebufferStatus {
        target: words.framebuffer()?,
    })
}

#[tactic(auto, unfolding(crate::specs::Grammar::call_of))]
pub fn draw_buffers(alloc: Global, words: &mut Words) -> Result<Call, Stop>
    ensures { Gives result (call_of call_word.DrawBuffers words.old) }
{
    words.expect(1, 4)?;
    let first = words.draw_buffer()?;
    let second = words.draw_buffer_if_any()?;
    let third = words.draw_buffer_if_any()?;
    let fourth = words.draw_buffer_if_any()?;
    Ok(Call::DrawBuffers {
        buffers: list_of(alloc, first, second, third, fourth)?,
    })
}

/// The list of the buffers that are given.
fn list_of(
    alloc: Global,
    first: DrawBuffer,
    second: Option<DrawBuffer>,
    third: Option<DrawBuffer>,
    fourth: Option<DrawBuffer>,
) -> Result<DrawBufferList, AllocError>
    ensures { IfOk result (λ buffers. buffers ≡ listed first second third fourth) }
{
    let mut buffers = Vec::new(alloc);
    buffers.push(first)?;
    push_if_given(&mut buffers, second)?;
    push_if_given(&mut buffers, third)?;
    push_if_given(&mut buffers, fourth)?;
    Ok(DrawBufferList::of(buffers))
}

fn push_if_given(
    buffers: &mut Vec<DrawBuffer>,
    buffer: Option<DrawBuffer>,
) -> Result<(), AllocError>
    ensures { OnOk result (buffers.new.items ≡ buffers.old.items ++ if_given buffer) }
{
    match buffer {
        None => Ok(()),
        Some(buffer) => Ok(buffers.push(buffer)?),
    }
}

#[tactic(auto, unfolding(crate::specs::Grammar::call_of))]
pub fn read_buffer(words: &mut Words) -> Result<Call, Fault>
    ensures { result ≡ call_of call_word.ReadBuffer words.old }
{
    words.expect(1, 1)?;
    Ok(Call::ReadBuffer {
        buffer: words.draw_buffer()?,
    })
}
