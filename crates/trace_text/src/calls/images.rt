//! Calls on textures and renderbuffers.

ghost use Rattle.std.specs.Prelude.{◌≡◌};
ghost use Rattle.trace_text.specs.Grammar.{call_of};
ghost use Rattle.trace_text.specs.declared.call_word.CallWord.TheVariants as call_word;
ghost use Rattle.trace_words.specs.Faults.{Gives};

use gl_calls::Call;
use std::alloc::Global;
use trace_words::{Fault, Stop, Words};

#[tactic(auto, unfolding(crate::specs::Grammar::call_of))]
pub fn tex_storage(words: &mut Words) -> Result<Call, Fault>
    ensures { result ≡ call_of call_word.TexStorage words.old }
{
    words.expect(4, 4)?;
    Ok(Call::TexStorage {
        levels: words.i32()?,
        format: words.format()?,
        width: words.i32()?,
        height: words.i32()?,
    })
}

#[tactic(auto, unfolding(crate::specs::Grammar::call_of))]
pub fn tex_sub_image(alloc: Global, words: &mut Words) -> Result<Call, Stop>
    ensures { Gives result (call_of call_word.TexSubImage words.old) }
{
    words.expect(7, 7)?;
    Ok(Call::TexSubImage {
        x: words.i32()?,
        y: words.i32()?,
        width: words.i32()?,
        height: words.i32()?,
        format: words.pixel_format()?,
        kind: words.pixel_type()?,
        source: words.pixel_source(alloc)?,
    })
}

#[tactic(auto, unfolding(crate::specs::Grammar::call_of))]
pub fn copy_tex_sub_image(words: &mut Words) -> Result<Call, Fault>
    ensures { result ≡ call_of call_word.CopyTexSubImage words.old }
{
    words.expect(6, 6)?;
    Ok(Call::CopyTexSubImage {
        x: words.i32()?,
        y: words.i32()?,
        from_x: words.i32()?,
        from_y: words.i32()?,
        width: words.i32()?,
        height: words.i32()?,
    })
}

#[tactic(auto, unfolding(crate::specs::Grammar::call_of))]
pub fn renderbuffer_storage(words: &mut Words) -> Result<Call, Fault>
    ensures { result ≡ call_of call_word.RenderbufferStorage words.old }
{
    words.expect(3, 3)?;
    Ok(Call::RenderbufferStorage {
        format: words.format()?,
        width: words.i32()?,
        height: words.i32()?,
    })
}
