//! Clears, copies of framebuffers, and reads of pixels.

ghost use Rattle.std.specs.Prelude.{◌≡◌};
ghost use Rattle.trace_text.specs.Grammar.{call_of};
ghost use Rattle.trace_text.specs.declared.call_word.CallWord.TheVariants as call_word;

use gl_calls::Call;
use trace_words::{Fault, Words};

#[tactic(auto, unfolding(crate::specs::Grammar::call_of))]
pub fn clear_unsigned(words: &mut Words) -> Result<Call, Fault>
    ensures { result ≡ call_of call_word.ClearUnsigned words.old }
{
    words.expect(5, 5)?;
    Ok(Call::ClearUnsigned {
        buffer: words.i32()?,
        r: words.u32()?,
        g: words.u32()?,
        b: words.u32()?,
        a: words.u32()?,
    })
}

#[tactic(auto, unfolding(crate::specs::Grammar::call_of))]
pub fn clear_signed(words: &mut Words) -> Result<Call, Fault>
    ensures { result ≡ call_of call_word.ClearSigned words.old }
{
    words.expect(5, 5)?;
    Ok(Call::ClearSigned {
        buffer: words.i32()?,
        r: words.i32()?,
        g: words.i32()?,
        b: words.i32()?,
        a: words.i32()?,
    })
}

#[tactic(auto, unfolding(crate::specs::Grammar::call_of))]
pub fn scissor_test(words: &mut Words) -> Result<Call, Fault>
    ensures { result ≡ call_of call_word.ScissorTest words.old }
{
    words.expect(1, 1)?;
    Ok(Call::ScissorTest {
        on: words.switch()?,
    })
}

#[tactic(auto, unfolding(crate::specs::Grammar::call_of))]
pub fn scissor_box(words: &mut Words) -> Result<Call, Fault>
    ensures { result ≡ call_of call_word.ScissorBox words.old }
{
    words.expect(4, 4)?;
    Ok(Call::ScissorBox {
        x: words.i32()?,
        y: words.i32()?,
        width: words.i32()?,
        height: words.i32()?,
    })
}

#[tactic(auto, unfolding(crate::specs::Grammar::call_of))]
pub fn blit(words: &mut Words) -> Result<Call, Fault>
    ensures { result ≡ call_of call_word.Blit words.old }
{
    words.expect(10, 10)?;
    Ok(Call::Blit {
        sx0: words.i32()?,
        sy0: words.i32()?,
        sx1: words.i32()?,
        sy1: words.i32()?,
        dx0: words.i32()?,
        dy0: words.i32()?,
        dx1: words.i32()?,
        dy1: words.i32()?,
        mask: words.mask()?,
        filter: words.filter()?,
    })
}

#[tactic(auto, unfolding(crate::specs::Grammar::call_of))]
pub fn invalidate(words: &mut Words) -> Result<Call, Fault>
    ensures { result ≡ call_of call_word.Invalidate words.old }
{
    words.expect(2, 2)?;
    Ok(Call::Invalidate {
        target: words.framebuffer()?,
        buffer: words.draw_buffer()?,
    })
}

#[tactic(auto, unfolding(crate::specs::Grammar::call_of))]
pub fn read_pixels(words: &mut Words) -> Result<Call, Fault>
    ensures { result ≡ call_of call_word.ReadPixels words.old }
{
    words.expect(7, 7)?;
    Ok(Call::ReadPixels {
        x: words.i32()?,
        y: words.i32()?,
        width: words.i32()?,
        height: words.i32()?,
        format: words.pixel_format()?,
        kind: words.pixel_type()?,
        destination: words.pixel_destination()?,
    })
}

#[tactic(auto, unfolding(crate::specs::Grammar::call_of))]
pub fn pixel_store(words: &mut Words) -> Result<Call, Fault>
    ensures { result ≡ call_of call_word.PixelStore words.old }
{
    words.expect(2, 2)?;
    Ok(Call::PixelStore {
        parameter: words.parameter()?,
        value: words.i32()?,
    })
}
