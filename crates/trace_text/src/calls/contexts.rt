//! Calls on contexts.

ghost use Rattle.std.specs.Prelude.{◌≡◌};
ghost use Rattle.trace_text.specs.Grammar.{call_of};
ghost use Rattle.trace_text.specs.declared.call_word.CallWord.TheVariants as call_word;

use gl_calls::Call;
use trace_words::{Fault, Words};

#[tactic(auto, unfolding(crate::specs::Grammar::call_of))]
pub fn create_context(words: &mut Words) -> Result<Call, Fault>
    ensures { result ≡ call_of call_word.CreateContext words.old }
{
    words.expect(1, 1)?;
    Ok(Call::CreateContext {
        number: words.handle()?,
    })
}

#[tactic(auto, unfolding(crate::specs::Grammar::call_of))]
pub fn destroy_context(words: &mut Words) -> Result<Call, Fault>
    ensures { result ≡ call_of call_word.DestroyContext words.old }
{
    words.expect(1, 1)?;
    Ok(Call::DestroyContext {
        number: words.handle_or_zero()?,
    })
}

#[tactic(auto, unfolding(crate::specs::Grammar::call_of))]
pub fn make_current(words: &mut Words) -> Result<Call, Fault>
    ensures { result ≡ call_of call_word.MakeCurrent words.old }
{
    words.expect(1, 1)?;
    Ok(Call::MakeCurrent {
        number: words.handle_or_zero()?,
    })
}

#[tactic(auto, unfolding(crate::specs::Grammar::call_of))]
pub fn egl_get_error(words: &mut Words) -> Result<Call, Fault>
    ensures { result ≡ call_of call_word.EglGetError words.old }
{
    words.expect(0, 0)?;
    Ok(Call::EglGetError)
}
