//! Calls on names and the state of a context.

ghost use Rattle.std.specs.Prelude.{◌≡◌};
ghost use Rattle.trace_text.specs.Grammar.{call_of};
ghost use Rattle.trace_text.specs.declared.call_word.CallWord.TheVariants as call_word;

use gl_calls::Call;
use trace_words::{Fault, Words};

#[tactic(auto, unfolding(crate::specs::Grammar::call_of))]
pub fn get_error(words: &mut Words) -> Result<Call, Fault>
    ensures { result ≡ call_of call_word.GetError words.old }
{
    words.expect(0, 0)?;
    Ok(Call::GetError)
}

#[tactic(auto, unfolding(crate::specs::Grammar::call_of))]
pub fn get_integer(words: &mut Words) -> Result<Call, Fault>
    ensures { result ≡ call_of call_word.GetInteger words.old }
{
    words.expect(1, 1)?;
    Ok(Call::GetInteger {
        limit: words.limit()?,
    })
}

#[tactic(auto, unfolding(crate::specs::Grammar::call_of))]
pub fn generate(words: &mut Words) -> Result<Call, Fault>
    ensures { result ≡ call_of call_word.Gen words.old }
{
    words.expect(2, 2)?;
    Ok(Call::Gen {
        kind: words.object_kind()?,
        count: words.i32()?,
    })
}

#[tactic(auto, unfolding(crate::specs::Grammar::call_of))]
pub fn delete(words: &mut Words) -> Result<Call, Fault>
    ensures { result ≡ call_of call_word.Delete words.old }
{
    words.expect(2, 2)?;
    Ok(Call::Delete {
        kind: words.object_kind()?,
        name: words.u32()?,
    })
}

#[tactic(auto, unfolding(crate::specs::Grammar::call_of))]
pub fn bind(words: &mut Words) -> Result<Call, Fault>
    ensures { result ≡ call_of call_word.Bind words.old }
{
    words.expect(2, 2)?;
    Ok(Call::Bind {
        target: words.bind_target()?,
        name: words.u32()?,
    })
}
