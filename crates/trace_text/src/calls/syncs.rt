//! Calls on syncs, and the calls that send work off.

ghost use Rattle.std.specs.Prelude.{◌≡◌};
ghost use Rattle.trace_text.specs.Grammar.{call_of};
ghost use Rattle.trace_text.specs.declared.call_word.CallWord.TheVariants as call_word;

use gl_calls::Call;
use trace_words::{Fault, Words};

#[tactic(auto, unfolding(crate::specs::Grammar::call_of))]
pub fn create_sync(words: &mut Words) -> Result<Call, Fault>
    ensures { result ≡ call_of call_word.CreateSync words.old }
{
    words.expect(1, 1)?;
    Ok(Call::CreateSync {
        number: words.handle()?,
    })
}

#[tactic(auto, unfolding(crate::specs::Grammar::call_of))]
pub fn egl_client_wait_sync(words: &mut Words) -> Result<Call, Fault>
    ensures { result ≡ call_of call_word.EglClientWaitSync words.old }
{
    words.expect(3, 3)?;
    Ok(Call::EglClientWaitSync {
        number: words.handle_or_zero()?,
        flush: words.flag()?,
        timeout: words.u64()?,
    })
}

#[tactic(auto, unfolding(crate::specs::Grammar::call_of))]
pub fn destroy_sync(words: &mut Words) -> Result<Call, Fault>
    ensures { result ≡ call_of call_word.DestroySync words.old }
{
    words.expect(1, 1)?;
    Ok(Call::DestroySync {
        number: words.handle_or_zero()?,
    })
}

#[tactic(auto, unfolding(crate::specs::Grammar::call_of))]
pub fn fence_sync(words: &mut Words) -> Result<Call, Fault>
    ensures { result ≡ call_of call_word.FenceSync words.old }
{
    words.expect(3, 3)?;
    Ok(Call::FenceSync {
        number: words.handle()?,
        condition: words.condition()?,
        flags: words.u32()?,
    })
}

#[tactic(auto, unfolding(crate::specs::Grammar::call_of))]
pub fn client_wait_sync(words: &mut Words) -> Result<Call, Fault>
    ensures { result ≡ call_of call_word.ClientWaitSync words.old }
{
    words.expect(3, 3)?;
    Ok(Call::ClientWaitSync {
        number: words.handle_or_zero()?,
        flags: words.u32()?,
        timeout: words.u64()?,
    })
}

#[tactic(auto, unfolding(crate::specs::Grammar::call_of))]
pub fn wait_sync(words: &mut Words) -> Result<Call, Fault>
    ensures { result ≡ call_of call_word.WaitSync words.old }
{
    words.expect(3, 3)?;
    Ok(Call::WaitSync {
        number: words.handle_or_zero()?,
        flags: words.u32()?,
        end: words.wait_end()?,
    })
}

#[tactic(auto, unfolding(crate::specs::Grammar::call_of))]
pub fn delete_sync(words: &mut Words) -> Result<Call, Fault>
    ensures { result ≡ call_of call_word.DeleteSync words.old }
{
    words.expect(1, 1)?;
    Ok(Call::DeleteSync {
        number: words.handle_or_zero()?,
    })
}

#[tactic(auto, unfolding(crate::specs::Grammar::call_of))]
pub fn flush(words: &mut Words) -> Result<Call, Fault>
    ensures { result ≡ call_of call_word.Flush words.old }
{
    words.expect(0, 0)?;
    Ok(Call::Flush)
}

#[tactic(auto, unfolding(crate::specs::Grammar::call_of))]
pub fn finish(words: &mut Words) -> Result<Call, Fault>
    ensures { result ≡ call_of call_word.Finish words.old }
{
    words.expect(0, 0)?;
    Ok(Call::Finish)
}
