// The calls that make and destroy syncs.
ghost use Rattle.std.specs.Prelude.{◌≡◌, ℕ, Bool, IsTrue, OnOk, OnErr, is_some, if◌then◌else◌};
ghost use Rattle.gl_calls.specs.declared.words.FenceCondition.{FenceCondition};
ghost use Rattle.tables.specs.Table.{has, with_entry, without};
ghost use Rattle.gl_model.specs.Bindings.{current_context};
ghost use Rattle.gl_model.specs.GroupEffect.{group_effect};

use crate::state::SharedState;
use formats::EglError;
use gl_calls::Call;
use gl_model::GroupState;
use std::alloc::AllocError;
use tables::Table;

/// Whether a thread has a current context.
fn has_context(group: &GroupState, thread: u32) -> bool
    ensures { result ≡ is_some (current_context group.now thread) }
{
    group.current(thread).is_some()
}

/// Adds a sync, if the call has a context.
fn add(syncs: &mut Table<()>, here: bool, number: u16) -> Result<(), AllocError>
    ensures ok { OnOk result (syncs.new ≡ (if here then with_entry number tt syncs.old else syncs.old)) }
    ensures err { OnErr result (syncs.new ≡ syncs.old) }
{
    if !here {
        return Ok(());
    }
    syncs.insert(u32::from(number), ())
}

/// Takes a sync out, if the call has a context.
fn take_out(syncs: &mut Table<()>, here: bool, number: u16)
    ensures { syncs.new ≡ (if here then without number syncs.old else syncs.old) }
{
    if here {
        syncs.remove(u32::from(number));
    }
}

/// Makes a sync (OpenGL ES 3.0.6, Sync Objects and Fences). For want of memory nothing changes.
pub fn fence_sync(state: &mut SharedState, thread: u32, number: u16) -> Result<(), AllocError>
    ensures ok { OnOk result ((condition : FenceCondition) (flags : ℕ) → state.new ≡ group_effect state.old thread (Call.FenceSync number condition flags)) }
    ensures err { OnErr result (state.new ≡ state.old) }
{
    let here = has_context(&state.group, thread);
    add(&mut state.group.syncs, here, number)?;
    Ok(())
}

/// Destroys a sync (OpenGL ES 3.0.6, Sync Objects and Fences).
pub fn delete_sync(state: &mut SharedState, thread: u32, number: u16)
    ensures { state.new ≡ group_effect state.old thread (Call.DeleteSync number) }
{
    let here = has_context(&state.group, thread);
    take_out(&mut state.group.syncs, here, number);
}

/// Makes an EGL sync (EGL 1.5, Creating Sync Objects). For want of memory nothing changes.
pub fn create_sync(state: &mut SharedState, thread: u32, number: u16) -> Result<(), AllocError>
    requires { IsTrue (has thread state.old.threads) }
    ensures ok { OnOk result (state.new ≡ group_effect state.old thread (Call.CreateSync number)) }
    ensures err { OnErr result (state.new ≡ state.old) }
{
    state.group.egl_syncs.insert(u32::from(number), ())?;
    state.group.threads.replace(thread, EglError::Success);
    Ok(())
}

/// Destroys an EGL sync (EGL 1.5, Destroying Sync Objects).
pub fn destroy_sync(state: &mut SharedState, thread: u32, number: u16)
    requires { IsTrue (has thread state.old.threads) }
    ensures { state.new ≡ group_effect state.old thread (Call.DestroySync number) }
{
    state.group.egl_syncs.remove(u32::from(number));
    state.group.threads.replace(thread, EglError::Success);
}

/// Sets the EGL error of a thread to success, as a call of EGL does that changes nothing else (EGL 1.5, Errors).
pub fn succeed(state: &mut SharedState, thread: u32)
    requires { IsTrue (has thread state.old.threads) }
    ensures read { state.new ≡ group_effect state.old thread Call.EglGetError }
    ensures waited { (number : ℕ) (flush : Bool) (timeout : ℕ) → state.new ≡ group_effect state.old thread (Call.EglClientWaitSync number flush timeout) }
{
    state.group.threads.replace(thread, EglError::Success);
}
