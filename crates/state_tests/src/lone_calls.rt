use formats::EglError;
use gl_calls::{Call, Reply};
use gl_state::{SharedState, create_sync, fence_sync, get_error, refuse};
use std::test::Fail;

#[test]
fn a_refusal_by_egl_sets_the_error_of_the_thread(rt: HostRuntime) -> Result<(), Fail> {
    let mut state = SharedState::new(rt.alloc(), &[1, 2])?;
    let call = Call::MakeCurrent { number: 5 };
    let reply = Reply::EglFault(EglError::BadContext);
    refuse(&mut state, 2, &call, &reply);
    assert!(rt; matches!(state.group().threads.get(2), Some(EglError::BadContext)));
    assert!(rt; matches!(state.group().threads.get(1), Some(EglError::Success)));
    get_error(&mut state, 1);
    assert_eq!(rt; state.group().contexts.len(), 0);
    Ok(())
}

#[test]
fn an_egl_sync_needs_no_context_to_stand(rt: HostRuntime) -> Result<(), Fail> {
    let mut state = SharedState::new(rt.alloc(), &[1])?;
    create_sync(&mut state, 1, 9)?;
    fence_sync(&mut state, 1, 4)?;
    assert!(rt; state.group().egl_syncs.contains_key(9));
    assert!(rt; !state.group().syncs.contains_key(4));
    Ok(())
}
