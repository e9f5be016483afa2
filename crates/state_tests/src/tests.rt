use gl_calls::{BindTarget, BufferTarget, Call, ObjectKind, Reply};
use gl_errors::{Decision, decide};
use gl_state::{Applied, Ended, SharedState, apply};
use std::alloc::{AllocError, Global};
use std::test::Fail;

/// Applies a call where it is accepted on a declared thread.
fn step(
    alloc: Global,
    state: &mut SharedState,
    thread: u32,
    call: &Call,
) -> Result<Option<Applied>, AllocError> {
    if !state.group().threads.contains_key(thread) {
        return Ok(None);
    }
    match decide(state.group(), thread, call) {
        Decision::Accepted => Ok(Some(apply(alloc, state, thread, call)?)),
        Decision::Refused(_) => Ok(None),
    }
}

/// The buffers that end with a call, and none where it is refused.
fn ended(
    alloc: Global,
    state: &mut SharedState,
    thread: u32,
    call: &Call,
) -> Result<Vec<u32>, AllocError> {
    match step(alloc, state, thread, call)? {
        Some(applied) => {
            let Applied { ended, .. } = applied;
            let Ended { buffers, .. } = ended;
            Ok(buffers)
        }
        None => Ok(Vec::new(alloc)),
    }
}

/// The names that a call generates.
fn named(alloc: Global, state: &mut SharedState, call: &Call) -> Result<Vec<u32>, AllocError> {
    match step(alloc, state, 1, call)? {
        Some(applied) => {
            let Applied { reply, .. } = applied;
            match reply {
                Some(Reply::Names(names)) => Ok(names.into_vec()),
                _ => Ok(Vec::new(alloc)),
            }
        }
        None => Ok(Vec::new(alloc)),
    }
}

const GEN: Call = Call::Gen {
    kind: ObjectKind::Buffer,
    count: 2,
};

fn bind(name: u32) -> Call {
    Call::Bind {
        target: BindTarget::Buffer(BufferTarget::CopyRead),
        name,
    }
}

fn delete(name: u32) -> Call {
    Call::Delete {
        kind: ObjectKind::Buffer,
        name,
    }
}

#[test]
fn names_and_buffers_come_and_go(rt: HostRuntime) -> Result<(), Fail> {
    let alloc = rt.alloc();
    let mut state = SharedState::new(alloc, &[1, 2])?;
    for number in 1..3u16 {
        step(alloc, &mut state, 1, &Call::CreateContext { number })?;
    }
    step(alloc, &mut state, 1, &Call::MakeCurrent { number: 1 })?;
    step(alloc, &mut state, 2, &Call::MakeCurrent { number: 2 })?;
    assert_eq!(rt;
        named(alloc, &mut state, &GEN)?.as_slice(),
        [1, 2].as_slice()
    );
    step(alloc, &mut state, 1, &delete(1))?;
    assert_eq!(rt;
        named(alloc, &mut state, &GEN)?.as_slice(),
        [1, 3].as_slice()
    );
    // A buffer that is deleted while another context has it bound lives on until that binding goes.
    step(alloc, &mut state, 1, &bind(2))?;
    step(alloc, &mut state, 2, &bind(2))?;
    assert_eq!(rt; ended(alloc, &mut state, 1, &delete(2))?.len(), 0);
    assert_eq!(rt;
        ended(alloc, &mut state, 2, &bind(0))?.as_slice(),
        [0].as_slice()
    );
    // A context that ends releases what it has bound.
    step(alloc, &mut state, 2, &bind(7))?;
    assert_eq!(rt; ended(alloc, &mut state, 1, &delete(7))?.len(), 0);
    step(alloc, &mut state, 1, &Call::DestroyContext { number: 2 })?;
    let last = step(alloc, &mut state, 2, &Call::MakeCurrent { number: 0 })?;
    match last {
        Some(applied) => {
            assert_eq!(rt; applied.ended.buffers.as_slice(), [1].as_slice());
            assert_eq!(rt; applied.switched.ended, Some(2));
        }
        None => assert!(rt; false),
    }
    assert_eq!(rt; state.group().buffers.len(), 0);
    Ok(())
}
