use egl_contexts::{Contexts, CreateStop};
use formats::EglError;
use std::test::Fail;
use vk_types::SerialIndex;

#[test]
fn contexts_stand_in_rising_order_of_their_numbers(rt: HostRuntime) -> Result<(), Fail> {
    let mut contexts = Contexts::new(rt.alloc(), &[4])?;
    assert!(rt; contexts.create(7, SerialIndex::new(3)).is_ok());
    assert!(rt; contexts.create(2, SerialIndex::new(4)).is_ok());
    assert!(rt;
        matches!(
            contexts.create(7, SerialIndex::new(5)),
            Err(CreateStop::Taken)
        )
    );
    assert!(rt; matches!(contexts.context_at(0), Some(c) if c.number == 2));
    assert!(rt; matches!(contexts.context_at(1), Some(c) if c.number == 7));
    assert!(rt; contexts.context_at(2).is_none());
    Ok(())
}

#[test]
fn a_marked_context_ends_when_its_thread_lets_go(rt: HostRuntime) -> Result<(), Fail> {
    let mut contexts = Contexts::new(rt.alloc(), &[1, 2])?;
    assert!(rt; contexts.create(7, SerialIndex::new(3)).is_ok());
    assert!(rt; matches!(contexts.make_current(1, 7), Ok(s) if s.replaced.is_none()));
    assert!(rt; matches!(contexts.make_current(2, 7), Err(EglError::BadAccess)));
    assert!(rt; matches!(contexts.destroy(7), Ok(None)));
    assert!(rt; matches!(contexts.destroy(7), Err(EglError::BadContext)));
    assert!(rt; matches!(contexts.make_current(1, 0), Ok(s) if s.ended.is_some()));
    assert!(rt; contexts.context_at(0).is_none());
    Ok(())
}
