use gl_objects::NameTable;
use std::test::Fail;

#[test]
fn the_lowest_unused_names_are_generated(rt: HostRuntime) -> Result<(), Fail> {
    let mut table = NameTable::new(rt.alloc());
    table.gen_(rt.alloc(), 3)?;
    table.delete(2);
    let names = table.gen_(rt.alloc(), 2)?;
    assert_eq!(rt; names.as_slice(), [2, 4].as_slice());
    assert!(rt; table.lookup(2).is_none());
    assert!(rt; table.name_at(0).is_none());
    Ok(())
}

#[test]
fn an_object_lives_while_it_is_held(rt: HostRuntime) -> Result<(), Fail> {
    let mut table = NameTable::new(rt.alloc());
    let first = table.bind_new(7)?;
    assert_eq!(rt; table.lookup(7), Some(first));
    table.hold(first);
    assert_eq!(rt; table.delete(7), Some(first));
    assert!(rt; !table.unreferenced(first));
    table.release(first);
    assert!(rt; table.unreferenced(first));
    let second = table.bind_new(7)?;
    assert!(rt; second != first);
    assert_eq!(rt; second.key(), first.key());
    assert_eq!(rt; table.name_at(0), Some(7));
    Ok(())
}
