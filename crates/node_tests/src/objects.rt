use std::test::Fail;
use vk_objects::Objects;
use vk_types::{HandleId, Kind};

/// With ample memory an object is made.
#[test]
fn objects_come_and_go(rt: HostRuntime) -> Result<(), Fail> {
    let mut objects = Objects::new(rt.alloc());
    objects.insert(HandleId(7), Kind::Buffer { size: 3 })?;
    assert_eq!(rt; objects.kind(HandleId(7)), Some(Kind::Buffer { size: 3 }));
    assert_eq!(rt; objects.bytes(HandleId(7)), Some([0, 0, 0].as_slice()));
    objects.remove(HandleId(7));
    assert!(rt; objects.kind(HandleId(7)).is_none());
    Ok(())
}
