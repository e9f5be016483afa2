use formats::{EglError, Format};
use gl_model::{Counted, GroupState, ImageInfo};
use std::test::Fail;

#[test]
fn a_group_opens_with_its_threads(rt: HostRuntime) -> Result<(), Fail> {
    let group = GroupState::new(rt.alloc(), &[0, 2])?;
    assert_eq!(rt; group.threads.len(), 2);
    assert_eq!(rt; group.threads.get(2).copied(), Some(EglError::Success));
    assert!(rt; group.current(0).is_none());
    assert!(rt; !group.passes_limit(0, 67_108_864));
    assert!(rt; group.passes_limit(0, 67_108_865));
    Ok(())
}

#[test]
fn a_table_keeps_the_sum_of_its_bytes(rt: HostRuntime) -> Result<(), Fail> {
    let image = ImageInfo {
        format: Format::Rgba32ui,
        width: 3,
        height: 5,
    };
    let mut images = Counted::new(rt.alloc());
    images.insert(7, Some(image))?;
    images.insert(2, None)?;
    assert_eq!(rt; images.total(), 240);
    if images.contains_key(2) {
        images.replace(2, Some(image));
    }
    assert_eq!(rt; images.total(), 480);
    images.remove(7);
    assert_eq!(rt; images.total(), 240);
    assert_eq!(rt; images.len(), 1);
    assert_eq!(rt; images.get(2).copied(), Some(Some(image)));
    Ok(())
}
