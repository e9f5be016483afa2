use gl_sync::Syncs;
use std::test::Fail;
use vk_types::{QueueSerial, SerialIndex};

fn third_serial() -> QueueSerial {
    QueueSerial {
        index: SerialIndex::new(9),
        number: 3,
    }
}

#[test]
fn a_number_has_its_serial_until_it_is_removed(rt: HostRuntime) -> Result<(), Fail> {
    let mut syncs = Syncs::new(rt.alloc());
    syncs.insert(65535, third_serial())?;
    assert_eq!(rt; syncs.serial_of(65535), Some(third_serial()));
    assert_eq!(rt; syncs.serial_of(0), None);
    assert!(rt; !syncs.remove(0));
    assert!(rt; syncs.remove(65535));
    assert_eq!(rt; syncs.serial_of(65535), None);
    Ok(())
}
