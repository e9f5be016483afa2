use resource_use::ResourceUse;
use std::test::Fail;
use vk_types::{QueueSerial, SerialIndex};

/// A serial of one of the first eight indexes.
fn serial(index: u8, number: u64) -> QueueSerial {
    QueueSerial {
        index: SerialIndex::new(index % 8),
        number,
    }
}

/// Each index keeps its greatest number.
#[test]
fn the_greatest_number_is_kept(rt: HostRuntime) -> Result<(), Fail> {
    let mut uses = ResourceUse::new(rt.alloc());
    uses.note(serial(0, 2))?;
    uses.note(serial(1, 1))?;
    uses.note(serial(0, 1))?;
    assert_eq!(rt; uses.number_of(SerialIndex::new(0)), 2);
    assert_eq!(rt; uses.number_of(SerialIndex::new(1)), 1);
    assert_eq!(rt; uses.number_of(SerialIndex::new(2)), 0);
    Ok(())
}

/// More indexes than stand inline are merged, and covered once each number was read.
#[test]
fn merged_uses_are_covered_together(rt: HostRuntime) -> Result<(), Fail> {
    let alloc = rt.alloc();
    let mut others = ResourceUse::new(alloc);
    for index in 0..6u8 {
        others.note(serial(index, 7))?;
    }
    let mut uses = ResourceUse::new(alloc);
    uses.note(serial(7, 9))?;
    uses.merge(&others)?;
    assert_eq!(rt; uses.number_of(SerialIndex::new(5)), 7);
    assert_eq!(rt; uses.number_of(SerialIndex::new(7)), 9);
    let mut read = [7; 64];
    assert!(rt; others.covered_by(&read));
    assert!(rt; !uses.covered_by(&read));
    read[7] = 9;
    let copy = uses.copy()?;
    assert!(rt; copy.covered_by(&read));
    Ok(())
}
