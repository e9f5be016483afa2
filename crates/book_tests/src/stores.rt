use garbage::Garbage;
use object_helper::ObjectHelper;
use std::test::Fail;
use vk_types::{Handle, HandleId, Kind, QueueSerial, SerialIndex};

/// The uses go with the store that they are of.
#[test]
fn a_new_store_has_no_uses(rt: HostRuntime) -> Result<(), Fail> {
    let alloc = rt.alloc();
    let index = SerialIndex::new(3);
    let mut buffer = ObjectHelper::new(alloc, Handle::issue(HandleId(7)), Kind::Buffer { size: 4 });
    let noted = buffer.note(QueueSerial { index, number: 5 }).is_ok();
    let before = (buffer.id(), buffer.size(), buffer.last_use(index));
    let Garbage { handle, uses } = buffer.replace(
        alloc,
        Handle::issue(HandleId(8)),
        Kind::Buffer { size: 9 },
    );
    let after = (buffer.id(), buffer.size(), buffer.last_use(index));
    let old = handle.spend();
    let Garbage {
        handle: last,
        uses: none,
    } = buffer.into_garbage();
    let new = last.spend();
    assert!(rt; noted);
    assert_eq!(rt; before, (HandleId(7), 4, 5));
    assert_eq!(rt; after, (HandleId(8), 9, 0));
    assert_eq!(rt; (old, uses.number_of(index)), (HandleId(7), 5));
    assert_eq!(rt; (new, none.number_of(index)), (HandleId(8), 0));
    Ok(())
}
