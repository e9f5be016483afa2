// Garbage and the cleanups that take it.
use garbage::{Garbage, GarbageList};
use resource_use::ResourceUse;
use std::alloc::AllocError;
use vk_types::{Handle, HandleId, QueueSerial, SerialIndex};

// Notes a use of one of the first eight indexes.
fn note(uses: &mut ResourceUse, index: u8, number: u64) -> Result<(), AllocError> {
    uses.note(QueueSerial {
        index: SerialIndex::new(index % 8),
        number,
    })
}

// Gives a handle away, unless memory runs out.
fn give(list: &mut GarbageList, id: u64, uses: ResourceUse) -> bool {
    if list.reserve_one().is_err() {
        return false;
    }
    list.put(Garbage {
        handle: Handle::issue(HandleId(id)),
        uses,
    });
    true
}

// The object that a step of a cleanup takes out at a place or behind it, or 0.
fn taken(list: &mut GarbageList, from: usize, read: &[u64; 64]) -> u64 {
    match list.take_covered(from, read) {
        Some((_, item)) => {
            let Garbage { handle, uses: _ } = item;
            handle.spend().0
        }
        None => 0,
    }
}

// Numbers that were read: of the indexes 0 and 1.
fn read(zero: u64, one: u64) -> [u64; 64] {
    let mut read = [0; 64];
    read[0] = zero;
    read[1] = one;
    read
}

// Object 1 was last used by number 1 of index 0; object 2 by number 2 of index 0 and by number 1 of index 1; object 3 by
// none.
#[test]
fn each_cleanup_takes_what_is_covered(rt: HostRuntime) {
    let alloc = rt.alloc();
    let mut list = GarbageList::new(alloc);
    let mut first = ResourceUse::new(alloc);
    assert!(rt; note(&mut first, 0, 1).is_ok());
    assert!(rt; give(&mut list, 1, first));
    let mut second = ResourceUse::new(alloc);
    assert!(rt; note(&mut second, 0, 2).is_ok());
    assert!(rt; note(&mut second, 1, 1).is_ok());
    assert!(rt; give(&mut list, 2, second));
    assert!(rt; give(&mut list, 3, ResourceUse::new(alloc)));
    assert_eq!(rt; taken(&mut list, 0, &read(0, 0)), 3);
    assert_eq!(rt; taken(&mut list, 2, &read(0, 0)), 0);
    assert_eq!(rt; taken(&mut list, 0, &read(2, 0)), 1);
    assert_eq!(rt; taken(&mut list, 0, &read(2, 0)), 0);
    assert_eq!(rt; taken(&mut list, 0, &read(1, 1)), 0);
    assert!(rt; !list.is_empty());
    assert_eq!(rt; taken(&mut list, 0, &read(2, 1)), 2);
    assert!(rt; list.is_empty());
    list.destroy_empty();
}
