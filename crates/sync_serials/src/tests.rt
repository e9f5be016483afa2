ghost use Rattle.std.specs.Prelude.{◌≡◌};

use crate::{SyncName, SyncSerials};
use std::test::Fail;
use vk_types::{QueueSerial, SerialIndex};

fn serial(number: u64) -> QueueSerial
    ensures { result ≡ record { index = 9; number = number } }
{
    QueueSerial {
        index: SerialIndex::new(9),
        number,
    }
}

/// Syncs of the two kinds have numbers of their own; the newest of an index stays once its sync is deleted.
#[test]
fn serials_by_name(rt: HostRuntime) -> Result<(), Fail> {
    let mut syncs = SyncSerials::new(rt.alloc(), 1);
    assert_eq!(rt; syncs.newest(SerialIndex::new(9)), 0);
    syncs.insert(SyncName::Gl(1), serial(1))?;
    syncs.insert(SyncName::Egl(1), serial(2))?;
    assert_eq!(rt; syncs.serial_of(SyncName::Gl(1)), Some(serial(1)));
    assert_eq!(rt; syncs.serial_of(SyncName::Egl(1)), Some(serial(2)));
    assert_eq!(rt; syncs.newest(SerialIndex::new(9)), 2);
    assert_eq!(rt; syncs.newest(SerialIndex::new(8)), 0);
    syncs.remove(SyncName::Egl(1));
    assert_eq!(rt; syncs.serial_of(SyncName::Egl(1)), None);
    assert_eq!(rt; syncs.serial_of(SyncName::Gl(1)), Some(serial(1)));
    assert_eq!(rt; syncs.newest(SerialIndex::new(9)), 2);
    Ok(())
}
