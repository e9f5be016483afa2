// Backs over devices in memory.
ghost use Rattle.std.specs.Prelude.{◌<◌};

use crate::runs::{clean, copy, queue, settle};
use back_core::{Ending, Left, Step};
use std::test::Fail;
use vk_device::{Device, Logged, Turned};
use vk_fakes::{FakeDevice, FuseDevice};
use vk_types::{HandleId, QueueSerial, SerialIndex, Stop};

#[test]
fn a_copy_is_read_on_each_device(rt: HostRuntime) -> Result<(), Fail> {
    let alloc = rt.alloc();
    for last in [false, true] {
        let device = if last {
            FakeDevice::last(alloc)
        } else {
            FakeDevice::first(alloc)
        };
        let mut out = [0u8; 4];
        match copy(alloc, device, &mut out) {
            Ok((answer, ending, device)) => {
                assert_eq!(rt; answer, Ok(()));
                assert_eq!(rt; ending, Ending::Running);
                assert_eq!(rt; out, [7, 8, 9, 10]);
                assert_eq!(rt; device.journal().len(), 7);
            }
            Err(_) => return Err(Fail::from("no memory")),
        }
    }
    Ok(())
}

#[test]
fn a_back_is_stopped_where_its_device_is_lost(rt: HostRuntime) -> Result<(), Fail> {
    let alloc = rt.alloc();
    for passes in 0..9u64 {
        let device = FuseDevice::new(FakeDevice::first(alloc), passes);
        let mut out = [0u8; 4];
        match copy(alloc, device, &mut out) {
            Ok((answer, ending, device)) => {
                if passes < 8 {
                    assert_eq!(rt; answer, Err(Stop::Lost));
                    assert_eq!(rt; ending, Ending::Stopped(Stop::Lost));
                    assert!(rt; device.journal().len() < 7);
                } else {
                    assert_eq!(rt; answer, Ok(()));
                    assert_eq!(rt; ending, Ending::Running);
                }
            }
            Err(_) => return Err(Fail::from("no memory")),
        }
    }
    Ok(())
}

// The serial of a batch.
fn serial(index: u8, number: u64) -> Option<QueueSerial>
    requires { index < 64 }
{
    Some(QueueSerial {
        index: SerialIndex::new(index),
        number,
    })
}

#[test]
fn batches_are_submitted_and_retired_in_order(rt: HostRuntime) -> Result<(), Fail> {
    let alloc = rt.alloc();
    let done = match queue(alloc, FakeDevice::first(alloc)) {
        Ok(done) => done,
        Err(_) => return Err(Fail::from("no memory")),
    };
    assert_eq!(rt; done.enqueued, Ok(()));
    assert_eq!(rt;
        done.left,
        Left {
            flushed: true,
            nodes: false,
            batches: true,
            garbage: false
        }
    );
    assert_eq!(rt;
        done.steps,
        [
            Ok(Step::Done),
            Ok(Step::Done),
            Ok(Step::Done),
            Ok(Step::Nothing)
        ]
    );
    assert_eq!(rt; done.turned, Ok(Turned::Idle));
    assert_eq!(rt;
        done.retired,
        [serial(0, 1), serial(1, 1), serial(0, 2), None]
    );
    assert_eq!(rt; done.completed, [2, 1]);
    assert_eq!(rt;
        done.endings,
        [Ending::Closing, Ending::Stopped(Stop::Memory)]
    );
    assert_eq!(rt; done.device.journal().len(), 3);
    Ok(())
}

#[test]
fn covered_garbage_is_destroyed_in_order(rt: HostRuntime) -> Result<(), Fail> {
    let alloc = rt.alloc();
    let done = match clean(alloc, FakeDevice::first(alloc)) {
        Ok(done) => done,
        Err(_) => return Err(Fail::from("no memory")),
    };
    assert_eq!(rt; done.gave, Ok(()));
    assert_eq!(rt; done.counts, [Ok(2), Ok(0)]);
    assert!(rt; done.left.garbage);
    let journal = done.device.journal();
    assert_eq!(rt; journal.len(), 5);
    assert!(rt; matches!(journal.get(3), Some(Logged::Destroyed { id: HandleId(0) })));
    assert!(rt; matches!(journal.get(4), Some(Logged::Destroyed { id: HandleId(2) })));
    Ok(())
}

#[test]
fn a_settled_run_leaves_no_object(rt: HostRuntime) -> Result<(), Fail> {
    let alloc = rt.alloc();
    let done = match settle(alloc, FakeDevice::first(alloc)) {
        Ok(done) => done,
        Err(_) => return Err(Fail::from("no memory")),
    };
    assert_eq!(rt; done.gave, Ok(()));
    assert_eq!(rt; done.settled, Ok(()));
    assert_eq!(rt; done.cleaned, Ok(3));
    assert_eq!(rt;
        done.left,
        Left {
            flushed: false,
            nodes: false,
            batches: false,
            garbage: false
        }
    );
    let journal = done.device.journal();
    let mut created = 0u8;
    let mut destroyed = 0u8;
    for entry in journal {
        match entry {
            Logged::Created { .. } => created = created.saturating_add(1),
            Logged::Destroyed { .. } => destroyed = destroyed.saturating_add(1),
            _ => {}
        }
    }
    assert_eq!(rt; created, 3);
    assert_eq!(rt; destroyed, 3);
    Ok(())
}
