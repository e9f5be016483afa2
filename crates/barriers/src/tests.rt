use crate::Tracker;
use vk_types::{Access, Barrier, HandleId, Layout, Touch};

const READ: Access = Access::TRANSFER_READ;

const WRITE: Access = Access::TRANSFER_WRITE;

const HOST: Access = Access::HOST_READ;

fn touch(access: Access, layout: Option<Layout>) -> Touch {
    Touch {
        id: HandleId(7),
        start: 0,
        end: u64::MAX,
        access,
        layout,
    }
}

/// Of three uses of a buffer each finds the masks of the barrier that is due before it.
#[test]
fn each_use_finds_its_barrier(rt: HostRuntime) {
    for (uses, masks) in [
        (
            [WRITE, WRITE, WRITE],
            [None, Some((WRITE, WRITE)), Some((WRITE, WRITE))],
        ),
        ([WRITE, READ, READ], [None, Some((WRITE, READ)), None]),
        ([READ, READ, WRITE], [None, None, Some((READ, WRITE))]),
        (
            [WRITE, READ, WRITE],
            [None, Some((WRITE, READ)), Some((READ, WRITE))],
        ),
        ([WRITE, HOST, HOST], [None, Some((WRITE, HOST)), None]),
        (
            [WRITE, HOST, READ],
            [None, Some((WRITE, HOST)), Some((HOST, READ))],
        ),
    ] {
        let mut tracker = Tracker::new(HandleId(7), false);
        for k in 0..3usize {
            let next = touch(uses[k], None);
            let due = masks[k].map(|(first, second)| Barrier {
                id: HandleId(7),
                first,
                second,
                layouts: None,
            });
            assert_eq!(rt; tracker.before(&next), due);
            tracker.after(&next);
        }
    }
}

/// A barrier takes an image from the layout that it is in to the one that the touch needs, and once.
#[test]
fn an_image_is_in_the_layout_of_its_last_touch(rt: HostRuntime) {
    let mut tracker = Tracker::new(HandleId(7), true);
    assert_eq!(rt; tracker.layout(), Some(Layout::Undefined));
    for (access, layout, due) in [
        (
            WRITE,
            Layout::TransferDst,
            Some((Access::NONE, Layout::Undefined)),
        ),
        (
            READ,
            Layout::TransferSrc,
            Some((WRITE, Layout::TransferDst)),
        ),
        (READ, Layout::TransferSrc, None),
        (
            Access::COLOR,
            Layout::ColorAttachment,
            Some((READ, Layout::TransferSrc)),
        ),
    ] {
        let next = touch(access, Some(layout));
        let barrier = due.map(|(first, now)| Barrier {
            id: HandleId(7),
            first,
            second: access,
            layouts: Some((now, layout)),
        });
        assert_eq!(rt; tracker.before(&next), barrier);
        tracker.after(&next);
        assert_eq!(rt; tracker.layout(), Some(layout));
    }
}
