use vk_model::conflict;
use vk_types::{HandleId, Node, Op};

fn fill(id: u64, dst_at: u64, size: u64) -> Node {
    Node {
        op: Op::FillBuffer {
            dst: HandleId(id),
            dst_at,
            size,
            byte: 7,
        },
    }
}

fn copy(from: u64, to: u64) -> Node {
    Node {
        op: Op::CopyBuffer {
            src: HandleId(from),
            src_at: 0,
            dst: HandleId(to),
            dst_at: 0,
            size: 4,
        },
    }
}

#[test]
fn ranges_that_meet_do_not_overlap(rt: HostRuntime) {
    assert!(rt; conflict(&fill(1, 0, 4), &fill(1, 3, 4)));
    assert!(rt; !conflict(&fill(1, 0, 4), &fill(1, 4, 4)));
    assert!(rt; !conflict(&fill(1, 0, 4), &fill(2, 0, 4)));
}

#[test]
fn reads_do_not_conflict(rt: HostRuntime) {
    assert!(rt; !conflict(&copy(1, 2), &copy(1, 3)));
    assert!(rt; conflict(&copy(1, 2), &copy(2, 3)));
    assert!(rt; conflict(&copy(2, 3), &copy(1, 2)));
}
