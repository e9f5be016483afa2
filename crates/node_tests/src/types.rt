use std::test::Fail;
use vk_types::{
    Access, Batch, Clear, Clears, HandleId, Load, Node, Nodes, Op, Reason, Rect, SerialIndex,
    SignalNumbers,
};

fn rect(w: u32, h: u32) -> Rect {
    Rect { x: 0, y: 0, w, h }
}

fn rows(expand: bool, w: u32, h: u32) -> Node {
    Node {
        op: Op::ImageToBuffer {
            src: HandleId(1),
            rect: rect(w, h),
            dst: HandleId(2),
            dst_at: 100,
            stride: 50,
            texel_size: 2,
            expand,
        },
    }
}

/// The last byte of the last row ends what rows of a buffer touch.
#[test]
fn rows_end_at_their_last_byte(rt: HostRuntime) {
    for (expand, w, h, end) in [
        (false, 3, 1, 106),
        (false, 3, 4, 256),
        (true, 3, 4, 298),
        (false, 0, 4, 100),
        (true, 3, 0, 100),
    ] {
        let node = rows(expand, w, h);
        assert_eq!(rt; node.touch_count(), 2);
        let touch = node.touch(1);
        assert_eq!(rt; touch.start, 100);
        assert_eq!(rt; touch.end, end);
    }
}

/// With ample memory each copy is made.
#[test]
fn a_batch_is_copied(rt: HostRuntime) -> Result<(), Fail> {
    let alloc = rt.alloc();
    let clear = Clear {
        rect: rect(2, 3),
        texel: [7; 16],
    };
    let part = Node {
        op: Op::PassPart {
            pass: 1,
            point: 2,
            image: HandleId(5),
            load: Load::DontCare,
            keep: true,
            clears: Clears::of(Vec::from_slice(alloc, &[clear, clear])?),
        },
    };
    let mut nodes = Vec::new(alloc);
    nodes.push(part)?;
    let batch = Batch {
        index: SerialIndex::new(63),
        number: 4,
        queue: 1,
        waits: SignalNumbers::of(Vec::from_slice(alloc, &[1, 2])?),
        signals: SignalNumbers::of(Vec::from_slice(alloc, &[3])?),
        nodes: Nodes::of(nodes),
        reason: Reason::Cross,
    };
    let copy = batch.copy(alloc)?;
    assert_eq!(rt; copy.waits.as_slice(), [1, 2].as_slice());
    assert_eq!(rt; copy.signals.into_vec().as_slice(), [3].as_slice());
    assert_eq!(rt; copy.nodes.as_slice().len(), 1);
    let Op::PassPart { image, clears, .. } = &copy.nodes.as_slice()[0].op else {
        return Err(Fail::from("another operation"));
    };
    assert_eq!(rt; *image, HandleId(5));
    assert_eq!(rt; clears.as_slice(), [clear, clear].as_slice());
    Ok(())
}

/// The sets of kinds.
#[test]
fn sets_of_kinds(rt: HostRuntime) {
    let both = Access::TRANSFER_READ.joined(Access::HOST_READ);
    assert!(rt; both.meets(Access::HOST_READ));
    assert!(rt; !both.meets(Access::COLOR));
    assert!(rt; Access::ALL.has(both));
    assert!(rt; !both.has(Access::ALL));
}
