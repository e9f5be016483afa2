// The orders in which waiting nodes may run.
use crate::{WaitingNode, WaitingNodes};
use std::alloc::{AllocError, Global};
use std::test::Fail;
use vk_types::{Access, Barrier, HandleId, Node, Op};

fn copy(src: u64, dst: u64) -> Op {
    Op::CopyBuffer {
        src: HandleId(src),
        src_at: 0,
        dst: HandleId(dst),
        dst_at: 0,
        size: 4,
    }
}

fn barrier(id: u64, first: Access, second: Access) -> Op {
    Op::Barrier(Barrier {
        id: HandleId(id),
        first,
        second,
        layouts: None,
    })
}

/// Puts a node behind the others. Its place in the batch is the number of nodes before it that wait.
fn accept(waiting: &mut WaitingNodes, queue: u8, op: Op) -> Result<(), AllocError> {
    waiting.reserve(1)?;
    let node = WaitingNode {
        batch: 7,
        node: waiting.len().min(1000) as u32,
        queue,
        command: Node { op },
    };
    waiting.push(node);
    Ok(())
}

/// A copy to buffer 2, barriers of buffers 2 and 3, a copy from 2 to 4, and a copy of the other queue.
fn five(alloc: Global) -> Result<WaitingNodes, AllocError> {
    let mut waiting = WaitingNodes::new(alloc);
    let (read, write) = (Access::TRANSFER_READ, Access::TRANSFER_WRITE);
    accept(&mut waiting, 0, copy(1, 2))?;
    accept(&mut waiting, 0, barrier(2, write, read))?;
    accept(&mut waiting, 0, barrier(3, write, read))?;
    accept(&mut waiting, 0, copy(2, 4))?;
    accept(&mut waiting, 1, copy(2, 4))?;
    Ok(waiting)
}

/// The places of the nodes in the order in which they run, where the device takes the first or the last ready one.
fn order(alloc: Global, last: bool) -> Result<Vec<u32>, AllocError> {
    let mut waiting = five(alloc)?;
    let mut order = Vec::new(alloc);
    for _ in 0..5 {
        let ready = waiting.ready();
        if ready > 0 {
            let taken = waiting.take(if last { ready - 1 } else { 0 });
            order.push(taken.node)?;
        }
    }
    Ok(order)
}

/// A node runs behind those that it waits for, and else as the device likes.
#[test]
fn nodes_run_as_they_become_ready(rt: HostRuntime) -> Result<(), Fail> {
    let alloc = rt.alloc();
    let waiting = five(alloc)?;
    assert_eq!(rt; waiting.len(), 5);
    assert!(rt; !waiting.is_empty());
    assert_eq!(rt; waiting.ready(), 3);
    assert_eq!(rt; order(alloc, false)?.as_slice(), [0, 1, 2, 3, 4].as_slice());
    assert_eq!(rt; order(alloc, true)?.as_slice(), [4, 2, 0, 1, 3].as_slice());
    Ok(())
}

/// What is taken is what was put, and the rest stays.
#[test]
fn a_node_comes_out_as_it_went_in(rt: HostRuntime) -> Result<(), Fail> {
    let mut waiting = WaitingNodes::new(rt.alloc());
    assert!(rt; waiting.is_empty());
    assert_eq!(rt; waiting.ready(), 0);
    accept(&mut waiting, 1, copy(5, 6))?;
    assert_eq!(rt; waiting.ready(), 1);
    let taken = waiting.take(0);
    assert_eq!(rt; taken.batch, 7);
    assert_eq!(rt; taken.queue, 1);
    assert_eq!(rt; taken.command.touch_count(), 2);
    assert_eq!(rt; waiting.len(), 0);
    Ok(())
}

/// A barrier of buffer 0, and so many copies from there, each to a buffer of its own.
fn readers(alloc: Global, count: u64) -> Result<WaitingNodes, AllocError> {
    let mut waiting = WaitingNodes::new(alloc);
    let (read, write) = (Access::TRANSFER_READ, Access::TRANSFER_WRITE);
    accept(&mut waiting, 0, barrier(0, write, read))?;
    for k in 0..count {
        accept(&mut waiting, 0, copy(0, k.saturating_add(1)))?;
    }
    Ok(waiting)
}

/// Takes the middle one of the ready nodes so often, and gives the buffer that the last one writes.
fn take_middles(waiting: &mut WaitingNodes, count: usize) -> u64 {
    let mut last = 0;
    for _ in 0..count {
        let ready = waiting.ready();
        if ready > 0 {
            let taken = waiting.take(ready / 2);
            last = taken.command.touch(taken.command.touch_count() - 1).id.0;
        }
    }
    last
}

/// Many nodes wait for one barrier, and are ready at once behind it.
#[test]
fn many_nodes_are_ready_behind_a_barrier(rt: HostRuntime) -> Result<(), Fail> {
    let mut waiting = readers(rt.alloc(), 20_000)?;
    assert_eq!(rt; waiting.ready(), 1);
    let _ = waiting.take(0);
    assert_eq!(rt; waiting.ready(), 20_000);
    assert_eq!(rt; take_middles(&mut waiting, 1), 10_001);
    assert_eq!(rt; take_middles(&mut waiting, 1), 10_000);
    assert_eq!(rt; take_middles(&mut waiting, 9_998), 5_001);
    assert_eq!(rt; waiting.ready(), 10_000);
    Ok(())
}
