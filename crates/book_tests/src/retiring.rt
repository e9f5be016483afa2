// The order of submission and retirement.
ghost use Rattle.std.specs.Prelude.{◌<◌, length};
ghost use Rattle.submit_queue.specs.Histories.{item_count};

use std::alloc::Global;
use std::test::Fail;
use submit_queue::SubmitQueue;
use vk_types::{Batch, HandleId, Node, Nodes, Op, QueueSerial, Reason, SerialIndex, SignalNumbers};

fn fill(dst_at: u64) -> Node {
    Node {
        op: Op::FillBuffer {
            dst: HandleId(1),
            dst_at,
            size: 4,
            byte: 7,
        },
    }
}

/// A batch of one of the first eight indexes.
fn batch(alloc: Global, index: u8, number: u64, nodes: Vec<Node>) -> Batch
    requires { length nodes.items < 1000 }
    ensures { item_count result < 1000 }
{
    Batch {
        index: SerialIndex::new(index % 8),
        number,
        queue: 0,
        waits: SignalNumbers::of(Vec::new(alloc)),
        signals: SignalNumbers::of(Vec::new(alloc)),
        nodes: Nodes::of(nodes),
        reason: Reason::Flush,
    }
}

/// Three batches on two indexes: the first has two nodes, the second one, the third none.
fn three_batches(alloc: Global) -> Result<SubmitQueue, Fail> {
    let mut queue = SubmitQueue::new(alloc);
    let first = batch(alloc, 0, 1, Vec::from_array(alloc, [fill(0), fill(4)])?);
    let second = batch(alloc, 1, 1, Vec::from_array(alloc, [fill(8)])?);
    let third = batch(alloc, 0, 2, Vec::new(alloc));
    if queue.push(first).is_err() || queue.push(second).is_err() || queue.push(third).is_err() {
        return Err(Fail::from("no memory"));
    }
    Ok(queue)
}

/// The serial of the first flushed batch, as a pair.
fn flushed(queue: &SubmitQueue) -> Option<(u8, u64)> {
    let batch = queue.first_flushed()?;
    Some((batch.index.get(), batch.number))
}

/// The serial of the batch that is retired, as a pair.
fn retired(queue: &mut SubmitQueue) -> Option<(u8, u64)> {
    let QueueSerial { index, number } = queue.retire()?;
    Some((index.get(), number))
}

/// The completed numbers of the first two indexes.
fn completed(queue: &SubmitQueue) -> (u64, u64) {
    (
        queue.completed(SerialIndex::new(0)),
        queue.completed(SerialIndex::new(1)),
    )
}

/// Batches are accepted in the order of the pushes, and retired in that order, once their nodes ran.
#[test]
fn batches_are_retired_in_order(rt: HostRuntime) -> Result<(), Fail> {
    let mut queue = three_batches(rt.alloc())?;
    assert_eq!(rt; flushed(&queue), Some((0, 1)));
    assert!(rt; !queue.nodes_left());
    assert_eq!(rt; retired(&mut queue), None);
    queue.accept();
    assert_eq!(rt; flushed(&queue), Some((1, 1)));
    queue.accept();
    assert_eq!(rt; flushed(&queue), Some((0, 2)));
    queue.accept();
    assert_eq!(rt; flushed(&queue), None);
    queue.ran(1, 0);
    assert_eq!(rt; retired(&mut queue), None);
    queue.ran(0, 1);
    assert_eq!(rt; retired(&mut queue), None);
    assert!(rt; queue.nodes_left());
    queue.ran(0, 0);
    assert!(rt; !queue.nodes_left());
    assert_eq!(rt; completed(&queue), (0, 0));
    assert_eq!(rt; retired(&mut queue), Some((0, 1)));
    assert_eq!(rt; completed(&queue), (1, 0));
    assert_eq!(rt; retired(&mut queue), Some((1, 1)));
    assert_eq!(rt; completed(&queue), (1, 1));
    assert!(rt; queue.batches_left());
    assert_eq!(rt; retired(&mut queue), Some((0, 2)));
    assert_eq!(rt; completed(&queue), (2, 1));
    assert!(rt; !queue.batches_left());
    Ok(())
}

/// A batch that was pushed after others were retired is named by its place in the order of all of them.
#[test]
fn places_count_on(rt: HostRuntime) -> Result<(), Fail> {
    let alloc = rt.alloc();
    let mut queue = SubmitQueue::new(alloc);
    for number in 1..4u64 {
        let one = batch(alloc, 5, number, Vec::from_array(alloc, [fill(0)])?);
        assert!(rt; queue.push(one).is_ok());
        queue.accept();
        queue.ran(number - 1, 0);
        assert_eq!(rt; retired(&mut queue), Some((5, number)));
    }
    assert_eq!(rt; queue.completed(SerialIndex::new(5)), 3);
    Ok(())
}
