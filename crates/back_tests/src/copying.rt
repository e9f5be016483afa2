// A copy from one buffer to another, through a link.
ghost use Rattle.std.specs.Prelude.{◌≡◌, true, length, IfOk};
ghost use Rattle.vk_device.specs.Order.{IsOfOneQueue};
ghost use Rattle.back_core.specs.Link.{IsNew};
ghost use Rattle.back_tests.specs.Copying.{HasTwo, copy_nodes};

use back_core::BackLink;
use std::alloc::Global;
use vk_types::{
    Access, Barrier, Batch, HandleId, Kind, Node, Nodes, Op, QueueSerial, Reason, SerialIndex,
    SignalNumbers, Stop,
};

// The copy, and a barrier that makes the bytes known to the host.
fn nodes(alloc: Global, src: HandleId, dst: HandleId) -> Result<Vec<Node>, Stop>
    ensures { IfOk result (λ nodes. nodes.items ≡ copy_nodes src dst) }
{
    let copy = Node {
        op: Op::CopyBuffer {
            src,
            src_at: 0,
            dst,
            dst_at: 0,
            size: 4,
        },
    };
    let hand_over = Node {
        op: Op::Barrier(Barrier {
            id: dst,
            first: Access::TRANSFER_WRITE,
            second: Access::HOST_READ,
            layouts: None,
        }),
    };
    Ok(vec![in alloc; copy, hand_over]?)
}

/// A batch of one of the first two indexes.
pub(crate) fn batch_of(alloc: Global, index: SerialIndex, number: u64, nodes: Vec<Node>) -> Batch
    ensures one_queue { IsOfOneQueue result }
    ensures index { result.index ≡ index }
    ensures number { result.number ≡ number }
    ensures nodes { result.nodes ≡ nodes.items }
{
    Batch {
        index,
        number,
        queue: 0,
        waits: SignalNumbers::of(Vec::new(alloc)),
        signals: SignalNumbers::of(Vec::new(alloc)),
        nodes: Nodes::of(nodes),
        reason: Reason::Flush,
    }
}

// Writes four bytes into the first buffer, has them copied to the second, and reads them there.
fn copy_bytes<L: BackLink>(
    alloc: Global,
    link: &mut L,
    src: HandleId,
    dst: HandleId,
    out: &mut [u8],
) -> Result<(), Stop>
    requires two { HasTwo (L.state link.old) src.0 dst.0 }
    requires size { length out.old ≡ 4 }
    ensures src { (L.state link.new).held src.0 ≡ true }
    ensures dst { (L.state link.new).held dst.0 ≡ true }
{
    let nodes = nodes(alloc, src, dst)?;
    let index = SerialIndex::new(0);
    link.write_host(src, 0, &[7, 8, 9, 10])?;
    match link.enqueue(batch_of(alloc, index, 1, nodes)) {
        Ok(()) => {}
        Err(_) => return Err(Stop::Memory),
    }
    link.wait_for(QueueSerial { index, number: 1 })?;
    link.read_host(dst, 0, out)
}

/// The same with two new buffers, which are let go.
pub(crate) fn copy_between<L: BackLink>(
    alloc: Global,
    link: &mut L,
    out: &mut [u8],
) -> Result<(), Stop>
    requires new { IsNew (L.state link.old) 0 }
    requires size { length out.old ≡ 4 }
{
    let src = link.create(Kind::Buffer { size: 4 })?;
    let dst = match link.create(Kind::Buffer { size: 4 }) {
        Ok(dst) => dst,
        Err(stop) => {
            link.abandon(src);
            return Err(stop);
        }
    };
    let answer = copy_bytes(alloc, link, src.id(), dst.id(), out);
    link.abandon(src);
    link.abandon(dst);
    answer
}
