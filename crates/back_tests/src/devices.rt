// Devices that take a batch and run it.
ghost use Rattle.std.specs.Prelude.{◌≡◌, ◌<◌, Some, IfOk};
ghost use Rattle.vk_types.specs.declared.ops.Op.TheVariants.{FillBuffer};
ghost use Rattle.vk_types.specs.declared.handles.Kind.TheVariants.{Buffer};
ghost use Rattle.vk_device.specs.Journal.{kind_of};
ghost use Rattle.vk_device.specs.Order.{IsOfOneQueue};
ghost use Rattle.back_tests.specs.FourNodes.{AreFourNodes};

use std::alloc::Global;
use vk_device::{Device, Turned};
use vk_fakes::{FakeDevice, FuseDevice, SoftDevice};
use vk_types::{
    Access, Barrier, Batch, HandleId, Kind, Node, Nodes, Op, Reason, SerialIndex, SignalNumbers,
    Stop,
};

// Fills four bytes of a buffer.
fn fill(id: HandleId, at: u64, byte: u8) -> Node
    requires { at < 100 }
    ensures { result ≡ (record { op = FillBuffer id at 4 byte }) }
{
    Node {
        op: Op::FillBuffer {
            dst: id,
            dst_at: at,
            size: 4,
            byte,
        },
    }
}

// Two fills, a barrier for both, and a fill that waits for the barrier.
fn four_nodes(alloc: Global, id: HandleId) -> Result<Vec<Node>, Stop>
    ensures { IfOk result (λ nodes. AreFourNodes id nodes.items) }
{
    let barrier = Node {
        op: Op::Barrier(Barrier {
            id,
            first: Access::TRANSFER_WRITE,
            second: Access::TRANSFER_WRITE,
            layouts: None,
        }),
    };
    Ok(vec![in alloc; fill(id, 0, 1), fill(id, 8, 2), barrier, fill(id, 0, 3)]?)
}

// A batch of these nodes.
fn batch_of(alloc: Global, nodes: Vec<Node>) -> Batch
    ensures one_queue { IsOfOneQueue result }
    ensures nodes { result.nodes ≡ nodes.items }
{
    Batch {
        index: SerialIndex::new(0),
        number: 1,
        queue: 0,
        waits: SignalNumbers::of(Vec::new(alloc)),
        signals: SignalNumbers::of(Vec::new(alloc)),
        nodes: Nodes::of(nodes),
        reason: Reason::Flush,
    }
}

// Submits the batch, and tells the numbers of the nodes that ran, in order, until the device is idle.
fn run<D: Device>(alloc: Global, device: &mut D, id: HandleId) -> Result<Vec<u32>, Stop>
    requires { kind_of (D.journal device.old) id.0 ≡ Some (Buffer 16) }
{
    let batch = batch_of(alloc, four_nodes(alloc, id)?);
    device.submit(&batch)?;
    let mut order = Vec::new(alloc);
    for _ in 0..5 {
        if let Turned::Ran { batch: 0, node } = device.turn()? {
            order.push(node)?;
        }
    }
    Ok(order)
}

// The same on a new buffer.
fn run_on_a_buffer<D: Device>(alloc: Global, device: &mut D) -> Result<Vec<u32>, Stop> {
    let handle = device.create(Kind::Buffer { size: 16 })?;
    let turns = run(alloc, device, handle.id());
    device.abandon(handle);
    turns
}

#[test]
fn each_device_runs_a_batch_in_its_order(rt: HostRuntime) -> Result<(), Stop> {
    let alloc = rt.alloc();
    let first = run_on_a_buffer(alloc, &mut FakeDevice::first(alloc))?;
    assert_eq!(rt; first.as_slice(), [0, 1, 2, 3].as_slice());
    let last = run_on_a_buffer(alloc, &mut FakeDevice::last(alloc))?;
    assert_eq!(rt; last.as_slice(), [1, 0, 2, 3].as_slice());
    // The first word of the seed 2 is even, and that of the seed 3 is odd.
    let even = run_on_a_buffer(alloc, &mut SoftDevice::seeded(alloc, 2))?;
    assert_eq!(rt; even.as_slice(), [0, 1, 2, 3].as_slice());
    let odd = run_on_a_buffer(alloc, &mut SoftDevice::seeded(alloc, 3))?;
    assert_eq!(rt; odd.as_slice(), [1, 0, 2, 3].as_slice());
    let mut lost = FuseDevice::new(FakeDevice::first(alloc), 2);
    assert!(rt; matches!(run_on_a_buffer(alloc, &mut lost), Err(Stop::Lost)));
    Ok(())
}
