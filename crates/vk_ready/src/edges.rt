// Whether a node has to run before another.
ghost use Rattle.std.specs.Prelude.{◌≡◌, ◌==◌, ◌&&◌};
ghost use Rattle.vk_types.specs.Accesses.{in_common};
ghost use Rattle.vk_model.specs.Log.{touches_with as touches_so, waits_for, holds_back, chained, node_edge};
ghost use Rattle.vk_ready.specs.Ready.{edge};

use crate::WaitingNode;
use vk_types::{Access, Barrier, HandleId, Node, Touch};

/// Whether a touch is of an object, with one of these kinds.
fn touch_is_of(touch: Touch, id: HandleId, kinds: Access) -> bool
    ensures { result ≡ ((touch.id.0 == id.0) && in_common touch.access kinds) }
{
    touch.id.0 == id.0 && touch.access.meets(kinds)
}

/// Whether a node touches an object with one of these kinds.
fn touches_with(node: &Node, id: HandleId, kinds: Access) -> bool
    ensures { result ≡ touches_so node.now id.0 kinds }
{
    for i in 0..node.touch_count() {
        if touch_is_of(node.touch(i), id, kinds) {
            return true;
        }
    }
    false
}

/// Whether a barrier waits for a node before it.
fn barrier_waits(earlier: &Node, barrier: Option<Barrier>) -> bool
    ensures { result ≡ waits_for earlier.now barrier }
{
    match barrier {
        Some(later) => touches_with(earlier, later.id, later.first),
        None => false,
    }
}

/// Whether a node waits for a barrier before it.
fn barrier_holds(barrier: Option<Barrier>, later: &Node) -> bool
    ensures { result ≡ holds_back barrier later.now }
{
    match barrier {
        Some(earlier) => touches_with(later, earlier.id, earlier.second),
        None => false,
    }
}

/// Whether a barrier waits for a barrier before it.
fn barriers_chain(earlier: Option<Barrier>, later: Option<Barrier>) -> bool
    ensures { result ≡ chained earlier later }
{
    match (earlier, later) {
        (Some(a), Some(b)) => a.id.0 == b.id.0 && a.second.meets(b.first),
        _ => false,
    }
}

/// Whether a node waits for one before it, of the same queue.
fn commands_have_edge(earlier: &Node, later: &Node) -> bool
    ensures { result ≡ node_edge earlier.now later.now }
{
    let first = earlier.barrier();
    let second = later.barrier();
    barrier_waits(earlier, second) || barrier_holds(first, later) || barriers_chain(first, second)
}

/// Whether a node waits for one that was accepted before it (Vulkan 1.1, Pipeline Barriers).
pub fn has_edge(earlier: &WaitingNode, later: &WaitingNode) -> bool
    ensures { result ≡ edge earlier.now later.now }
{
    earlier.queue == later.queue && commands_have_edge(&earlier.command, &later.command)
}
