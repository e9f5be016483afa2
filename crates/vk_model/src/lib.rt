//! What a log of the device's commands means, in every order that its dependencies permit.
//!
//! `specs/Log.antt` says which items of a log conflict, which wait for which, and which orders are
//! permitted. `specs/Meaning.antt` says what the items do to the contents of the objects. The functions
//! here without a body are the laws about them.
#![tactic(auto)]

ghost use Rattle.std.specs.Prelude.{◌≡◌, ◌<◌, ◌*◌, true, false, ◌||◌};
ghost use Rattle.vk_types.specs.declared.handles.HandleId.{HandleId};
ghost use Rattle.vk_types.specs.declared.ops.Op.TheVariants.{CopyBuffer};
ghost use Rattle.vk_types.specs.declared.ops.Node.{Node};
ghost use Rattle.vk_model.specs.Log.{node_range, clash, conflict as conflicts};

mod agreement_laws;
mod growth_laws;
mod node_laws;
mod order_laws;
mod queue_laws;
mod swap_laws;

pub use agreement_laws::{
    agreement_is_kept, device_bytes_agree, node_is_executed, only_touched_kinds_count,
    places_agree_as_lists,
};
pub use growth_laws::{sound_log_begins_soundly, sound_log_grows, trackers_keep_logs_sound};
pub use node_laws::{copy_is_exact, image_writes_are_exact};
pub use order_laws::{
    conflict_is_mutual, each_item_finds_log_order, order_goes_on, permitted_orders,
    ready_item_finds_log_order, settled_object_is_as_in_log_order, whole_order_is_log_order,
};
pub use queue_laws::{objects_depend_on_their_own_items, queues_are_in_order};
pub use swap_laws::{
    lists_change_places, neighbours_commute, neighbours_stay_sound, writes_come_first,
};
use vk_types::{Access, Node, Touch};

/// Whether the node writes what the touch covers. A barrier does, since it may discard the contents.
fn writes(node: &Node, touch: &Touch) -> bool
    ensures { result ≡ (node_range node.now touch.now).written }
{
    touch.access.meets(Access::TRANSFER_WRITE)
        || touch.access.meets(Access::COLOR_WRITE)
        || node.barrier().is_some()
}

/// Whether two touches, of two nodes, have a place in common that one of them writes.
fn touches_clash(a: &Node, s: &Touch, b: &Node, t: &Touch) -> bool
    ensures { result ≡ clash (node_range a.now s.now) (node_range b.now t.now) }
{
    s.id.0 == t.id.0 && s.start.max(t.start) < s.end.min(t.end) && (writes(a, s) || writes(b, t))
}

/// Whether two nodes touch overlapping ranges of one object, and one of the two writes.
pub fn conflict(a: &Node, b: &Node) -> bool
    ensures { result ≡ conflicts a.now b.now }
{
    for i in 0..a.touch_count() {
        let s = a.touch(i);
        for j in 0..b.touch_count() {
            let t = b.touch(j);
            if touches_clash(a, &s, b, &t) {
                return true;
            }
        }
    }
    false
}
