// The waiting nodes that touch an object.
ghost use Rattle.std.specs.Prelude.{◌≡◌, ◌<◌, ◌≤◌, ◌+◌, ◌%◌, ◌⊎◌, ℕ, suc, Bool, true, false, List, [], ◌∷◌, ◌++◌, length, slice_set, Option, Some, None};
ghost use Rattle.std.specs.Vec.{vec_len, vec_capacity};
ghost use Rattle.vk_types.specs.Touches.{barrier_of};
ghost use Rattle.vk_model.specs.Log.{touches_object};
ghost use Rattle.vk_ready.specs.declared.nodes.WaitingNode.{WaitingNode};
ghost use Rattle.vk_ready.specs.Slots.{edge_from, in_slot, IsFreeOf, AreGone};
ghost use Rattle.vk_ready.specs.Filing.{IsIn, IsPassed, link_in, AreLinked, IsFiled, AreAllFiled, AreFiled};

use crate::WaitingNode;
use crate::edges::has_edge;
use vk_types::Node;

/// The buckets of the one or two objects of a slot's node, and for each the last earlier slot of that bucket, and the last earlier
/// one with a barrier. A link is the number of a slot, plus 1, and 0 where there is none.
#[derive(Clone, Copy, Debug)]
pub(crate) struct Filed {
    pub(crate) first: usize,
    pub(crate) first_before: usize,
    pub(crate) first_barrier: usize,
    pub(crate) second: usize,
    pub(crate) second_before: usize,
    pub(crate) second_barrier: usize,
}

/// Objects are spread over buckets by their numbers. For each bucket the last slot of it, and the last one with a barrier; and for
/// each slot where it is filed.
#[derive(Debug, Drop)]
pub(crate) struct Links {
    pub(crate) heads: Vec<usize>,
    pub(crate) barriers: Vec<usize>,
    pub(crate) filed: Vec<Filed>,
}

/// The bucket of an object.
fn bucket_of(id: u64, count: usize) -> usize
    requires { 0 < count }
    ensures is { result ≡ id % count }
    ensures inside { result < count }
{
    (id % count as u64) as usize
}

/// The link of a slot in one of its buckets, to any slot or to a barrier.
fn link_of(filed: Filed, bucket: usize, only_barriers: bool) -> usize
    ensures { result ≡ link_in only_barriers filed bucket }
{
    let here = filed.first == bucket;
    if only_barriers {
        if here {
            filed.first_barrier
        } else {
            filed.second_barrier
        }
    } else if here {
        filed.first_before
    } else {
        filed.second_before
    }
}

/// The one or two objects that a node touches.
fn objects_of(node: &Node) -> (u64, u64)
    ensures { (id : ℕ) → touches_object node.now id ≡ true → (id ≡ result.0) ⊎ (id ≡ result.1) }
{
    let last = node.touch_count() - 1;
    (node.touch(0).id.0, node.touch(last).id.0)
}

/// Names a slot as the last one of its buckets.
fn name(heads: &mut Vec<usize>, filed: Filed, slot: usize)
    requires first { filed.first < length heads.old.items }
    requires second { filed.second < length heads.old.items }
    requires small { slot < usize.MAX }
    ensures items { heads.new.items ≡ slice_set (slice_set heads.old.items filed.first (slot + 1)) filed.second (slot + 1) }
{
    heads[filed.first] = slot + 1;
    heads[filed.second] = slot + 1;
}

/// Files the next slot, by the objects of its node.
pub(crate) fn file(links: &mut Links, node: &WaitingNode)
    requires room { vec_len links.old.filed < vec_capacity links.old.filed }
    requires some { 0 < length links.old.heads.items }
    requires barriers { length links.old.barriers.items ≡ length links.old.heads.items }
    ensures filed { (slots : List (Option WaitingNode)) → AreFiled slots links.old.heads.items links.old.barriers.items links.old.filed.items →
        AreFiled (slots ++ Some node.now ∷ []) links.new.heads.items links.new.barriers.items links.new.filed.items }
    ensures heads { length links.new.heads.items ≡ length links.old.heads.items }
    ensures size { length links.new.filed.items ≡ length links.old.filed.items + 1 }
    ensures capacity { vec_capacity links.new.filed ≡ vec_capacity links.old.filed }
{
    let slot = links.filed.len();
    let count = links.heads.len();
    let (one, other) = objects_of(&node.command);
    let first = bucket_of(one, count);
    let second = bucket_of(other, count);
    let filed = Filed {
        first,
        first_before: links.heads[first],
        first_barrier: links.barriers[first],
        second,
        second_before: links.heads[second],
        second_barrier: links.barriers[second],
    };
    links.filed.push_reserved(filed);
    name(&mut links.heads, filed, slot);
    if node.command.barrier().is_some() {
        name(&mut links.barriers, filed, slot);
    }
}

/// Whether the node of a slot has an edge to a later one.
fn slot_has_edge(slot: &Option<WaitingNode>, later: &WaitingNode) -> bool
    ensures { result ≡ edge_from slot.now later.now }
{
    match slot {
        Some(earlier) => has_edge(earlier, later),
        None => false,
    }
}

/// The number of the last slot of a bucket before the end whose node has an edge to the later one, plus 1. Gives 0 where there
/// is none. The search begins at a link, and looks at all slots or at the barriers alone.
fn last_in_bucket(
    filed: &[Filed],
    slots: &[Option<WaitingNode>],
    first: usize,
    link: usize,
    bucket: usize,
    end: usize,
    later: &WaitingNode,
    only_barriers: bool,
) -> usize
    requires inside { end ≤ length slots.now }
    requires fits { length slots.now ≤ length filed.now }
    requires gone { AreGone slots.now first }
    requires linked { AreLinked only_barriers slots.now filed.now }
    requires plain { only_barriers ≡ true → barrier_of later.now.command ≡ None }
    requires link_fits { link ≤ length filed.now }
    requires has { (k : ℕ) → link ≡ suc k → IsIn filed.now k bucket }
    requires none { (k : ℕ) → link ≤ k → k < end → IsIn filed.now k bucket → IsPassed only_barriers (in_slot slots.now k) }
    ensures inside { result ≤ end }
    ensures free { (k : ℕ) → result ≤ k → k < end → IsIn filed.now k bucket → edge_from (in_slot slots.now k) later.now ≡ false }
    ensures waits { (p : ℕ) → result ≡ suc p → edge_from (in_slot slots.now p) later.now ≡ true }
{
    let mut at = link;
    while at > first {
        let slot = at - 1;
        if slot < end && slot_has_edge(&slots[slot], later) {
            return at;
        }
        at = link_of(filed[slot], bucket, only_barriers);
    }
    0
}

/// The number of the last slot before the end whose node has an edge to that of the later slot, plus 1. Gives 0 where there is
/// none. Only slots that share an object are looked at, and only barriers where the later node is none.
pub(crate) fn last_holder(
    links: &Links,
    slots: &[Option<WaitingNode>],
    first: usize,
    slot: usize,
    end: usize,
    later: &WaitingNode,
) -> usize
    requires inside { end ≤ length slots.now }
    requires before { end ≤ slot }
    requires fits { length slots.now ≤ length links.now.filed.items }
    requires slot_fits { slot < length links.now.filed.items }
    requires gone { AreGone slots.now first }
    requires linked { (only_barriers : Bool) → AreLinked only_barriers slots.now links.now.filed.items }
    requires all { AreAllFiled slots.now links.now.filed.items (length links.now.heads.items) }
    requires filed { IsFiled links.now.filed.items (length links.now.heads.items) slot later.now }
    ensures inside { result ≤ end }
    ensures free { IsFreeOf slots.now result end later.now }
    ensures waits { (p : ℕ) → result ≡ suc p → edge_from (in_slot slots.now p) later.now ≡ true }
{
    let filed = links.filed[slot];
    let only_barriers = later.command.barrier().is_none();
    let one = last_in_bucket(
        &links.filed,
        slots,
        first,
        link_of(filed, filed.first, only_barriers),
        filed.first,
        end,
        later,
        only_barriers,
    );
    let two = last_in_bucket(
        &links.filed,
        slots,
        first,
        link_of(filed, filed.second, only_barriers),
        filed.second,
        end,
        later,
        only_barriers,
    );
    one.max(two)
}
