// For which earlier node each waiting node waits.
ghost use Rattle.std.specs.Prelude.{◌≡◌, ◌≤◌, ◌<◌, ◌+◌, ◌⊎◌, ◌↔◌, ℕ, suc, true, [], ◌∷◌, ◌++◌, length, slice_index, Some, None};
ghost use Rattle.std.specs.Vec.{vec_len, vec_capacity};
ghost use Rattle.vk_ready.specs.Filing.{AreFiled};
ghost use Rattle.vk_ready.specs.Slots.{edge_from, in_slot, IsFreeOf, AreGone, Has, Rises, AreStarts, IsWatched};

use crate::WaitingNode;
use crate::links::{Links, last_holder};
use crate::ranks::Ranks;

/// For each slot the last earlier one whose node has an edge to its node, between which slots those lie that are held by it,
/// and which slots have none such. A node looks for another one only when that one ran.
#[derive(Debug, Drop)]
pub(crate) struct Watch {
    pub(crate) holders: Vec<usize>,
    pub(crate) starts: Vec<usize>,
    pub(crate) ends: Vec<usize>,
    pub(crate) ready: Ranks,
}

/// Lets a slot name another, up to which the slots that wait for its node are found.
fn raise(ends: &mut Vec<usize>, holder: usize, slot: usize)
    requires inside { holder < length ends.old.items }
    requires fits { slot < length ends.old.items }
    ensures seen { slot < slice_index ends.new.items holder }
    ensures risen { (p : ℕ) → slice_index ends.old.items p ≤ slice_index ends.new.items p }
    ensures size { length ends.new.items ≡ length ends.old.items }
    ensures capacity { vec_capacity ends.new ≡ vec_capacity ends.old }
{
    if ends[holder] <= slot {
        ends[holder] = slot + 1;
    }
}

/// Lets a slot name another, from which on the slots that wait for its node are found.
fn lower(starts: &mut Vec<usize>, holder: usize, slot: usize)
    requires inside { holder < length starts.old.items }
    ensures seen { slice_index starts.new.items holder ≤ slot }
    ensures lowered { (p : ℕ) → slice_index starts.new.items p ≤ slice_index starts.old.items p }
    ensures size { length starts.new.items ≡ length starts.old.items }
    ensures capacity { vec_capacity starts.new ≡ vec_capacity starts.old }
{
    if starts[holder] > slot {
        starts[holder] = slot;
    }
}

/// Lets the node that is to stand in the next slot wait for its holder, the last earlier slot with an edge to it, plus 1.
pub(crate) fn watch_next(
    watch: &mut Watch,
    slots: &[Option<WaitingNode>],
    holder: usize,
    node: &WaitingNode,
)
    requires inside { holder ≤ length slots.now }
    requires free { IsFreeOf slots.now holder (length slots.now) node.now }
    requires waits { (p : ℕ) → holder ≡ suc p → edge_from (in_slot slots.now p) node.now ≡ true }
    requires kept { IsWatched slots.now watch.old.holders.items watch.old.ends.items watch.old.ready.slots 0 0 0 }
    requires starts { AreStarts watch.old.holders.items watch.old.starts.items }
    requires holders { length slots.now < vec_capacity watch.old.holders }
    requires starts_capacity { length slots.now < vec_capacity watch.old.starts }
    requires ends { length slots.now < vec_capacity watch.old.ends }
    requires ready { length slots.now < watch.old.ready.room }
    ensures kept { IsWatched (slots.now ++ Some node.now ∷ []) watch.new.holders.items watch.new.ends.items watch.new.ready.slots 0 0 0 }
    ensures starts { AreStarts watch.new.holders.items watch.new.starts.items }
    ensures holders { vec_capacity watch.new.holders ≡ vec_capacity watch.old.holders }
    ensures starts_capacity { vec_capacity watch.new.starts ≡ vec_capacity watch.old.starts }
    ensures ends { vec_capacity watch.new.ends ≡ vec_capacity watch.old.ends }
    ensures ready { watch.new.ready.room ≡ watch.old.ready.room }
{
    let next = slots.len();
    watch.holders.push_reserved(holder);
    watch.starts.push_reserved(usize::MAX);
    watch.ends.push_reserved(0);
    if holder == 0 {
        watch.ready.offer(next);
    } else {
        raise(&mut watch.ends, holder - 1, next);
        lower(&mut watch.starts, holder - 1, next);
    }
}

/// Lets a slot whose node waited for the one that ran look for another, and be ready where there is none.
fn settle(
    watch: &mut Watch,
    links: &Links,
    slots: &[Option<WaitingNode>],
    first: usize,
    gone: usize,
    slot: usize,
    end: usize,
)
    requires filed { AreFiled slots.now links.now.heads.items links.now.barriers.items links.now.filed.items }
    requires gone { AreGone slots.now first }
    requires empty { in_slot slots.now gone ≡ None }
    requires after { gone < slot }
    requires inside { slot < length slots.now }
    requires kept { IsWatched slots.now watch.old.holders.items watch.old.ends.items watch.old.ready.slots gone slot end }
    requires starts { AreStarts watch.old.holders.items watch.old.starts.items }
    requires room { length slots.now ≤ watch.old.ready.room }
    ensures kept { IsWatched slots.now watch.new.holders.items watch.new.ends.items watch.new.ready.slots gone (slot + 1) end }
    ensures starts { AreStarts watch.new.holders.items watch.new.starts.items }
    ensures holders { vec_capacity watch.new.holders ≡ vec_capacity watch.old.holders }
    ensures starts_capacity { vec_capacity watch.new.starts ≡ vec_capacity watch.old.starts }
    ensures ends { vec_capacity watch.new.ends ≡ vec_capacity watch.old.ends }
    ensures ready { watch.new.ready.room ≡ watch.old.ready.room }
{
    if watch.holders[slot] != gone + 1 {
        return;
    }
    let holder = match &slots[slot] {
        Some(later) => last_holder(links, slots, first, slot, gone, later),
        None => unreachable!(),
    };
    watch.holders[slot] = holder;
    if holder == 0 {
        watch.ready.offer(slot);
    } else {
        raise(&mut watch.ends, holder - 1, slot);
        lower(&mut watch.starts, holder - 1, slot);
    }
}

/// Lets all that waited for the node that ran look for another.
pub(crate) fn release(
    watch: &mut Watch,
    links: &Links,
    slots: &[Option<WaitingNode>],
    first: usize,
    gone: usize,
    end: usize,
)
    requires filed { AreFiled slots.now links.now.heads.items links.now.barriers.items links.now.filed.items }
    requires gone { AreGone slots.now first }
    requires empty { in_slot slots.now gone ≡ None }
    requires inside { end ≤ length slots.now }
    requires few { gone < length slots.now }
    requires kept { IsWatched slots.now watch.old.holders.items watch.old.ends.items watch.old.ready.slots gone (gone + 1) end }
    requires starts { AreStarts watch.old.holders.items watch.old.starts.items }
    requires room { length slots.now ≤ watch.old.ready.room }
    ensures kept { IsWatched slots.now watch.new.holders.items watch.new.ends.items watch.new.ready.slots 0 0 0 }
    ensures starts { AreStarts watch.new.holders.items watch.new.starts.items }
    ensures holders { vec_capacity watch.new.holders ≡ vec_capacity watch.old.holders }
    ensures starts_capacity { vec_capacity watch.new.starts ≡ vec_capacity watch.old.starts }
    ensures ends { vec_capacity watch.new.ends ≡ vec_capacity watch.old.ends }
    ensures ready { watch.new.ready.room ≡ watch.old.ready.room }
{
    let start = watch.starts[gone].max(gone + 1);
    for slot in start..end {
        settle(watch, links, slots, first, gone, slot, end);
    }
}
