// The waiting nodes of a device.
ghost use Rattle.std.specs.Prelude.{◌≡◌, ◌==◌, ◌+◌, ◌<◌, ◌≤◌, ◌↔◌, ℕ, [], ◌∷◌, ◌++◌, length, slice_get, Some, None, false, OnOk, IfOk};
ghost use Rattle.std.specs.List.{remove};
ghost use Rattle.vk_ready.specs.declared.nodes.WaitingNode.{WaitingNode};
ghost use Rattle.vk_ready.specs.Ready.{edge, ready_places, ready_place};
ghost use Rattle.vk_ready.specs.Slots.{waiting_in, in_slot, AreGone};

use crate::WaitingNode;
use crate::links::{Links, file, last_holder};
use crate::ranks::Ranks;
use crate::watch::{Watch, release, watch_next};
use std::alloc::{AllocError, Global};
use std::marker::Model;
use std::mem;

/// Nodes that were accepted and have not run, in the order of acceptance. Contracts see the list of them and the room,
/// which is how many more can be pushed without memory. Each node stands in a slot, which is empty once it ran. A node that
/// is not ready names the last earlier one with an edge to it, and is looked at again only when that one ran. Such a one is
/// looked for among the nodes that touch the same objects, and for a node that is no barrier among their barriers alone.
#[derive(Debug, Drop)]
pub struct WaitingNodes {
    alloc: Global,
    slots: Vec<Option<WaitingNode>>,
    watch: Watch,
    links: Links,
    first: usize,
    count: usize,
}

impl Model for WaitingNodes {
    ghost use Rattle.std.specs.Prelude.{◌≡◌, ◌-◌, ◌≤◌, length, min};
    ghost use Rattle.std.specs.Vec.{vec_len, vec_capacity};
    ghost use Rattle.vk_ready.specs.Ready.{NodesAndRoom};
    ghost use Rattle.vk_ready.specs.Slots.{waiting_in, AreGone, AreStarts, IsWatched};
    ghost use Rattle.vk_ready.specs.Filing.{AreFiled};

    ghost Value = { NodesAndRoom };

    ghost view = { λ w. record {
      nodes = waiting_in w.slots.items;
      room =
          min (min (min (vec_capacity w.slots) (vec_capacity w.watch.holders)) (min (vec_capacity w.watch.ends) w.watch.ready.room))
          (min (vec_capacity w.watch.starts) (min (vec_capacity w.links.filed) (length w.links.heads.items))) - vec_len w.slots;
    } };

    ghost invariant = { λ w. IsWatched w.slots.items w.watch.holders.items w.watch.ends.items w.watch.ready.slots 0 0 0 × AreGone w.slots.items w.first × (w.count ≡ length (waiting_in w.slots.items)) × (vec_len w.slots ≤ w.watch.ready.room) × (w.first ≤ vec_len w.slots)
        × AreStarts w.watch.holders.items w.watch.starts.items × AreFiled w.slots.items w.links.heads.items w.links.barriers.items w.links.filed.items
        × (vec_len w.slots ≤ vec_len w.links.heads) };
}

/// Pushes what waits in slots.
fn refill(waiting: &mut WaitingNodes, slots: Vec<Option<WaitingNode>>)
    requires { length (waiting_in slots.items) ≤ waiting.old.room }
    ensures nodes { waiting.new.nodes ≡ waiting.old.nodes ++ waiting_in slots.items }
    ensures room { waiting.new.room + length (waiting_in slots.items) ≡ waiting.old.room }
{
    for slot in slots {
        match slot {
            Some(node) => waiting.push(node),
            None => {}
        }
    }
}

/// The first slot from here on that has a node, or the end where none has.
fn first_waiting(slots: &[Option<WaitingNode>], from: usize) -> usize
    requires gone { AreGone slots.now from }
    requires inside { from ≤ length slots.now }
    ensures gone { AreGone slots.now result }
    ensures inside { result ≤ length slots.now }
{
    for k in from..slots.len() {
        if slots[k].is_some() {
            return k;
        }
    }
    slots.len()
}

impl WaitingNodes {
    /// No node. This takes no memory.
    pub fn new(alloc: Global) -> WaitingNodes
        ensures { result.nodes ≡ [] }
    {
        WaitingNodes {
            alloc,
            slots: Vec::new(alloc),
            watch: Watch {
                holders: Vec::new(alloc),
                starts: Vec::new(alloc),
                ends: Vec::new(alloc),
                ready: Ranks::new(alloc),
            },
            links: Links {
                heads: Vec::new(alloc),
                barriers: Vec::new(alloc),
                filed: Vec::new(alloc),
            },
            first: 0,
            count: 0,
        }
    }

    /// No node, with room for so many.
    fn with_room(alloc: Global, room: usize) -> Result<WaitingNodes, AllocError>
        ensures { IfOk result (λ waiting. (waiting.nodes ≡ []) × (waiting.room ≡ room)) }
    {
        Ok(WaitingNodes {
            alloc,
            slots: Vec::with_capacity(alloc, room)?,
            watch: Watch {
                holders: Vec::with_capacity(alloc, room)?,
                starts: Vec::with_capacity(alloc, room)?,
                ends: Vec::with_capacity(alloc, room)?,
                ready: Ranks::with_room(alloc, room)?,
            },
            links: Links {
                heads: vec![in alloc; 0; room]?,
                barriers: vec![in alloc; 0; room]?,
                filed: Vec::with_capacity(alloc, room)?,
            },
            first: 0,
            count: 0,
        })
    }

    /// How many more nodes can be pushed without memory.
    fn room(&self) -> usize
        ensures { result ≡ self.now.room }
    {
        let nodes = self.slots.capacity().min(self.watch.holders.capacity());
        let more = self.watch.ends.capacity().min(self.watch.ready.room());
        let links = self.links.filed.capacity().min(self.links.heads.len());
        let others = self.watch.starts.capacity().min(links);
        nodes.min(more).min(others) - self.slots.len()
    }

    /// Makes room for so many more nodes, without the slots of those that ran. For want of memory nothing changes.
    pub fn reserve(&mut self, more: usize) -> Result<(), AllocError>
        ensures room { OnOk result (more ≤ self.new.room) }
        ensures kept { self.old.room ≤ self.new.room }
        ensures nodes { self.new.nodes ≡ self.old.nodes }
    {
        if more <= self.room() {
            return Ok(());
        }
        let room = more.saturating_add(self.count).saturating_mul(2);
        let mut fresh = WaitingNodes::with_room(self.alloc, room)?;
        let slots = mem::replace(&mut self.slots, Vec::new(self.alloc));
        refill(&mut fresh, slots);
        *self = fresh;
        Ok(())
    }

    /// Puts a node behind the others. This takes no memory.
    pub fn push(&mut self, node: WaitingNode)
        requires { 0 < self.old.room }
        ensures nodes { self.new.nodes ≡ self.old.nodes ++ node ∷ [] }
        ensures room { self.new.room + 1 ≡ self.old.room }
    {
        let slot = self.slots.len();
        file(&mut self.links, &node);
        let slots = self.slots.as_slice();
        let holder = last_holder(&self.links, slots, self.first, slot, slot, &node);
        watch_next(&mut self.watch, slots, holder, &node);
        self.slots.push_reserved(Some(node));
        self.count += 1;
    }

    /// How many nodes wait.
    pub fn len(&self) -> usize
        ensures { result ≡ length self.now.nodes }
    {
        self.count
    }

    pub fn is_empty(&self) -> bool
        ensures { result ≡ (length self.now.nodes == 0) }
    {
        self.count == 0
    }

    /// How many nodes are ready: at least one where a node is left. This looks at no node.
    pub fn ready(&self) -> usize
        ensures count { result ≡ length (ready_places self.now.nodes) }
        ensures some { (0 < result) ↔ (0 < length self.now.nodes) }
    {
        self.watch.ready.len()
    }

    /// Takes out the ready node of this number, counted from 0 in the order of acceptance. The others keep their order.
    /// This takes no memory, and looks at the nodes that waited for the one taken.
    pub fn take(&mut self, number: usize) -> WaitingNode
        requires { number < length (ready_places self.old.nodes) }
        ensures node { slice_get self.old.nodes (ready_place self.old.nodes number) ≡ Some result }
        ensures others { self.new.nodes ≡ remove self.old.nodes (ready_place self.old.nodes number) }
        ensures ready { (j : ℕ) (x : WaitingNode) → j < ready_place self.old.nodes number → slice_get self.old.nodes j ≡ Some x → edge x result ≡ false }
        ensures room { self.new.room ≡ self.old.room }
    {
        let slot = self.watch.ready.withdraw(number);
        let taken = match mem::replace(&mut self.slots[slot], None) {
            Some(node) => node,
            None => unreachable!(),
        };
        self.first = first_waiting(self.slots.as_slice(), self.first);
        let end = self.watch.ends[slot].min(self.slots.len());
        release(
            &mut self.watch,
            &self.links,
            self.slots.as_slice(),
            self.first,
            slot,
            end,
        );
        self.count -= 1;
        taken
    }
}
