// What was recorded in the contexts of a group and not handed to the back.
ghost use Rattle.std.specs.Prelude.{◌≡◌, ℕ, ◌<◌, [], ◌∷◌, ◌++◌, length, slice_set, slice_index_or, OnOk, replicate};
ghost use Rattle.front_moves.specs.Fences.{has_barrier};

use std::alloc::{AllocError, Global};
use std::collections::BTreeMap;
use std::marker::Model;
use std::mem;
use vk_types::{HandleId, Node};

/// The nodes that are pending in one index, in order, and the objects of which there is a barrier among them. Contracts see the nodes.
#[derive(Drop)]
struct Recorded {
    nodes: Vec<Node>,
    fenced: BTreeMap<u64, ()>,
}

impl Model for Recorded {
    ghost use Rattle.std.specs.Prelude.{List, ◌≡◌, ℕ};
    ghost use Rattle.vk_types.specs.declared.ops.Node.{Node};
    ghost use Rattle.tables.specs.Table.{has};
    ghost use Rattle.front_moves.specs.Fences.{has_barrier};

    ghost Value = { List Node };

    ghost view = { λ r. r.nodes.items };

    ghost invariant = { λ r. (id : ℕ) → has_barrier r.nodes.items id ≡ has id r.fenced.entries };
}

impl Recorded {
    /// Nothing. This takes no memory.
    fn new(alloc: Global) -> Recorded
        ensures { result ≡ [] }
    {
        Recorded {
            nodes: Vec::new(alloc),
            fenced: BTreeMap::new(alloc),
        }
    }

    /// How many nodes there are.
    fn len(&self) -> usize
        ensures { result ≡ length self.now }
    {
        self.nodes.len()
    }

    /// Whether there is a barrier of an object.
    fn has_barrier(&self, id: HandleId) -> bool
        ensures { result ≡ has_barrier self.now id.0 }
    {
        self.fenced.contains_key(&id.0)
    }

    /// Adds a node.
    fn push(&mut self, node: Node) -> Result<(), AllocError>
        ensures { OnOk result (self.new ≡ self.old ++ node ∷ []) }
    {
        self.nodes.reserve(1)?;
        if let Some(barrier) = node.barrier() {
            if self.fenced.insert(barrier.id.0, ()).is_err() {
                return Err(AllocError);
            }
        }
        self.nodes.push_reserved(node);
        Ok(())
    }

    /// The nodes.
    fn into_nodes(self) -> Vec<Node>
        ensures { result.items ≡ self }
    {
        let Recorded { nodes, fenced: _ } = self;
        nodes
    }
}

/// The nodes that are pending in each of the eight indexes of a group, by their places. Contracts see the eight lists.
#[derive(Drop)]
pub(crate) struct Pending {
    alloc: Global,
    lists: [Recorded; 8],
}

impl Model for Pending {
    ghost use Rattle.std.specs.Prelude.{List};
    ghost use Rattle.vk_types.specs.declared.ops.Node.{Node};

    ghost Value = { List (List Node) };

    ghost view = { λ p. p.lists };
}

impl Pending {
    /// Nothing. This takes no memory.
    pub(crate) fn new(alloc: Global) -> Pending
        ensures { result ≡ replicate 8 [] }
    {
        Pending {
            alloc,
            lists: [
                Recorded::new(alloc),
                Recorded::new(alloc),
                Recorded::new(alloc),
                Recorded::new(alloc),
                Recorded::new(alloc),
                Recorded::new(alloc),
                Recorded::new(alloc),
                Recorded::new(alloc),
            ],
        }
    }

    /// How many nodes are pending at a place.
    pub(crate) fn len(&self, place: usize) -> usize
        requires { place < 8 }
        ensures { result ≡ length (slice_index_or self.now place []) }
    {
        self.lists[place].len()
    }

    /// Whether there is a barrier of an object among the nodes that are pending at a place.
    pub(crate) fn has_barrier(&self, place: usize, id: HandleId) -> bool
        requires { place < 8 }
        ensures { result ≡ has_barrier (slice_index_or self.now place []) id.0 }
    {
        self.lists[place].has_barrier(id)
    }

    /// Adds a node at a place. After want of memory the front is stopped.
    pub(crate) fn push(&mut self, place: usize, node: Node) -> Result<(), AllocError>
        requires { place < 8 }
        ensures ok { OnOk result (self.new ≡ slice_set self.old place (slice_index_or self.old place [] ++ node ∷ [])) }
        ensures eight { length self.old ≡ 8 }
    {
        let mut recorded = mem::replace(&mut self.lists[place], Recorded::new(self.alloc));
        let pushed = recorded.push(node);
        self.lists[place] = recorded;
        pushed
    }

    /// Takes the nodes at a place out.
    pub(crate) fn take(&mut self, place: usize) -> Vec<Node>
        requires { place < 8 }
        ensures taken { result.items ≡ slice_index_or self.old place [] }
        ensures left { self.new ≡ slice_set self.old place [] }
    {
        mem::replace(&mut self.lists[place], Recorded::new(self.alloc)).into_nodes()
    }
}
