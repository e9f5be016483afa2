// Lists of clears, nodes and signals, which contracts see as lists.
ghost use Rattle.std.specs.Prelude.{◌≡◌, IfOk};

use crate::{Clear, Node};
use std::alloc::{AllocError, Global};
use std::marker::Model;

/// Clears in order. Contracts see their list.
#[derive(Debug, Drop)]
pub struct Clears {
    list: Vec<Clear>,
}

impl Model for Clears {
    ghost use Rattle.std.specs.Prelude.{List};
    ghost use Rattle.vk_types.specs.declared.regions.Clear.{Clear};

    ghost Value = { List Clear };

    ghost view = { λ c. c.list.items };
}

impl Clears {
    /// The clears of a vector. This takes no memory.
    pub fn of(list: Vec<Clear>) -> Clears
        ensures { result ≡ list.items }
    {
        Clears { list }
    }

    /// The vector again. This takes no memory.
    pub fn into_vec(self) -> Vec<Clear>
        ensures { result.items ≡ self }
    {
        let Clears { list } = self;
        list
    }

    pub fn as_slice(&self) -> &[Clear]
        ensures { result.now ≡ self.now }
    {
        self.list.as_slice()
    }

    pub fn copy(&self, alloc: Global) -> Result<Clears, AllocError>
        ensures { IfOk result (λ copy. copy ≡ self.now) }
    {
        Ok(Clears {
            list: Vec::from_slice(alloc, self.list.as_slice())?,
        })
    }
}

/// Numbers of signals in order. Contracts see their list.
#[derive(Debug, Drop)]
pub struct SignalNumbers {
    list: Vec<u64>,
}

impl Model for SignalNumbers {
    ghost use Rattle.std.specs.Prelude.{List, ℕ};

    ghost Value = { List ℕ };

    ghost view = { λ n. n.list.items };
}

impl SignalNumbers {
    /// The numbers of a vector. This takes no memory.
    pub fn of(list: Vec<u64>) -> SignalNumbers
        ensures { result ≡ list.items }
    {
        SignalNumbers { list }
    }

    /// The vector again. This takes no memory.
    pub fn into_vec(self) -> Vec<u64>
        ensures { result.items ≡ self }
    {
        let SignalNumbers { list } = self;
        list
    }

    pub fn as_slice(&self) -> &[u64]
        ensures { result.now ≡ self.now }
    {
        self.list.as_slice()
    }

    pub fn copy(&self, alloc: Global) -> Result<SignalNumbers, AllocError>
        ensures { IfOk result (λ copy. copy ≡ self.now) }
    {
        Ok(SignalNumbers {
            list: Vec::from_slice(alloc, self.list.as_slice())?,
        })
    }
}

/// Nodes in order. Contracts see their list.
#[derive(Debug, Drop)]
pub struct Nodes {
    list: Vec<Node>,
}

impl Model for Nodes {
    ghost use Rattle.std.specs.Prelude.{List};
    ghost use Rattle.vk_types.specs.declared.ops.Node.{Node};

    ghost Value = { List Node };

    ghost view = { λ n. n.list.items };
}

impl Nodes {
    /// The nodes of a vector. This takes no memory.
    pub fn of(list: Vec<Node>) -> Nodes
        ensures { result ≡ list.items }
    {
        Nodes { list }
    }

    /// The vector again. This takes no memory.
    pub fn into_vec(self) -> Vec<Node>
        ensures { result.items ≡ self }
    {
        let Nodes { list } = self;
        list
    }

    pub fn as_slice(&self) -> &[Node]
        ensures { result.now ≡ self.now }
    {
        self.list.as_slice()
    }

    pub fn copy(&self, alloc: Global) -> Result<Nodes, AllocError>
        ensures { IfOk result (λ copy. copy ≡ self.now) }
    {
        let mut list = Vec::with_capacity(alloc, self.list.len())?;
        for node in self.list.as_slice() {
            list.push(node.copy(alloc)?)?;
        }
        Ok(Nodes { list })
    }
}
