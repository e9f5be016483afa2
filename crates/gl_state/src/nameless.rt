// Objects without a name, and those that stop existing.
ghost use Rattle.std.specs.Prelude.{◌≡◌, [], ◌+◌, ◌≤◌, IfOk, vec_capacity, length};
ghost use Rattle.gl_model.specs.declared.state.Names.{Names};
ghost use Rattle.gl_state.specs.Ended.{HasRoom};
ghost use Rattle.gl_state.specs.Order.{FitNames};

use std::alloc::{AllocError, Global};
use tables::Table;
use unused_names::UnusedNames;

/// The objects of each kind that exist and have no name. A binding or an attachment refers to each of them.
#[derive(Drop)]
pub struct Nameless {
    pub buffers: Table<()>,
    pub textures: Table<()>,
    pub renderbuffers: Table<()>,
}

/// Which names of each kind of object are not in use.
#[derive(Drop)]
pub struct Unused {
    pub buffers: UnusedNames,
    pub textures: UnusedNames,
    pub renderbuffers: UnusedNames,
}

impl Unused {
    /// Nothing is known of the names yet. This takes no memory.
    pub fn new(alloc: Global) -> Unused
        ensures { (buffers textures renderbuffers : Names) → FitNames buffers textures renderbuffers result }
    {
        Unused {
            buffers: UnusedNames::new(alloc),
            textures: UnusedNames::new(alloc),
            renderbuffers: UnusedNames::new(alloc),
        }
    }
}

/// Objects that stopped existing, each by its number among those of its kind that were ever made, in rising order.
#[derive(Debug, Drop)]
pub struct Ended {
    pub buffers: Vec<u32>,
    pub textures: Vec<u32>,
    pub renderbuffers: Vec<u32>,
}

/// An empty list with room for the keys of a table and some more.
fn list_for(alloc: Global, table: &Table<()>, more: usize) -> Result<Vec<u32>, AllocError>
    ensures empty { IfOk result (λ list. list.items ≡ []) }
    ensures room { IfOk result (λ list. length table.now + more ≤ vec_capacity list) }
{
    match table.len().checked_add(more) {
        Some(room) => Vec::with_capacity(alloc, room),
        None => Err(AllocError),
    }
}

impl Nameless {
    /// No objects. This takes no memory.
    pub fn new(alloc: Global) -> Nameless
        ensures { result ≡ record { buffers = []; textures = []; renderbuffers = [] } }
    {
        Nameless {
            buffers: Table::new(alloc),
            textures: Table::new(alloc),
            renderbuffers: Table::new(alloc),
        }
    }

    /// Empty lists with room for all these objects, and for some more of each kind.
    pub fn room(&self, alloc: Global, more: usize) -> Result<Ended, AllocError>
        ensures { IfOk result (λ ended. HasRoom ended self.now more) }
    {
        Ok(Ended {
            buffers: list_for(alloc, &self.buffers, more)?,
            textures: list_for(alloc, &self.textures, more)?,
            renderbuffers: list_for(alloc, &self.renderbuffers, more)?,
        })
    }
}
