ghost use Rattle.std.specs.Prelude.{◌≡◌, [], IfOk};
ghost use Rattle.gl_model.specs.GroupState.{opening_threads};

use crate::counted::Counted;
use crate::state::{GroupState, Names};
use formats::EglError;
use std::alloc::{AllocError, Global};
use tables::Table;

/// The names of a kind of which there is no object.
fn no_names(alloc: Global) -> Names
    ensures { result ≡ record { objects = []; made = 0 } }
{
    Names {
        objects: Table::new(alloc),
        made: 0,
    }
}

/// The threads, with no error of EGL.
fn opening_threads(alloc: Global, threads: &[u32]) -> Result<Table<EglError>, AllocError>
    ensures { IfOk result (λ table. table ≡ opening_threads threads.now) }
{
    let mut table = Table::new(alloc);
    for thread in threads {
        table.insert(*thread, EglError::Success)?;
    }
    Ok(table)
}

impl GroupState {
    ghost use Rattle.gl_model.specs.GroupState.{opening_group};

    /// The opening state of a share group: its threads, with nothing in it.
    pub fn new(alloc: Global, threads: &[u32]) -> Result<GroupState, AllocError>
        ensures { IfOk result (λ group. group ≡ opening_group threads.now) }
    {
        Ok(GroupState {
            buffer_names: no_names(alloc),
            texture_names: no_names(alloc),
            renderbuffer_names: no_names(alloc),
            buffers: Counted::new(alloc),
            textures: Counted::new(alloc),
            renderbuffers: Counted::new(alloc),
            contexts: Table::new(alloc),
            threads: opening_threads(alloc, threads)?,
            syncs: Table::new(alloc),
            egl_syncs: Table::new(alloc),
        })
    }
}
