ghost use Rattle.std.specs.Prelude.{◌≡◌, IfOk};
ghost use Rattle.gl_model.specs.GroupState.{opening_group};
ghost use Rattle.gl_model.specs.GroupEffect.{swept};

use crate::nameless::{Nameless, Unused};
use gl_model::GroupState;
use std::alloc::{AllocError, Global};
use std::marker::Model;

/// The state of a share group, all but what its objects hold.
#[derive(Drop)]
pub struct SharedState {
    pub(crate) group: GroupState,
    pub(crate) nameless: Nameless,
    pub(crate) unused: Unused,
}

impl Model for SharedState {
    ghost use Rattle.gl_model.specs.declared.state.GroupState.{GroupState as Group};
    ghost use Rattle.gl_state.specs.Order.{IsSound};

    ghost Value = { Group };

    ghost view = { λ s. s.group };

    ghost invariant = { λ s. IsSound s.group s.nameless s.unused };
}

impl SharedState {
    /// The opening state of a share group: its threads, with nothing in it.
    pub fn new(alloc: Global, threads: &[u32]) -> Result<SharedState, AllocError>
        ensures { IfOk result (λ state. state ≡ opening_group threads.now) }
    {
        let group = GroupState::new(alloc, threads)?;
        Ok(SharedState {
            group,
            nameless: Nameless::new(alloc),
            unused: Unused::new(alloc),
        })
    }

    /// The state, for `decide` and other calls that only read it.
    pub fn group(&self) -> &GroupState
        ensures { result.now ≡ self.now }
    {
        &self.group
    }

    /// Each object is named, bound or attached: a sweep finds nothing to end.
    pub fn objects_are_referred_to(&self)
        ensures { swept self.now ≡ self.now }
    {
        let _group = &self.group;
    }
}
