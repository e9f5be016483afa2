// A share group's state and objects, and how its calls find what they name.
ghost use Rattle.std.specs.Prelude.{◌≡◌, ℕ, ◌≤◌, Some, IfSome, IfNone};
ghost use Rattle.gl_model.specs.declared.state.Context.{Context};
ghost use Rattle.gl_model.specs.declared.objects.BufferFacts.{BufferFacts};
ghost use Rattle.gl_model.specs.declared.objects.Mapped.{Mapped};
ghost use Rattle.gl_model.specs.Bindings.{current_context};
ghost use Rattle.front_model.specs.Wanted.{IsBound};
ghost use Rattle.front_core.specs.Share.{current_index};

use front_moves::Core;
use gl_calls::BufferTarget;
use gl_model::BufferFacts;
use gl_state::{SharedState, current_number};
use std::alloc::Global;
use tables::Table;
use vk_types::SerialIndex;

/// A share group: the objects that it has on the device, its state without what the objects hold, and for each context by its
/// number the index of its batches.
pub(crate) struct Share {
    pub(crate) alloc: Global,
    pub(crate) core: Core,
    pub(crate) state: SharedState,
    pub(crate) serials: Table<SerialIndex>,
}

impl Share {
    /// The buffer that is bound to a target on a thread, with its facts.
    pub(crate) fn bound(&self, thread: u32, target: BufferTarget) -> Option<(u32, BufferFacts)>
        ensures some { IfSome result (λ r. (context : Context) → current_context self.now.state thread ≡ Some context → IsBound self.now.state context target r.0 r.1) }
        ensures none { IfNone result ((context : Context) (b : ℕ) (facts : BufferFacts) → current_context self.now.state thread ≡ Some context → IsBound self.now.state context target b facts → ⊥) }
    {
        let group = self.state.group();
        let Some(context) = group.current(thread) else {
            return None;
        };
        let Some(buffer) = context.buffer_binding(target) else {
            return None;
        };
        match group.buffers.get(buffer) {
            Some(facts) => Some((buffer, *facts)),
            None => None,
        }
    }

    /// The index of the context that is current on a thread.
    pub(crate) fn index(&self, thread: u32) -> Option<SerialIndex>
        ensures { result ≡ current_index self.now.state self.now.serials thread }
    {
        let number = current_number(&self.state.group().contexts, thread)?;
        self.serials.get(number).copied()
    }

    /// The mapped buffer that is bound to a target on a thread, and where in it its map begins.
    pub(crate) fn mapped(&self, thread: u32, target: BufferTarget) -> Option<(u32, u64)>
        ensures some { IfSome result (λ r. (context : Context) → current_context self.now.state thread ≡ Some context →
            (facts : BufferFacts) × (mapped : Mapped) × IsBound self.now.state context target r.0 facts × (facts.map ≡ Some mapped) × (mapped.at ≡ r.1) × (facts.size ≤ 18446744073709551615)) }
        ensures none { IfNone result ((context : Context) (b : ℕ) (facts : BufferFacts) (mapped : Mapped) → current_context self.now.state thread ≡ Some context →
            IsBound self.now.state context target b facts → facts.map ≡ Some mapped → ⊥) }
    {
        let (buffer, facts) = self.bound(thread, target)?;
        let _size = facts.size;
        match facts.map {
            Some(mapped) => Some((buffer, mapped.at)),
            None => None,
        }
    }
}
