//! What the front of a share group is without where it lies in memory, and when it stands on what its group sees of the
//! back: the steps of which its moves are made keep that, and change what its objects hold as they say.
#![tactic(auto)]

mod constants_laws;
mod fresh_laws;
mod learning_laws;
mod node_laws;
mod object;
mod quiet_laws;
mod state_laws;
mod step_laws;
mod view_laws;

pub use constants_laws::no_constants_are_recorded;
pub use fresh_laws::fresh_handles_show;
pub use learning_laws::fronts_learn;
pub use node_laws::due_nodes_show;
pub use object::{Object, StoredKind};
pub use quiet_laws::quiet_objects_show;
pub use state_laws::{
    accepted_calls_are_in_range, calls_keep_agreement, calls_keep_stores,
    numbers_not_given_are_free, reads_through_a_map_answer,
};
pub use step_laws::{quiet_objects_stay, steps_hold, steps_may};
pub use view_laws::{due_nodes_may_be_recorded, front_steps_show, link_steps_show};
