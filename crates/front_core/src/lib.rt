//! The front of one share group: a call comes in and a reply goes out.
#![tactic(auto)]

mod answering;
mod answers_come_to;
mod calls_come_to;
mod context_calls;
mod copy_calls;
mod copy_calls_come_to;
mod data_calls;
mod data_calls_come_to;
mod fence_calls;
mod front;
mod histories_come_to;
mod laws;
mod map_calls;
mod share;
mod state_calls;
mod state_calls_come_to;
mod sync_calls;
mod syncs_come_to;

pub use front::Front;
pub use laws::{dues_grow, fronts_go_on_standing, fronts_license_barriers};
