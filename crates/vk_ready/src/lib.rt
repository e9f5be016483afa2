//! The nodes that a device accepted and has not run, and which of them may run next.
//!
//! `specs/Ready.antt` says which of the waiting nodes are ready: those to which no earlier one has an edge. The edges
//! are those of `vk_model`.
#![tactic(auto)]

mod edges;
mod laws;
mod links;
mod list;
mod nodes;
mod ranks;
mod watch;

pub use edges::has_edge;
pub use laws::{first_node_is_ready, ready_places_are_exact};
pub use list::WaitingNodes;
pub use nodes::WaitingNode;

#[cfg(test)]
mod tests;
