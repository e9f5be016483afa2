//! Reads of pixels: what of a rectangle lies in an image, the nodes that bring it to a buffer, and the rows of a client's read.
//!
//! The functions without a body are laws: the bytes of a read, and what a pack buffer shows after one, are those that OpenGL ES
//! gives, at each cell that is defined.
#![tactic(auto)]

mod client_rows;
mod laws;
mod nodes;
mod plan;

pub use client_rows::{blank, place};
pub use laws::{blank_is_exact, pack_is_exact, place_is_exact, read_fits, read_is_exact};
pub use nodes::{pack_node, read_node};
pub use plan::{ReadPlan, plan_of};
