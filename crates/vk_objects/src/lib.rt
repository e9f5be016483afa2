//! The bytes of a device's objects, and what its nodes do to them.
#![tactic(auto)]

mod blits;
mod buffers;
mod image_nodes;
mod images;
mod nodes;
mod objects;
mod out_rows;
mod passes;
mod shapes;
mod texels;

pub use nodes::execute;
pub use objects::Objects;
