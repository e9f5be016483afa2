//! The nodes of the calls that change images: uploads, copies, clears and blits.
//!
//! A call that writes no pixel has no node. No function here takes memory. The functions without a body are laws: what a
//! node leaves shows what OpenGL ES says that the call leaves, at each cell that is defined.
#![tactic(auto)]

mod blit;
mod blit_laws;
mod blit_source;
mod cell_laws;
mod clear;
mod clear_laws;
mod copy;
mod copy_laws;
mod overlap;
mod store_laws;
mod upload;
mod upload_laws;

pub use blit::blit_node;
pub use blit_laws::{blit_fits, blit_is_exact};
pub use cell_laws::states_hold_cells;
pub use clear::{clear_node, clear_rect, common_area, scissor_of};
pub use clear_laws::{clear_fits, clear_is_exact, undefined_is_shown};
pub use copy::copy_node;
pub use copy_laws::{copy_fits, copy_is_exact};
pub use overlap::{Overlap, overlap_of};
pub use store_laws::kinds_are_storable;
pub use upload::upload_node;
pub use upload_laws::{upload_fits, upload_is_exact};
