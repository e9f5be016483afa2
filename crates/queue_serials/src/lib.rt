//! The serial indexes of a share group, and the numbers that each index gives out.
//!
//! The indexes of group g are 8g to 8g + 7. A context takes one for its life. The numbers of an index rise by one,
//! also over contexts that take the same index one after the other. Nothing here takes memory.
#![tactic(auto)]

mod indexes;

pub use indexes::{Full, Indexes};
