//! An object of a share group, a buffer or an image: the store that it has, and the last uses of it.
#![tactic(auto)]

mod helper;

pub use helper::ObjectHelper;
