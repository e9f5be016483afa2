//! Names of one kind of object, and the references to its objects (OpenGL ES 3.0.6, Object Model).
//!
//! A name is unused, generated, or has an object. An object exists while it has a name or is held by a binding or an
//! attachment.
#![tactic(auto)]

mod ids;
mod names;
mod object;
mod table;

pub use ids::ObjectId;
pub use table::NameTable;
