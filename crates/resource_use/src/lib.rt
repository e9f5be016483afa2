//! The last uses of a resource: for each index of serials the number of the last batch that uses the resource.
#![tactic(auto)]

mod one_use;
mod uses;

use one_use::Use;
pub use uses::ResourceUse;
