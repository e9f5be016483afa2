// Image formats and client pixels, what their texels stand for, and the rows of pixel transfers.
//
// Texels are bytes, components are numbers: `expand` goes from a texel to its four components, `pack` back, and `fits`
// says whether nothing is lost on the way back. `row_layout` says where the rows of a transfer lie.
#![tactic(auto)]

mod errors;
mod format;
mod pixel;
mod rows;
mod texel;

pub use errors::{EglError, FbStatus};
pub use format::{Format, general_pair, is_same_format, is_signed, own_pair, texel_size};
pub use pixel::{PixelFormat, PixelType, element_size, is_other, is_pair};
pub use rows::{PixelStore, RowLayout, row_layout};
pub use texel::{expand, fits, pack};
