//! What each kind of node leaves, place by place: what its target holds where the node writes, and that all else is as before.
//!
//! The functions here have no body: each is a law, on any contents that the node finds. `targets` says what holds of every
//! node; the other files have one topic each. The laws on copies between buffers, and on what clears, copies and rows write
//! in their rectangle, are `vk_model::copy_is_exact` and `vk_model::image_writes_are_exact`.
#![tactic(auto)]

mod barrier_laws;
mod blit_columns;
mod buffer_laws;
mod ends;
mod image_laws;
mod image_places;
mod pass_laws;
mod targets;
mod texel_laws;

pub use barrier_laws::barrier_changes_no_bytes;
pub use blit_columns::{blit_of_one_size_moves_columns, blit_scales_columns};
pub use buffer_laws::{fill_is_exact, rows_come_down_exactly, rows_come_up_exactly};
pub use ends::nothing_lies_past_the_ends;
pub use image_laws::{
    blit_reads_the_nearest_texel, copy_finds_nothing_below, images_change_in_their_rectangle,
};
pub use image_places::{places_are_inside_or_outside, places_of_an_image};
pub use pass_laws::pass_loads_and_clears_in_order;
pub use targets::only_the_target_changes;
pub use texel_laws::{expanded_texel_is_four_words, texels_are_converted_whole};
