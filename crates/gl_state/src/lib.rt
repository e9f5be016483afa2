//! The effect of a call on the state of a share group, all but what its objects hold.
#![tactic(auto)]

mod applied;
mod bindings;
mod buffers;
mod contexts;
mod dispatch;
mod egl;
mod framebuffer_calls;
mod framebuffers;
mod generation;
mod laws;
mod nameless;
mod names;
mod parameters;
mod plain;
mod references;
mod refusal;
mod renderbuffers;
mod state;
mod storage;
mod sweep;
mod syncs;
mod textures;

pub use applied::{Applied, Switched};
pub use bindings::{bind_buffer, delete_buffer};
pub use buffers::{buffer_data, map_buffer_range, unmap_buffer};
pub use contexts::current_number;
pub use dispatch::apply;
pub use egl::{create_context, destroy_context, make_current};
pub use framebuffer_calls::{
    attach, bind_framebuffer, delete_framebuffer, draw_buffers, read_buffer,
};
pub use generation::{
    generate_buffers, generate_framebuffers, generate_renderbuffers, generate_textures,
};
pub use laws::replies_are_answers;
pub use nameless::Ended;
pub use parameters::{get_error, pixel_store, scissor_box, scissor_test};
pub use plain::apply_plain;
pub use refusal::refuse;
pub use renderbuffers::{bind_renderbuffer, delete_renderbuffer};
pub use state::SharedState;
pub use storage::{renderbuffer_storage, tex_storage};
pub use syncs::{create_sync, delete_sync, destroy_sync, fence_sync, succeed};
pub use textures::{bind_texture, delete_texture};
