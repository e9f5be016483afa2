// What OpenGL ES and EGL give to each call: the state of a share group, the refusals, the effects, and legal histories.
#![tactic(auto)]

mod counted;
mod framebuffers;
mod laws;
mod lookup;
mod objects;
mod opening;
mod state;
mod storage;

pub use counted::{Counted, HasBytes};
pub use framebuffers::read_attachment;
pub use laws::{
    buffers_have_their_sizes, group_is_a_projection, images_after_an_effect,
    images_have_their_sizes, legal_histories_go_on, other_calls_leave_syncs,
    stores_after_an_effect, syncs_are_of_the_group,
};
pub use objects::{BufferFacts, ImageInfo, Mapped};
pub use state::{Attachment, Context, Framebuffer, GroupState, Names, ScissorBox};
pub use storage::{MOST_STORAGE, bytes_of};
