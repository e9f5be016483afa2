//! Framebuffer objects: what is attached, drawn to and read (OpenGL ES 3.0.6, Framebuffer Objects).
#![tactic(auto)]

mod attachment;
mod framebuffer;
mod status;

pub use attachment::Attachment;
pub use framebuffer::Framebuffer;
pub use gl_model::ImageInfo;
