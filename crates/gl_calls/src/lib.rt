// The calls of EGL 1.5 and OpenGL ES 3.0 in this profile, and their replies.
#![tactic(auto)]

mod call;
mod copy;
mod payload;
mod reply;
mod words;

pub use call::{Call, PixelDestination, PixelSource, WaitEnd};
pub use payload::{DrawBufferList, Payload};
pub use reply::{Entry, GlError, NameList, Reply, Waited};
pub use words::{
    AccessWord, AttachPoint, AttachWhat, BindTarget, BlitFilter, BlitMask, BufferTarget,
    DrawBuffer, FenceCondition, FormatWord, FramebufferTarget, LimitName, ObjectKind,
    StoreParameter, Usage,
};
