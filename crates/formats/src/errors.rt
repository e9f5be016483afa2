/// The errors of EGL calls, as GetError answers them. (EGL 1.5, Errors.)
#[derive(Clone, Copy, Debug, PartialEq, Eq)]
pub enum EglError {
    Success,
    BadAlloc,
    BadContext,
    BadAccess,
    BadMatch,
    BadParameter,
}

/// What CheckFramebufferStatus answers. (OpenGL ES 3.0.6, Framebuffer Completeness.)
#[derive(Clone, Copy, Debug, PartialEq, Eq)]
pub enum FbStatus {
    Complete,
    Undefined,
    IncompleteAttachment,
    IncompleteMissingAttachment,
    Unsupported,
}
