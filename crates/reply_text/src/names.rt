//! The names of errors and values, without their GL_ and EGL_.

ghost use Rattle.std.specs.Prelude.{◌≡◌};
ghost use Rattle.reply_text.specs.Replies as text;

use formats::{EglError, FbStatus};
use gl_calls::{GlError, Waited};

pub fn gl_error_name(error: GlError) -> &'static str
    ensures { result.now ≡ text.gl_error_name error }
{
    match error {
        GlError::NoError => "NO_ERROR",
        GlError::InvalidEnum => "INVALID_ENUM",
        GlError::InvalidValue => "INVALID_VALUE",
        GlError::InvalidOperation => "INVALID_OPERATION",
        GlError::InvalidFramebufferOperation => "INVALID_FRAMEBUFFER_OPERATION",
        GlError::OutOfMemory => "OUT_OF_MEMORY",
    }
}

pub fn egl_error_name(error: EglError) -> &'static str
    ensures { result.now ≡ text.egl_error_name error }
{
    match error {
        EglError::Success => "SUCCESS",
        EglError::BadAlloc => "BAD_ALLOC",
        EglError::BadContext => "BAD_CONTEXT",
        EglError::BadAccess => "BAD_ACCESS",
        EglError::BadMatch => "BAD_MATCH",
        EglError::BadParameter => "BAD_PARAMETER",
    }
}

pub fn status_name(status: FbStatus) -> &'static str
    ensures { result.now ≡ text.status_name status }
{
    match status {
        FbStatus::Complete => "FRAMEBUFFER_COMPLETE",
        FbStatus::Undefined => "FRAMEBUFFER_UNDEFINED",
        FbStatus::IncompleteAttachment => "INCOMPLETE_ATTACHMENT",
        FbStatus::IncompleteMissingAttachment => "INCOMPLETE_MISSING_ATTACHMENT",
        FbStatus::Unsupported => "FRAMEBUFFER_UNSUPPORTED",
    }
}

pub fn waited_name(waited: Waited) -> &'static str
    ensures { result.now ≡ text.waited_name waited }
{
    match waited {
        Waited::AlreadySignaled => "ALREADY_SIGNALED",
        Waited::TimeoutExpired => "TIMEOUT_EXPIRED",
        Waited::ConditionSatisfied => "CONDITION_SATISFIED",
    }
}
