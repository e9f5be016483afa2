// Which traces are served.
ghost use Rattle.std.specs.Prelude.{◌≡◌, map};
ghost use Rattle.front_core.specs.Share.{is_built};
ghost use Rattle.trace_text.specs.Reading.{plan};
ghost use Rattle.trace_run.specs.Runs as runs;

use gl_calls::{BindTarget, Call, ObjectKind};
use trace_text::{Line, ThreadPlan};

/// The line at which a trace is refused that is not served: the first one, of all threads, whose call is not built.
pub(crate) fn first_unbuilt(threads: &[ThreadPlan]) -> Option<u32>
    ensures { result ≡ runs.first_unbuilt (map plan threads.now) }
{
    let mut first = None;
    for thread in threads {
        first = first_of(first, unbuilt_line(&thread.lines));
    }
    first
}

// The smaller one of two lines, where there are two.
fn first_of(line: Option<u32>, other: Option<u32>) -> Option<u32>
    ensures { result ≡ runs.first_of line other }
{
    match (line, other) {
        (Some(line), Some(other)) => Some(line.min(other)),
        (Some(line), None) => Some(line),
        (None, other) => other,
    }
}

fn unbuilt_line(lines: &[Line]) -> Option<u32>
    ensures { result ≡ runs.unbuilt_line lines.now }
{
    for line in lines {
        if !is_built(&line.call) {
            return Some(line.number);
        }
    }
    None
}

// Whether a call is built.
fn is_built(call: &Call) -> bool
    ensures { result ≡ is_built call.now }
{
    match call {
        Call::CreateContext { .. }
        | Call::DestroyContext { .. }
        | Call::MakeCurrent { .. }
        | Call::EglGetError
        | Call::GetError
        | Call::GetInteger { .. }
        | Call::BufferData { .. }
        | Call::BufferSubData { .. }
        | Call::CopyBufferSubData { .. }
        | Call::MapBufferRange { .. }
        | Call::FlushMappedBufferRange { .. }
        | Call::UnmapBuffer { .. }
        | Call::MapRead { .. }
        | Call::MapWrite { .. }
        | Call::PixelStore { .. }
        | Call::CreateSync { .. }
        | Call::EglClientWaitSync { .. }
        | Call::DestroySync { .. }
        | Call::FenceSync { .. }
        | Call::ClientWaitSync { .. }
        | Call::WaitSync { .. }
        | Call::DeleteSync { .. }
        | Call::Flush
        | Call::Finish => true,
        Call::Gen { kind, .. } | Call::Delete { kind, .. } => matches!(kind, ObjectKind::Buffer),
        Call::Bind { target, .. } => matches!(target, BindTarget::Buffer(_)),
        _ => false,
    }
}
