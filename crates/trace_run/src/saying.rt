// What a run has to say, and how it is written.
ghost use Rattle.std.specs.Prelude.{◌≡◌, IfOk};
ghost use Rattle.trace_run.specs.Once.{Says, Puts, refused_text};

use reply_text::{GroupHistory, Tail, render};
use std::alloc::{AllocError, Global};
use trace_io::{Sink, Status, USAGE_LINE, write_all};

/// What is written of a run: the replies, with a summary or without, or the summary alone.
#[derive(Clone, Copy, Debug)]
pub(crate) enum Output {
    Replies,
    RepliesAndSummary,
    SummaryAlone,
}

/// What a run has to say: the words are of no command that is served, the text is refused, the replies to all lines, those
/// until the device was lost, or nothing since the source failed or memory ran out. The tail of the replies to
/// all lines has the summary, where one was asked for. Where the summary alone is written, there are no replies.
#[derive(Debug, Drop)]
pub(crate) enum Said {
    Usage,
    Refused {
        line: u32,
        kind: u8,
    },
    Replies {
        groups: Vec<GroupHistory>,
        tail: Tail,
    },
    Lost {
        groups: Vec<GroupHistory>,
    },
    ReadFault,
    Memory,
}

/// Writes what a run has to say.
pub(crate) fn say<K: Sink>(alloc: Global, sink: &mut K, said: &Said) -> Status
    ensures { Says said.now (K.taken sink.old) (K.taken sink.new) (K.faults sink.old) (K.faults sink.new) result }
{
    match said {
        Said::Usage => put(sink, USAGE_LINE.as_bytes(), Status::Usage),
        Said::Refused { line, kind } => match refusal(alloc, *line, *kind) {
            Ok(text) => put(
                sink,
                &text,
                Status::Trace {
                    line: *line,
                    kind: *kind,
                },
            ),
            Err(_) => Status::Memory,
        },
        Said::Replies { groups, tail } => match render(alloc, groups, *tail) {
            Ok(text) => put(sink, &text, Status::Ok),
            Err(_) => Status::Memory,
        },
        Said::Lost { groups } => match render(alloc, groups, Tail::Lost) {
            Ok(text) => put(sink, &text, Status::DeviceLost),
            Err(_) => Status::Memory,
        },
        Said::ReadFault => Status::ReadFault,
        Said::Memory => Status::Memory,
    }
}

// Writes a text, and answers this status where all of it was taken.
fn put<K: Sink>(sink: &mut K, text: &[u8], status: Status) -> Status
    ensures { Puts text.now status (K.taken sink.old) (K.taken sink.new) (K.faults sink.old) (K.faults sink.new) result }
{
    match write_all(sink, text) {
        Ok(()) => status,
        Err(_) => Status::WriteFault,
    }
}

#[tactic(auto, unfolding(crate::specs::Once::refused_text))]
fn refusal(alloc: Global, line: u32, kind: u8) -> Result<Vec<u8>, AllocError>
    ensures { IfOk result (λ text. text.items ≡ refused_text line kind) }
{
    let mut text = String::new(alloc);
    text.push_str("angle-reply 1\nrefused ")?;
    write!(text, "{line} {kind}\n")?;
    Ok(text.into_bytes())
}
