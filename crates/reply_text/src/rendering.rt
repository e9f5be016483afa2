//! The text of replies.

ghost use Rattle.std.specs.Prelude.{◌≡◌, ◌++◌, [], ◌∷◌, codes, IfOk, OnOk, string_bytes};
ghost use Rattle.std.specs.List.{flat_map};
ghost use Rattle.std.specs.Fmt.{decimal};
ghost use Rattle.reply_text.specs.Replies.{name_text, byte_text, bytes_text, reply_text, entry_text, group_text, count_line, history_counts, work_counts, object_counts, summary_text, tail_text, replies_text};

use crate::history::{Counts, GroupHistory, Tail};
use crate::names::{egl_error_name, gl_error_name, status_name, waited_name};
use gl_calls::{Entry, Reply};
use std::alloc::{AllocError, Global};

/// The reply text of the histories of the share groups, in this order, with this end. It takes time and memory in proportion to
/// the text.
pub fn render(alloc: Global, groups: &[GroupHistory], tail: Tail) -> Result<Vec<u8>, AllocError>
    ensures { IfOk result (λ text. text.items ≡ replies_text groups.now tail) }
{
    let mut out = String::new(alloc);
    out.push_str("angle-reply 1\n")?;
    for history in groups {
        put_group(&mut out, history)?;
    }
    put_tail(&mut out, tail)?;
    Ok(out.into_bytes())
}

fn put_tail(out: &mut String, tail: Tail) -> Result<(), AllocError>
    ensures { OnOk result (string_bytes out.new ≡ string_bytes out.old ++ tail_text tail) }
{
    match tail {
        Tail::End => out.push_str("end\n"),
        Tail::Summary(counts) => {
            put_summary(out, counts)?;
            out.push_str("end\n")
        }
        Tail::Lost => out.push_str("lost\n"),
    }
}

#[tactic(auto, unfolding(crate::specs::Replies::summary_text))]
fn put_summary(out: &mut String, counts: Counts) -> Result<(), AllocError>
    ensures { OnOk result (string_bytes out.new ≡ string_bytes out.old ++ summary_text counts) }
{
    out.push_str("summary\n")?;
    put_history_counts(out, counts)?;
    put_work_counts(out, counts)?;
    put_object_counts(out, counts)
}

#[tactic(auto, unfolding(crate::specs::Replies::history_counts))]
fn put_history_counts(out: &mut String, counts: Counts) -> Result<(), AllocError>
    ensures { OnOk result (string_bytes out.new ≡ string_bytes out.old ++ history_counts counts) }
{
    put_count(out, "calls", counts.calls)?;
    put_count(out, "errors", counts.errors)
}

#[tactic(auto, unfolding(crate::specs::Replies::work_counts))]
fn put_work_counts(out: &mut String, counts: Counts) -> Result<(), AllocError>
    ensures { OnOk result (string_bytes out.new ≡ string_bytes out.old ++ work_counts counts) }
{
    put_count(out, "uploads", counts.uploads)?;
    put_count(out, "batches", counts.batches)?;
    put_count(out, "nodes", counts.nodes)?;
    put_count(out, "barriers", counts.barriers)
}

#[tactic(auto, unfolding(crate::specs::Replies::object_counts))]
fn put_object_counts(out: &mut String, counts: Counts) -> Result<(), AllocError>
    ensures { OnOk result (string_bytes out.new ≡ string_bytes out.old ++ object_counts counts) }
{
    put_count(out, "created", counts.created)?;
    put_count(out, "destroyed", counts.destroyed)
}

#[tactic(auto, unfolding(crate::specs::Replies::count_line))]
fn put_count(out: &mut String, word: &str, count: u64) -> Result<(), AllocError>
    ensures { OnOk result (string_bytes out.new ≡ string_bytes out.old ++ count_line word.now count) }
{
    out.push_str(word)?;
    write!(out, " {count}\n")
}

fn put_group(out: &mut String, history: &GroupHistory) -> Result<(), AllocError>
    ensures { OnOk result (string_bytes out.new ≡ string_bytes out.old ++ group_text history.now) }
{
    let group = history.group;
    write!(out, "group {group}\n")?;
    for entry in &history.entries {
        put_entry(out, entry)?;
    }
    Ok(())
}

fn put_entry(out: &mut String, entry: &Entry) -> Result<(), AllocError>
    ensures { OnOk result (string_bytes out.new ≡ string_bytes out.old ++ entry_text entry.now) }
{
    let thread = entry.thread;
    let line = entry.line;
    write!(out, "{thread} {line} ")?;
    put_reply(out, &entry.reply)?;
    out.push_str("\n")?;
    Ok(())
}

fn put_reply(out: &mut String, reply: &Reply) -> Result<(), AllocError>
    ensures { OnOk result (string_bytes out.new ≡ string_bytes out.old ++ reply_text reply.now) }
{
    match reply {
        Reply::Done => out.push_str("ok"),
        Reply::GlFault(error) => put_two(out, "err ", gl_error_name(*error)),
        Reply::EglFault(error) => put_two(out, "err ", egl_error_name(*error)),
        Reply::NoContext => out.push_str("no-context"),
        Reply::NoMap => out.push_str("no-map"),
        Reply::BadPointer => out.push_str("bad-pointer"),
        Reply::Taken => out.push_str("taken"),
        Reply::Names(names) => {
            out.push_str("names")?;
            put_names(out, names.as_slice())
        }
        Reply::Bytes(bytes) => {
            out.push_str("bytes ")?;
            put_bytes(out, bytes.as_slice())
        }
        Reply::Status(status) => put_two(out, "status ", status_name(*status)),
        Reply::GlFlag(error) => put_two(out, "value ", gl_error_name(*error)),
        Reply::EglFlag(error) => put_two(out, "value ", egl_error_name(*error)),
        Reply::True => out.push_str("value TRUE"),
        Reply::Limit(limit) => {
            let limit = *limit;
            write!(out, "value {limit}")
        }
        Reply::Waited(waited) => put_two(out, "value ", waited_name(*waited)),
        Reply::WaitFailed => out.push_str("value WAIT_FAILED INVALID_VALUE"),
    }
}

fn put_two(out: &mut String, first: &str, second: &str) -> Result<(), AllocError>
    ensures { OnOk result (string_bytes out.new ≡ string_bytes out.old ++ first.now ++ second.now) }
{
    out.push_str(first)?;
    out.push_str(second)
}

fn put_names(out: &mut String, names: &[u32]) -> Result<(), AllocError>
    ensures { OnOk result (string_bytes out.new ≡ string_bytes out.old ++ flat_map name_text names.now) }
{
    for name in names {
        let name = *name;
        write!(out, " {name}")?;
    }
    Ok(())
}

fn put_bytes(out: &mut String, bytes: &[u8]) -> Result<(), AllocError>
    ensures { OnOk result (string_bytes out.new ≡ string_bytes out.old ++ bytes_text bytes.now) }
{
    match bytes {
        [] => out.push_str("-"),
        [_, ..] => put_pairs(out, bytes),
    }
}

fn put_pairs(out: &mut String, bytes: &[u8]) -> Result<(), AllocError>
    ensures { OnOk result (string_bytes out.new ≡ string_bytes out.old ++ flat_map byte_text bytes.now) }
{
    for byte in bytes {
        put_byte(out, *byte)?;
    }
    Ok(())
}

fn put_byte(out: &mut String, byte: u8) -> Result<(), AllocError>
    ensures { OnOk result (string_bytes out.new ≡ string_bytes out.old ++ byte_text byte) }
{
    write!(out, "{byte:02x}")
}
