// Counting a run.
ghost use Rattle.std.specs.Prelude.{◌≡◌, IfOk, map, sum};
ghost use Rattle.std.specs.List.{count_by};
ghost use Rattle.back_core.specs.Frame.{bytes_by, host_bytes};
ghost use Rattle.run_summary.specs.Counting as counting;
ghost use Rattle.run_summary.specs.Counting.{capped, calls_in, errors_in, is_error, is_submit, is_create, is_destroy};

use crate::executed::{barriers, batches_in, nodes};
use gl_calls::{Entry, Reply};
use reply_text::{Counts, GroupHistory};
use std::alloc::{AllocError, Global};
use vk_device::Logged;

/// The counts of these histories and this journal, each at most 2^64 - 1. The time is in proportion to both.
pub fn counts_of(
    alloc: Global,
    groups: &[GroupHistory],
    journal: &[Logged],
) -> Result<Counts, AllocError>
    ensures { IfOk result (λ counts. counts ≡ counting.counts_of groups.now journal.now) }
{
    let batches = batches_in(alloc, journal)?;
    Ok(Counts {
        calls: calls(groups),
        errors: errors(groups),
        uploads: uploads(journal),
        batches: submits(journal),
        nodes: nodes(&batches, journal),
        barriers: barriers(&batches, journal),
        created: creates(journal),
        destroyed: destroys(journal),
    })
}

fn calls(groups: &[GroupHistory]) -> u64
    ensures { result ≡ capped (sum (map calls_in groups.now)) }
{
    let mut total: u64 = 0;
    for group in groups {
        total = total.saturating_add(group.entries.len() as u64);
    }
    total
}

fn errors(groups: &[GroupHistory]) -> u64
    ensures { result ≡ capped (sum (map errors_in groups.now)) }
{
    let mut total: u64 = 0;
    for group in groups {
        total = total.saturating_add(errors_among(group.entries.as_slice()));
    }
    total
}

fn errors_among(entries: &[Entry]) -> u64
    ensures { result ≡ count_by (λ e. is_error e.reply) entries.now }
{
    entries.iter().filter(|entry| has_error(entry)).count() as u64
}

fn has_error(entry: &Entry) -> bool
    ensures { result ≡ is_error entry.now.reply }
{
    matches!(
        entry.reply,
        Reply::GlFault(_) | Reply::EglFault(_) | Reply::WaitFailed
    )
}

// The bytes that the host wrote.
fn uploads(journal: &[Logged]) -> u64
    ensures { result ≡ capped (host_bytes journal.now) }
{
    let mut total: u64 = 0;
    for entry in journal {
        total = total.saturating_add(bytes_in(entry));
    }
    total
}

fn bytes_in(entry: &Logged) -> u64
    ensures { result ≡ bytes_by entry.now }
{
    match entry {
        Logged::Wrote { bytes, .. } => bytes.as_slice().len() as u64,
        _ => 0,
    }
}

fn submits(journal: &[Logged]) -> u64
    ensures { result ≡ count_by is_submit journal.now }
{
    journal.iter().filter(|entry| submits_batch(entry)).count() as u64
}

fn submits_batch(entry: &Logged) -> bool
    ensures { result ≡ is_submit entry.now }
{
    matches!(entry, Logged::Submitted { .. })
}

fn creates(journal: &[Logged]) -> u64
    ensures { result ≡ count_by is_create journal.now }
{
    journal.iter().filter(|entry| creates_object(entry)).count() as u64
}

fn creates_object(entry: &Logged) -> bool
    ensures { result ≡ is_create entry.now }
{
    matches!(entry, Logged::Created { .. })
}

fn destroys(journal: &[Logged]) -> u64
    ensures { result ≡ count_by is_destroy journal.now }
{
    journal
        .iter()
        .filter(|entry| destroys_object(entry))
        .count() as u64
}

fn destroys_object(entry: &Logged) -> bool
    ensures { result ≡ is_destroy entry.now }
{
    matches!(entry, Logged::Destroyed { .. })
}
