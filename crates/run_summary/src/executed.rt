// The nodes that a device executed.
ghost use Rattle.std.specs.Prelude.{◌≡◌, IfOk, map};
ghost use Rattle.std.specs.List.{count_by};
ghost use Rattle.std.specs.Option.{option_map};
ghost use Rattle.vk_device.specs.Journal.{accepted, node_at};
ghost use Rattle.run_summary.specs.Counting.{runs_a_node, runs_a_barrier};

use std::alloc::{AllocError, Global};
use vk_device::Logged;
use vk_types::{Batch, Node};

/// The batches that were accepted, in order.
pub fn batches_in(alloc: Global, journal: &[Logged]) -> Result<Vec<&Batch>, AllocError>
    ensures { IfOk result (λ batches. map (λ b. b.now) batches.items ≡ accepted journal.now) }
{
    let mut batches = Vec::new(alloc);
    for entry in journal {
        if let Logged::Submitted { batch } = entry {
            batches.push(batch)?;
        }
    }
    Ok(batches)
}

/// How many nodes of these batches were executed that are no barriers.
pub fn nodes(batches: &[&Batch], journal: &[Logged]) -> u64
    ensures { result ≡ count_by (runs_a_node (map (λ b. b.now) batches.now)) journal.now }
{
    journal
        .iter()
        .filter(|entry| runs_node(batches, entry))
        .count() as u64
}

fn runs_node(batches: &[&Batch], entry: &Logged) -> bool
    ensures { result ≡ runs_a_node (map (λ b. b.now) batches.now) entry.now }
{
    match entry {
        Logged::Ran { batch, node } => match node_of(batches, *batch, *node) {
            None => false,
            Some(node) => node.barrier().is_none(),
        },
        _ => false,
    }
}

/// How many barriers of these batches were executed.
pub fn barriers(batches: &[&Batch], journal: &[Logged]) -> u64
    ensures { result ≡ count_by (runs_a_barrier (map (λ b. b.now) batches.now)) journal.now }
{
    journal
        .iter()
        .filter(|entry| runs_barrier(batches, entry))
        .count() as u64
}

fn runs_barrier(batches: &[&Batch], entry: &Logged) -> bool
    ensures { result ≡ runs_a_barrier (map (λ b. b.now) batches.now) entry.now }
{
    match entry {
        Logged::Ran { batch, node } => match node_of(batches, *batch, *node) {
            None => false,
            Some(node) => node.barrier().is_some(),
        },
        _ => false,
    }
}

// The node at these places, if there is one.
fn node_of<'a>(batches: &[&'a Batch], batch: u64, node: u32) -> Option<&'a Node>
    ensures { option_map (λ n. n.now) result ≡ node_at (map (λ b. b.now) batches.now) batch node }
{
    let batch: &'a Batch = batches.get(batch as usize)?;
    batch.nodes.as_slice().get(node as usize)
}
