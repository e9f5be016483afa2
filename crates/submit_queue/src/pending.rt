// A batch that was not retired.
ghost use Rattle.std.specs.Prelude.{◌≡◌, ◌<◌, take, slice_get, IfSome};
ghost use Rattle.std.specs.List.{list_any};
ghost use Rattle.std.specs.Bool.{OnTrue, OnFalse};
ghost use Rattle.std.specs.VecDeque.{deque_len};
ghost use Rattle.submit_queue.specs.Histories.{item_count};
ghost use Rattle.submit_queue.specs.Kept.{lowered, has_left};

use std::collections::VecDeque;
use vk_types::Batch;

/// A batch that was not retired, and how many of its items have not run.
#[derive(Debug, Drop)]
pub(crate) struct Pending {
    pub(crate) batch: Batch,
    pub(crate) left: usize,
}

impl Pending {
    /// A batch of which no item ran.
    pub(crate) fn fresh(batch: Batch) -> Pending
        requires { item_count batch < 4294967296 }
        ensures batch { result.batch ≡ batch }
        ensures left { result.left ≡ item_count batch }
    {
        let left = batch.waits.as_slice().len()
            + batch.nodes.as_slice().len()
            + batch.signals.as_slice().len();
        Pending { batch, left }
    }
}

/// One item less is left of the batch at a place, where there is one.
pub(crate) fn run_one(pending: &mut VecDeque<Pending>, place: usize)
    ensures { pending.new.items ≡ lowered pending.old.items place }
{
    if let Some(one) = pending.get_mut(place) {
        one.left = one.left.saturating_sub(1);
    }
}

/// Whether an item is left of one of the first batches.
pub(crate) fn some_left(pending: &VecDeque<Pending>, count: usize) -> bool
    ensures { result ≡ list_any has_left (take count pending.now.items) }
{
    pending.iter().take(count).any(|one| one.left > 0)
}

/// Whether there is a first batch, and all its items ran.
pub(crate) fn is_executed(pending: &VecDeque<Pending>) -> bool
    ensures yes { OnTrue result (IfSome (slice_get pending.now.items 0) (λ first. first.left ≡ 0)) }
    ensures some { OnTrue result (0 < deque_len pending.now) }
    ensures no { OnFalse result (IfSome (slice_get pending.now.items 0) (λ first. 0 < first.left)) }
{
    match pending.front() {
        Some(first) => first.left == 0,
        None => false,
    }
}
