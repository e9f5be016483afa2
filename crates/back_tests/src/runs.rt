// Whole runs of a back, from a new device to the device that it gives back.
ghost use Rattle.std.specs.Prelude.{◌≡◌, ℕ, [], length, slice_index};

use crate::copying::copy_between;
use crate::queueing::{enqueue_three, give_and_enqueue, give_three};
use back_core::{Back, Direct, Ending, Left, Step};
use std::alloc::Global;
use vk_device::{Device, Turned};
use vk_types::{QueueSerial, SerialIndex, Stop};

/// Copies bytes and reads them. Where there is no memory for a back, the device is handed back.
pub(crate) fn copy<D: Device>(
    alloc: Global,
    device: D,
    out: &mut [u8],
) -> Result<(Result<(), Stop>, Ending, D), D>
    requires new { D.journal device ≡ [] }
    requires size { length out.old ≡ 4 }
{
    let back = match Back::new(alloc, device) {
        Ok(back) => back,
        Err(device) => return Err(device),
    };
    let mut link = Direct::new(back, 0);
    let answer = copy_between(alloc, &mut link, out);
    let back = link.into_back();
    let ending = back.ending();
    Ok((answer, ending, back.finish()))
}

/// What a back answered.
#[derive(Drop)]
pub(crate) struct Answers<D> {
    pub(crate) enqueued: Result<(), Stop>,
    pub(crate) left: Left,
    pub(crate) steps: [Result<Step, Stop>; 4],
    pub(crate) turned: Result<Turned, Stop>,
    pub(crate) retired: [Option<QueueSerial>; 4],
    pub(crate) completed: [u64; 2],
    pub(crate) endings: [Ending; 2],
    pub(crate) device: D,
}

/// Enqueues three batches and moves them on by hand.
pub(crate) fn queue<D: Device>(alloc: Global, device: D) -> Result<Answers<D>, D>
    requires { D.journal device ≡ [] }
{
    let back = match Back::new(alloc, device) {
        Ok(back) => back,
        Err(device) => return Err(device),
    };
    let mut link = Direct::new(back, 0);
    let enqueued = enqueue_three(alloc, &mut link);
    let mut back = link.into_back();
    let left = back.left();
    let steps = [
        back.submit_one(),
        back.submit_one(),
        back.submit_one(),
        back.submit_one(),
    ];
    let turned = back.turn();
    let retired = [back.retire(), back.retire(), back.retire(), back.retire()];
    let completed = [
        back.completed(SerialIndex::new(0)),
        back.completed(SerialIndex::new(1)),
    ];
    back.begin_closing();
    let closing = back.ending();
    back.stop_for_memory();
    let endings = [closing, back.ending()];
    Ok(Answers {
        enqueued,
        left,
        steps,
        turned,
        retired,
        completed,
        endings,
        device: back.finish(),
    })
}

/// What a back answered that was given garbage.
#[derive(Drop)]
pub(crate) struct Cleaned<D> {
    pub(crate) gave: Result<(), Stop>,
    pub(crate) counts: [Result<u64, Stop>; 2],
    pub(crate) left: Left,
    pub(crate) device: D,
}

// No batch was read to be retired.
fn nothing_read() -> [u64; 64]
    ensures { (index : ℕ) → slice_index result index ≡ 0 }
{
    [0; 64]
}

/// Gives three objects away, and cleans up twice.
pub(crate) fn clean<D: Device>(alloc: Global, device: D) -> Result<Cleaned<D>, D>
    requires { D.journal device ≡ [] }
{
    let back = match Back::new(alloc, device) {
        Ok(back) => back,
        Err(device) => return Err(device),
    };
    let mut link = Direct::new(back, 0);
    let gave = give_three(alloc, &mut link);
    let mut back = link.into_back();
    let read = nothing_read();
    let counts = [back.cleanup(&read), back.cleanup(&read)];
    let left = back.left();
    Ok(Cleaned {
        gave,
        counts,
        left,
        device: back.finish(),
    })
}

/// What a back answered that did all that was left.
#[derive(Drop)]
pub(crate) struct Settled<D> {
    pub(crate) gave: Result<(), Stop>,
    pub(crate) settled: Result<(), Stop>,
    pub(crate) cleaned: Result<u64, Stop>,
    pub(crate) left: Left,
    pub(crate) device: D,
}

/// Gives three objects away, and does all that is left.
pub(crate) fn settle<D: Device>(alloc: Global, device: D) -> Result<Settled<D>, D>
    requires { D.journal device ≡ [] }
{
    let back = match Back::new(alloc, device) {
        Ok(back) => back,
        Err(device) => return Err(device),
    };
    let mut link = Direct::new(back, 0);
    let gave = give_and_enqueue(alloc, &mut link);
    let mut back = link.into_back();
    let settled = back.settle_all();
    let cleaned = back.clean_all();
    let left = back.left();
    Ok(Settled {
        gave,
        settled,
        cleaned,
        left,
        device: back.finish(),
    })
}
