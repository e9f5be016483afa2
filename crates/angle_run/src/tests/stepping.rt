// Worlds that are stepped by hand, and one that goes through a schedule so: it ends as a run does.
ghost use Rattle.std.specs.Prelude.{◌≡◌, [], true, OnOk};

use super::running::{joined, run_by};
use rand_core::SeedableRng;
use rand_core::utils::NextWord;
use rand_xoshiro::Xoshiro256PlusPlus;
use reply_text::{Tail, render};
use std::alloc::{AllocError, Global};
use std::test::Fail;
use trace_io::Status;
use trace_run::served_trace;
use vk_device::{Device, Logged};
use vk_fakes::SoftDevice;
use vk_types::Stop;
use world_core::{Event, Stepped, World};

/// Makes an event. A cleanup is told the completed numbers of its moment.
pub(crate) fn make<D: Device>(world: &mut World<D>, event: Event) -> Result<Stepped, Stop>
    requires { world.old.running ≡ true }
    ensures { OnOk result (world.new.running ≡ true) }
{
    match event {
        Event::Call(thread) => {
            if world.thread_count() <= thread {
                return Ok(Stepped::Ended);
            }
            match world.step(Event::Call(thread))? {
                Stepped::Done => Ok(Stepped::Done),
                Stepped::Nothing => Ok(Stepped::Nothing),
                Stepped::NotReady => Ok(Stepped::NotReady),
                Stepped::Ended => Ok(Stepped::Ended),
            }
        }
        Event::Submit => Ok(world.step(Event::Submit)?),
        Event::Turn => Ok(world.step(Event::Turn)?),
        Event::Retire => Ok(world.step(Event::Retire)?),
        Event::Cleanup(_) => {
            let read = world.completed();
            Ok(world.step(Event::Cleanup(read))?)
        }
    }
}

/// What was written, and the journal of the device, with a line for each entry.
#[derive(Drop)]
pub(crate) struct Left {
    pub(crate) replies: Vec<u8>,
    pub(crate) journal: String,
}

// The journal of a device, with a line for each entry.
fn journal_text(alloc: Global, journal: &[Logged]) -> Result<String, AllocError> {
    let mut text = String::new(alloc);
    for entry in journal {
        write!(text, "{entry:?}\n")?;
    }
    Ok(text)
}

/// Closes a world, and ends it. There is nothing where a stop came.
pub(crate) fn end<D: Device + Drop>(
    alloc: Global,
    world: World<D>,
) -> Result<Option<Left>, AllocError>
    requires { world.running ≡ true }
{
    let mut world = world;
    let closed = world.close().is_ok();
    let (groups, device) = world.finish();
    if !closed {
        return Ok(None);
    }
    Ok(Some(Left {
        replies: render(alloc, &groups, Tail::End)?,
        journal: journal_text(alloc, device.journal())?,
    }))
}

// The thread that a word names among those that are ready.
fn named<D: Device>(world: &World<D>, word: u64) -> Option<u32> {
    let mut ready = [0u32; 16];
    let mut count = 0;
    for thread in 0..world.thread_count() {
        if world.ready(thread) && count < 16 {
            ready[count] = thread;
            count += 1;
        }
    }
    if count == 0 {
        return None;
    }
    ready.get((word >> 16) as usize % count).copied()
}

// The step of the back of this number.
fn back_event(kind: u64) -> Event {
    match kind {
        0 => Event::Submit,
        1 => Event::Turn,
        2 => Event::Retire,
        _ => Event::Cleanup([0; 64]),
    }
}

// Makes the events of the schedule of a seed: in each round the steps of the back that a word names, and then the call of the thread that
// it names.
fn play_by_hand<D: Device>(world: &mut World<D>, seed: u64) -> Result<(), Stop>
    requires { world.old.running ≡ true }
    ensures { OnOk result (world.new.running ≡ true) }
{
    let mut words = Xoshiro256PlusPlus::seed_from_u64(seed);
    for _round in 0..200u32 {
        let word = words.next_word();
        let Some(thread) = named(world, word) else {
            return Ok(());
        };
        for k in 0..word % 4 {
            make(world, back_event((word >> (8 + 2 * k)) % 4))?;
        }
        make(world, Event::Call(thread))?;
    }
    Ok(())
}

// What is left of a world of a text that went through the schedule of a seed by hand.
fn left_by_hand<D: Device + Drop>(
    alloc: Global,
    text: &str,
    seed: u64,
    device: D,
) -> Result<Option<Left>, AllocError>
    requires { D.journal device ≡ [] }
{
    let Ok(trace) = served_trace(alloc, text.as_bytes()) else {
        return Ok(None);
    };
    let mut world = match World::new(alloc, trace, device) {
        Ok(world) => world,
        Err(device) => {
            drop(device);
            return Ok(None);
        }
    };
    match play_by_hand(&mut world, seed) {
        Ok(()) => end(alloc, world),
        Err(_) => {
            let _ = world.finish();
            Ok(None)
        }
    }
}

// Three groups of four threads, in each of which a buffer is filled, written to in part, copied from and read, with fences between.
const TOGETHER: &str = "angle-trace 1\n\
    thread 0 group 1\nthread 1 group 4\nthread 2 group 5\nthread 3 group 1\nthread 4 group 4\nthread 5 group 5\n\
    thread 6 group 1\nthread 7 group 4\nthread 8 group 5\nthread 9 group 1\nthread 10 group 4\nthread 11 group 5\nbegin\n\
    0 ecreate 1\n0 ecurrent 1\n0 bind array 7\n0 bdata array 4 static_draw 01020304\n0 bsub array 1 aabb\n0 fence 1 gpu 0\n0 flush\n\
    3 @21 ecreate 2\n3 ecurrent 2\n3 cwait 1 0 0\n3 bind copy_read 7\n3 bmap copy_read 0 4 r\n3 mread copy_read 0 4\n\
    6 @21 cwait 1 0 0\n6 ecreate 3\n6 ecurrent 3\n6 cwait 1 1 0\n\
    9 ecurrent 9\n9 eerror\n9 @27 eerror\n\
    1 ecreate 1\n1 ecurrent 1\n1 bind array 7\n1 bdata array 3 static_draw 0a0b0c\n1 bsub array 0 05\n1 esync 1\n1 ewait 1 1 0\n\
    4 @41 ewait 1 0 0\n4 ecreate 2\n4 ecurrent 2\n4 bind copy_write 8\n4 bdata copy_write 3 static_draw null\n4 bind copy_read 7\n\
    4 bcopy copy_read copy_write 0 0 3\n4 bmap copy_write 0 3 r\n4 mread copy_write 0 3\n\
    7 @41 ewait 1 0 9\n10 eerror\n10 @51 ewait 1 0 0\n\
    2 ecreate 1\n2 ecurrent 1\n2 bind array 1\n2 bdata array 2 static_draw 0102\n2 bsub array 0 0304\n2 del buffer 1\n2 finish\n\
    5 @60 ecurrent 1\n5 gen buffer 1\n8 @61 ecreate 2\n8 ecurrent 2\n11 @55 eerror\nend\n";

#[test]
fn a_schedule_by_hand_ends_as_a_run_does(rt: HostRuntime) -> Result<(), Fail> {
    let alloc = rt.alloc();
    for seed in 0..10u64 {
        let by_hand = left_by_hand(alloc, TOGETHER, seed, SoftDevice::seeded(alloc, seed))?;
        let number = format!(in alloc; "{seed}")?;
        let text = joined(alloc, TOGETHER, "", "")?;
        let words = ["once", "--seed", number.as_str()];
        let (status, sink, device) = run_by(alloc, &words, text, SoftDevice::seeded(alloc, seed))?;
        assert!(rt; status == Status::Ok, "seed {seed}");
        let Some(left) = by_hand else {
            assert!(rt; false, "seed {seed}");
            return Ok(());
        };
        assert!(rt; sink.bytes() == left.replies.as_slice(), "seed {seed}");
        let journal = journal_text(alloc, device.journal())?;
        assert!(rt; journal.as_str() == left.journal.as_str(), "seed {seed}");
    }
    Ok(())
}
