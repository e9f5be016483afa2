// What syncs answer while the back goes on by hand.
ghost use Rattle.std.specs.Prelude.{◌≡◌, [], true, OnOk};

use super::running::{OPENED, OPENING, joined};
use super::stepping::{end, make};
use std::alloc::{AllocError, Global};
use std::test::Fail;
use trace_run::served_trace;
use vk_device::Device;
use vk_fakes::{FakeDevice, SoftDevice};
use vk_types::Stop;
use world_core::{Event, World};

// What a trace shows, its calls behind those of the opening, the events, and the replies. Of the events `c` is the next call, `s` a
// submission, `t` a turn of the device, `r` a retirement and `x` a cleanup.
struct Poll {
    shows: &'static str,
    calls: &'static str,
    events: &'static str,
    replies: &'static str,
}

const POLLS: [Poll; 4] = [
    Poll {
        shows: "a fence with nodes before it is signalled once its batch is retired, and not before",
        calls: "0 bind array 1\n0 bdata array 4 static_draw 01020304\n0 bsub array 1 aabb\n0 fence 1 gpu 0\n\
            0 cwait 1 0 0\n0 flush\n0 cwait 1 0 0\n0 cwait 1 0 0\n0 cwait 1 0 0\n0 cwait 1 0 0\n",
        events: "cc cccc sr c c sr c ttttttttttttttttttttttttttttttt c r c xr c",
        replies: "0 6 ok\n0 7 ok\n0 8 ok\n0 9 ok\n0 10 value TIMEOUT_EXPIRED\n0 11 ok\n0 12 value TIMEOUT_EXPIRED\n\
            0 13 value TIMEOUT_EXPIRED\n0 14 value ALREADY_SIGNALED\n0 15 value ALREADY_SIGNALED\n",
    },
    Poll {
        shows: "a poll with the flag hands the batch over",
        calls: "0 bind array 1\n0 bdata array 4 static_draw 01020304\n0 bsub array 1 aabb\n0 fence 1 gpu 0\n\
            0 cwait 1 1 0\n0 cwait 1 1 0\n0 cwait 1 1 0\n0 cwait 1 1 0\n",
        events: "cc cccc c s c ttttttttttttttttttttttttttttttt c rx c",
        replies: "0 6 ok\n0 7 ok\n0 8 ok\n0 9 ok\n0 10 value TIMEOUT_EXPIRED\n0 11 value TIMEOUT_EXPIRED\n\
            0 12 value TIMEOUT_EXPIRED\n0 13 value ALREADY_SIGNALED\n",
    },
    Poll {
        shows: "a sync of EGL tells the same in its own words",
        calls: "0 bind array 1\n0 bdata array 4 static_draw 01020304\n0 bsub array 1 aabb\n0 esync 1\n\
            0 ewait 1 0 0\n0 ewait 1 1 0\n0 ewait 1 0 0\n0 ewait 1 0 0\n0 ewait 1 1 0\n",
        events: "cc cccc sr c c sr c ttttttttttttttttttttttttttttttt c r c",
        replies: "0 6 ok\n0 7 ok\n0 8 ok\n0 9 ok\n0 10 value TIMEOUT_EXPIRED\n0 11 value TIMEOUT_EXPIRED\n\
            0 12 value TIMEOUT_EXPIRED\n0 13 value TIMEOUT_EXPIRED\n0 14 value CONDITION_SATISFIED\n",
    },
    Poll {
        shows: "a retirement of an earlier batch tells nothing of a later fence",
        calls: "0 fence 1 gpu 0\n0 flush\n0 fence 2 gpu 0\n0 flush\n0 cwait 1 0 0\n0 cwait 2 0 0\n0 cwait 1 0 0\n0 cwait 2 0 0\n",
        events: "cc cccc s tt r c c s tt r c c",
        replies: "0 6 ok\n0 7 ok\n0 8 ok\n0 9 ok\n0 10 value ALREADY_SIGNALED\n0 11 value TIMEOUT_EXPIRED\n\
            0 12 value ALREADY_SIGNALED\n0 13 value ALREADY_SIGNALED\n",
    },
];

// The event that a letter names.
fn event_of(letter: char) -> Option<Event> {
    match letter {
        'c' => Some(Event::Call(0)),
        's' => Some(Event::Submit),
        't' => Some(Event::Turn),
        'r' => Some(Event::Retire),
        'x' => Some(Event::Cleanup([0; 64])),
        _ => None,
    }
}

// Makes the events that these letters name.
fn make_all<D: Device>(world: &mut World<D>, events: &str) -> Result<(), Stop>
    requires { world.old.running ≡ true }
    ensures { OnOk result (world.new.running ≡ true) }
{
    for letter in events.chars() {
        if let Some(event) = event_of(letter) {
            make(world, event)?;
        }
    }
    Ok(())
}

// Whether the calls of a row are answered so on a device.
fn answers<D: Device + Drop>(alloc: Global, row: &Poll, device: D) -> Result<bool, AllocError>
    requires { D.journal device ≡ [] }
{
    let text = joined(alloc, OPENING, row.calls, "end\n")?;
    let want = joined(alloc, OPENED, row.replies, "end\n")?;
    let Ok(trace) = served_trace(alloc, &text) else {
        return Ok(false);
    };
    let mut world = match World::new(alloc, trace, device) {
        Ok(world) => world,
        Err(device) => {
            drop(device);
            return Ok(false);
        }
    };
    match make_all(&mut world, row.events) {
        Ok(()) => match end(alloc, world)? {
            Some(left) => Ok(left.replies.as_slice() == want.as_slice()),
            None => Ok(false),
        },
        Err(_) => {
            let _ = world.finish();
            Ok(false)
        }
    }
}

#[test]
fn syncs_are_told_by_what_is_retired(rt: HostRuntime) -> Result<(), Fail> {
    let alloc = rt.alloc();
    for row in &POLLS {
        assert!(rt;
            answers(alloc, row, FakeDevice::first(alloc))?,
            "{}",
            row.shows
        );
        assert!(rt;
            answers(alloc, row, FakeDevice::last(alloc))?,
            "{}",
            row.shows
        );
        assert!(rt;
            answers(alloc, row, SoftDevice::seeded(alloc, 7))?,
            "{}",
            row.shows
        );
    }
    Ok(())
}
