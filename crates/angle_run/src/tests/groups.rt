// Traces of several threads and share groups: the order of the schedule, replies in any order, and the summary.
ghost use Rattle.std.specs.Prelude.{◌≡◌, []};

use super::running::{joined, run_by, trace};
use std::alloc::{AllocError, Global};
use std::test::Fail;
use trace_io::{MemorySink, Status};
use vk_device::Device;
use vk_fakes::{FakeDevice, FuseDevice, SoftDevice};

// Runs a text by the schedule of a seed.
fn run_seeded<D: Device + Drop>(
    alloc: Global,
    text: &str,
    seed: u64,
    device: D,
) -> Result<(Status, MemorySink), AllocError>
    requires { D.journal device ≡ [] }
{
    let number = format!(in alloc; "{seed}")?;
    let text = joined(alloc, text, "", "")?;
    let (status, sink, _) = run_by(alloc, &["once", "--seed", number.as_str()], text, device)?;
    Ok((status, sink))
}

// Three threads of one group, with two lines that wait.
const ORDERED: &str = "angle-trace 1\nthread 0 group 0\nthread 1 group 0\nthread 2 group 0\nbegin\n\
    0 ecreate 1\n0 ecreate 2\n0 eerror\n\
    1 @6 ecreate 3\n1 ecreate 4\n\
    2 @10 eerror\n2 eerror\nend\n";

// The replies to it in the order of the schedule, which was computed apart from this program.
const ORDERS: [(u64, &str); 4] = [
    (
        0,
        "0 6 ok\n0 7 ok\n0 8 value SUCCESS\n1 9 ok\n1 10 ok\n2 11 value SUCCESS\n2 12 value SUCCESS\n",
    ),
    (
        1,
        "0 6 ok\n1 9 ok\n0 7 ok\n1 10 ok\n0 8 value SUCCESS\n2 11 value SUCCESS\n2 12 value SUCCESS\n",
    ),
    (
        2,
        "0 6 ok\n0 7 ok\n0 8 value SUCCESS\n1 9 ok\n1 10 ok\n2 11 value SUCCESS\n2 12 value SUCCESS\n",
    ),
    (
        3,
        "0 6 ok\n0 7 ok\n1 9 ok\n1 10 ok\n2 11 value SUCCESS\n2 12 value SUCCESS\n0 8 value SUCCESS\n",
    ),
];

#[test]
fn calls_are_made_in_the_order_of_the_schedule(rt: HostRuntime) -> Result<(), Fail> {
    let alloc = rt.alloc();
    for (seed, replies) in ORDERS {
        let want = joined(alloc, "angle-reply 1\ngroup 0\n", replies, "end\n")?;
        let device = SoftDevice::seeded(alloc, seed);
        let (status, sink) = run_seeded(alloc, ORDERED, seed, device)?;
        assert!(rt; status == Status::Ok, "seed {seed}");
        assert!(rt; sink.bytes() == want.as_slice(), "seed {seed}");
    }
    Ok(())
}

// What a trace shows, and its replies, which are the same in each order that its lines allow.
struct Together {
    shows: &'static str,
    text: &'static str,
    replies: &'static str,
}

const TOGETHER: [Together; 6] = [
    Together {
        shows: "numbers of contexts are those of a group, and a declared group without calls has its line",
        text: "angle-trace 1\nthread 0 group 0\nthread 1 group 3\nthread 2 group 6\nbegin\n\
            0 ecreate 1\n1 ecreate 1\n0 ecreate 1\nend\n",
        replies: "angle-reply 1\ngroup 0\n0 6 ok\n0 8 taken\ngroup 3\n1 7 ok\ngroup 6\nend\n",
    },
    Together {
        shows: "what one thread fills another one reads behind it",
        text: "angle-trace 1\nthread 0 group 1\nthread 1 group 1\nbegin\n\
            0 ecreate 1\n0 ecurrent 1\n0 bind array 7\n0 bdata array 4 static_draw 01020304\n\
            0 bsub array 1 aabb\n\
            1 @9 ecreate 2\n1 ecurrent 2\n1 bind copy_read 7\n1 bmap copy_read 0 4 r\n1 mread copy_read 0 4\n\
            1 bunmap copy_read\n\
            0 @15 bdata array 2 static_draw cdef\n\
            1 @16 bmap copy_read 0 2 r\n1 mread copy_read 0 2\nend\n",
        replies: "angle-reply 1\ngroup 1\n0 5 ok\n0 6 ok\n0 7 ok\n0 8 ok\n0 9 ok\n1 10 ok\n1 11 ok\n1 12 ok\n1 13 ok\n\
            1 14 bytes 01aabb04\n1 15 value TRUE\n0 16 ok\n1 17 ok\n1 18 bytes cdef\nend\n",
    },
    Together {
        shows: "a context that one thread lets go of another one takes, with its bindings and its error",
        text: "angle-trace 1\nthread 0 group 7\nthread 1 group 7\nbegin\n\
            0 ecreate 1\n0 ecurrent 1\n0 bind array 1\n0 bdata array 3 static_draw 0a0b0c\n0 bsub array 3 00\n\
            1 @9 ecurrent 1\n1 eerror\n0 @11 ecurrent 0\n\
            1 @12 ecurrent 1\n1 gerror\n1 bmap array 0 3 r\n1 mread array 0 3\nend\n",
        replies: "angle-reply 1\ngroup 7\n0 5 ok\n0 6 ok\n0 7 ok\n0 8 ok\n0 9 err INVALID_VALUE\n\
            1 10 err BAD_ACCESS\n1 11 value BAD_ACCESS\n0 12 ok\n\
            1 13 ok\n1 14 value INVALID_VALUE\n1 15 ok\n1 16 bytes 0a0b0c\nend\n",
    },
    Together {
        shows: "a copy on the device is behind the writes of another context",
        text: "angle-trace 1\nthread 0 group 2\nthread 1 group 2\nbegin\n\
            0 ecreate 1\n0 ecurrent 1\n0 bind copy_write 1\n0 bdata copy_write 4 static_draw 00000000\n0 bsub copy_write 0 0102\n\
            1 @9 ecreate 2\n1 ecurrent 2\n1 bind copy_read 1\n1 bind copy_write 1\n1 bcopy copy_read copy_write 0 2 2\n\
            0 @14 bmap copy_write 0 4 r\n0 mread copy_write 0 4\nend\n",
        replies: "angle-reply 1\ngroup 2\n0 5 ok\n0 6 ok\n0 7 ok\n0 8 ok\n0 9 ok\n1 10 ok\n1 11 ok\n1 12 ok\n1 13 ok\n1 14 ok\n\
            0 15 ok\n0 16 bytes 01020102\nend\n",
    },
    Together {
        shows: "three groups of four threads that wait for each other in turn",
        text: "angle-trace 1\n\
            thread 0 group 1\nthread 1 group 4\nthread 2 group 5\nthread 3 group 1\nthread 4 group 4\nthread 5 group 5\n\
            thread 6 group 1\nthread 7 group 4\nthread 8 group 5\nthread 9 group 1\nthread 10 group 4\nthread 11 group 5\nbegin\n\
            0 ecreate 1\n3 @15 ecreate 1\n6 @16 ecreate 2\n9 @17 ecreate 2\n\
            1 ecreate 1\n4 @19 ecurrent 1\n7 @20 ecurrent 1\n10 @21 eerror\n\
            2 gen buffer 1\n5 @23 eerror\n8 @24 ecurrent 9\n11 @25 ecreate 9\nend\n",
        replies: "angle-reply 1\ngroup 1\n0 15 ok\n3 16 taken\n6 17 ok\n9 18 taken\n\
            group 4\n1 19 ok\n4 20 ok\n7 21 err BAD_ACCESS\n10 22 value SUCCESS\n\
            group 5\n2 23 no-context\n5 24 value SUCCESS\n8 25 err BAD_CONTEXT\n11 26 ok\nend\n",
    },
    Together {
        shows: "fences of one context are asked and waited for by another",
        text: "angle-trace 1\nthread 0 group 2\nthread 1 group 2\nbegin\n\
            0 ecreate 1\n0 ecurrent 1\n0 bind array 1\n0 bdata array 4 static_draw 00000000\n0 bsub array 0 0102\n\
            0 fence 1 gpu 0\n0 finish\n0 fence 2 gpu 0\n\
            1 @12 ecreate 2\n1 ecurrent 2\n1 cwait 1 0 0\n1 cwait 2 0 0\n1 cwait 2 0 1000\n1 swait 1 0 ignored\n\
            1 bind copy_read 1\n1 bmap copy_read 0 4 r\n1 mread copy_read 0 4\n\
            1 delsync 1\n0 @22 cwait 1 0 0\nend\n",
        replies: "angle-reply 1\ngroup 2\n0 5 ok\n0 6 ok\n0 7 ok\n0 8 ok\n0 9 ok\n0 10 ok\n0 11 ok\n0 12 ok\n\
            1 13 ok\n1 14 ok\n1 15 value ALREADY_SIGNALED\n1 16 value TIMEOUT_EXPIRED\n1 17 value CONDITION_SATISFIED\n\
            1 18 ok\n1 19 ok\n1 20 ok\n1 21 bytes 01020000\n1 22 ok\n0 23 value WAIT_FAILED INVALID_VALUE\nend\n",
    },
];

#[test]
fn groups_and_threads_answer_in_any_order(rt: HostRuntime) -> Result<(), Fail> {
    let alloc = rt.alloc();
    for row in &TOGETHER {
        for seed in 0..10u64 {
            let device = SoftDevice::seeded(alloc, seed);
            let (status, sink) = run_seeded(alloc, row.text, seed, device)?;
            assert!(rt; status == Status::Ok, "{} by seed {seed}", row.shows);
            assert!(rt;
                sink.bytes() == row.replies.as_bytes(),
                "{} by seed {seed}",
                row.shows
            );
        }
    }
    Ok(())
}

#[test]
fn a_device_that_is_lost_ends_all_groups(rt: HostRuntime) -> Result<(), Fail> {
    let alloc = rt.alloc();
    for row in &TOGETHER {
        let mut is_whole = false;
        for passes in 0..200u64 {
            let device = FuseDevice::new(FakeDevice::last(alloc), passes);
            let (status, sink) = run_seeded(alloc, row.text, 5, device)?;
            if status == Status::Ok {
                assert!(rt; sink.bytes() == row.replies.as_bytes(), "{}", row.shows);
                is_whole = true;
                break;
            }
            assert!(rt;
                status == Status::DeviceLost,
                "{} after {passes}",
                row.shows
            );
            assert!(rt;
                sink.bytes().ends_with("lost\n".as_bytes()),
                "{} after {passes}",
                row.shows
            );
        }
        assert!(rt; is_whole, "{}", row.shows);
    }
    Ok(())
}

#[test]
fn a_summary_counts_calls_and_objects(rt: HostRuntime) -> Result<(), Fail> {
    let alloc = rt.alloc();
    let text = "angle-trace 1\nthread 0 group 0\nthread 1 group 1\nbegin\n\
        0 ecreate 1\n0 ecurrent 1\n0 bind array 1\n0 bdata array 4 static_draw 01020304\n0 store pack_align 3\n\
        1 ecurrent 9\n1 ecreate 1\n1 ecreate 1\nend\n";
    let want = "angle-reply 1\ngroup 0\n0 5 ok\n0 6 ok\n0 7 ok\n0 8 ok\n0 9 err INVALID_VALUE\n\
        group 1\n1 10 err BAD_CONTEXT\n1 11 ok\n1 12 taken\n\
        summary\ncalls 8\nerrors 2\nuploads 4\nbatches 0\nnodes 0\nbarriers 0\ncreated 1\ndestroyed 1\nend\n";
    for list in [
        &["once", "--seed", "0", "--summary"],
        &["once", "--summary", "--seed", "3"],
    ] {
        let text = joined(alloc, text, "", "")?;
        let (status, sink, _) = run_by(alloc, list, text, FakeDevice::first(alloc))?;
        assert!(rt; status == Status::Ok);
        assert!(rt; sink.bytes() == want.as_bytes());
    }
    Ok(())
}

// What a trace shows, its calls behind the opening, and how its summary ends.
struct Counted {
    shows: &'static str,
    calls: &'static str,
    end: &'static str,
}

const COUNTED: [Counted; 7] = [
    Counted {
        shows: "a copy between new stores has no barrier, the map of its target has one",
        calls: "0 bind copy_read 1\n\
            0 bdata copy_read 4 static_draw 0a0b0c0d\n\
            0 bind copy_write 2\n\
            0 bdata copy_write 4 static_draw null\n\
            0 bcopy copy_read copy_write 0 0 4\n\
            0 bmap copy_write 0 4 r\n\
            0 mread copy_write 0 4\n",
        end: "nodes 1\nbarriers 1\ncreated 2\ndestroyed 2\nend\n",
    },
    Counted {
        shows: "two copies from one buffer: a barrier between their writes, none between their reads",
        calls: "0 bind copy_read 1\n\
            0 bdata copy_read 4 static_draw 01020304\n\
            0 bind copy_write 2\n\
            0 bdata copy_write 8 static_draw 0000000000000000\n\
            0 bcopy copy_read copy_write 0 0 4\n\
            0 bcopy copy_read copy_write 0 4 4\n\
            0 bmap copy_write 0 8 r\n\
            0 mread copy_write 0 8\n",
        end: "nodes 2\nbarriers 2\ncreated 2\ndestroyed 2\nend\n",
    },
    Counted {
        shows: "what was written is made known to the first copy that reads it, and to the second with it",
        calls: "0 bind copy_read 1\n\
            0 bdata copy_read 4 static_draw 01020304\n\
            0 bind copy_write 2\n\
            0 bdata copy_write 4 static_draw null\n\
            0 bcopy copy_read copy_write 0 0 4\n\
            0 bind copy_read 3\n\
            0 bdata copy_read 4 static_draw null\n\
            0 bcopy copy_write copy_read 0 0 4\n\
            0 bind copy_read 4\n\
            0 bdata copy_read 4 static_draw null\n\
            0 bcopy copy_write copy_read 0 0 4\n",
        end: "nodes 3\nbarriers 1\ncreated 4\ndestroyed 4\nend\n",
    },
    Counted {
        shows: "a write behind a read",
        calls: "0 bind copy_read 1\n\
            0 bdata copy_read 4 static_draw 01020304\n\
            0 bind copy_write 2\n\
            0 bdata copy_write 4 static_draw null\n\
            0 bcopy copy_read copy_write 0 0 4\n\
            0 bsub copy_read 1 ff\n",
        end: "nodes 2\nbarriers 1\ncreated 3\ndestroyed 3\nend\n",
    },
    Counted {
        shows: "copies inside one buffer",
        calls: "0 bind copy_read 1\n\
            0 bind copy_write 1\n\
            0 bdata copy_read 8 static_draw 0001020304050607\n\
            0 bcopy copy_read copy_write 0 4 4\n\
            0 bcopy copy_read copy_write 4 0 4\n",
        end: "nodes 2\nbarriers 1\ncreated 1\ndestroyed 1\nend\n",
    },
    Counted {
        shows: "a buffer that no node wrote is mapped without a barrier, one that was mapped before too",
        calls: "0 bind copy_read 1\n\
            0 bdata copy_read 4 static_draw 01020304\n\
            0 bmap copy_read 0 4 r\n\
            0 bunmap copy_read\n\
            0 bsub copy_read 1 ff\n\
            0 bmap copy_read 0 4 r\n\
            0 bunmap copy_read\n\
            0 bmap copy_read 0 4 r\n\
            0 mread copy_read 0 4\n\
            0 bunmap copy_read\n",
        end: "nodes 1\nbarriers 1\ncreated 2\ndestroyed 2\nend\n",
    },
    Counted {
        shows: "a write behind what the host read",
        calls: "0 bind copy_read 1\n\
            0 bdata copy_read 4 static_draw 01020304\n\
            0 bsub copy_read 0 aa\n\
            0 bmap copy_read 0 4 r\n\
            0 mread copy_read 0 4\n\
            0 bunmap copy_read\n\
            0 bsub copy_read 1 bb\n",
        end: "nodes 2\nbarriers 2\ncreated 3\ndestroyed 3\nend\n",
    },
];

#[test]
fn a_summary_counts_the_barriers_that_were_due(rt: HostRuntime) -> Result<(), Fail> {
    let alloc = rt.alloc();
    for row in &COUNTED {
        let text = trace(alloc, row.calls)?;
        let (status, sink, _) = run_by(
            alloc,
            &["once", "--seed", "0", "--summary"],
            text,
            FakeDevice::last(alloc),
        )?;
        assert!(rt; status == Status::Ok, "{}", row.shows);
        assert!(rt; sink.bytes().ends_with(row.end.as_bytes()), "{}", row.shows);
    }
    Ok(())
}

// Two contexts copy from one buffer in turn, each twice, to buffers of their own.
const READ_TOGETHER: &str = "angle-trace 1\nthread 0 group 0\nthread 1 group 0\nbegin\n\
    0 ecreate 1\n0 ecurrent 1\n0 bind copy_read 1\n0 bdata copy_read 4 static_draw 01020304\n\
    0 bind copy_write 2\n0 bdata copy_write 4 static_draw null\n0 bcopy copy_read copy_write 0 0 4\n\
    1 @11 ecreate 2\n1 ecurrent 2\n1 bind copy_read 1\n\
    1 bind copy_write 3\n1 bdata copy_write 4 static_draw null\n1 bcopy copy_read copy_write 0 0 4\n\
    0 @17 bind copy_write 4\n0 bdata copy_write 4 static_draw null\n0 bcopy copy_read copy_write 0 0 4\n\
    1 @20 bind copy_write 5\n1 bdata copy_write 4 static_draw null\n1 bcopy copy_read copy_write 0 0 4\nend\n";

// Each context hands over one batch, at the end: reads of one buffer stand beside each other, without a barrier.
#[test]
fn contexts_read_one_buffer_side_by_side(rt: HostRuntime) -> Result<(), Fail> {
    let alloc = rt.alloc();
    let text = joined(alloc, READ_TOGETHER, "", "")?;
    let (status, sink, _) = run_by(
        alloc,
        &["once", "--seed", "0", "--summary"],
        text,
        FakeDevice::last(alloc),
    )?;
    assert!(rt; status == Status::Ok);
    let counts = "batches 2\nnodes 4\nbarriers 0\ncreated 5\ndestroyed 5\nend\n";
    assert!(rt; sink.bytes().ends_with(counts.as_bytes()));
    Ok(())
}
