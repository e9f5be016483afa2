// The worked traces on devices of many orders.
ghost use Rattle.std.specs.Prelude.{◌≡◌, []};

use super::rows::ROWS;
use super::running::{OPENED, joined, run_on, trace};
use std::alloc::{AllocError, Global};
use std::test::Fail;
use trace_io::Status;
use vk_device::Device;
use vk_fakes::{FakeDevice, SoftDevice};

// Whether a text is answered by these replies on a device.
fn answers<D: Device + Drop>(
    alloc: Global,
    text: Vec<u8>,
    replies: &[u8],
    device: D,
) -> Result<bool, AllocError>
    requires { D.journal device ≡ [] }
{
    let (status, sink, _) = run_on(alloc, text, device)?;
    Ok(status == Status::Ok && sink.bytes() == replies)
}

#[test]
fn the_first_ready_node_goes_first(rt: HostRuntime) -> Result<(), Fail> {
    let alloc = rt.alloc();
    for row in &ROWS {
        let replies = joined(alloc, OPENED, row.replies, "end\n")?;
        let text = trace(alloc, row.calls)?;
        assert!(rt;
            answers(alloc, text, &replies, FakeDevice::first(alloc))?,
            "{}",
            row.shows
        );
    }
    Ok(())
}

#[test]
fn the_last_ready_node_goes_first(rt: HostRuntime) -> Result<(), Fail> {
    let alloc = rt.alloc();
    for row in &ROWS {
        let replies = joined(alloc, OPENED, row.replies, "end\n")?;
        let text = trace(alloc, row.calls)?;
        assert!(rt;
            answers(alloc, text, &replies, FakeDevice::last(alloc))?,
            "{}",
            row.shows
        );
    }
    Ok(())
}

#[test]
fn a_drawn_ready_node_goes_first(rt: HostRuntime) -> Result<(), Fail> {
    let alloc = rt.alloc();
    for row in &ROWS {
        for seed in 0..10u64 {
            let replies = joined(alloc, OPENED, row.replies, "end\n")?;
            let text = trace(alloc, row.calls)?;
            assert!(rt;
                answers(alloc, text, &replies, SoftDevice::seeded(alloc, seed))?,
                "{} at {seed}",
                row.shows
            );
        }
    }
    Ok(())
}

// A trace of 10,000 calls: a buffer of four bytes is filled, written in part, copied and read 1,250 times.
fn long_trace(alloc: Global) -> Result<(String, String), AllocError> {
    let mut calls = String::new(alloc);
    let mut replies = String::new(alloc);
    let mut line = 6u32;
    for turn in 0..1_250u32 {
        let digit = turn % 10;
        let more = format!(in alloc;
            "0 bind array 1\n0 bdata array 4 static_draw 00000000\n0 bsub array 1 0{digit}0a\n0 bind copy_write 2\n0 bdata copy_write 4 static_draw null\n0 bcopy array copy_write 0 0 4\n0 bmap copy_write 0 4 r\n0 mread copy_write 0 4\n"
        )?;
        calls.push_str(&more)?;
        for _ in 0..7u32 {
            let more = format!(in alloc; "0 {line} ok\n")?;
            replies.push_str(&more)?;
            line = line.wrapping_add(1);
        }
        let more = format!(in alloc; "0 {line} bytes 000{digit}0a00\n")?;
        replies.push_str(&more)?;
        line = line.wrapping_add(1);
    }
    Ok((calls, replies))
}

#[test]
fn a_long_trace_is_answered(rt: HostRuntime) -> Result<(), Fail> {
    let alloc = rt.alloc();
    let (calls, replies) = long_trace(alloc)?;
    let replies = joined(alloc, OPENED, &replies, "end\n")?;
    let text = trace(alloc, &calls)?;
    assert!(rt; answers(alloc, text, &replies, SoftDevice::seeded(alloc, 7))?);
    Ok(())
}
