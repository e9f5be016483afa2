// Sources, sinks and devices that fail.
use super::rows::ROWS;
use super::running::{OPENED, joined, run_on, trace, words};
use std::alloc::{AllocError, Global};
use std::test::Fail;
use trace_io::{MemorySink, MemorySource, Status};
use trace_run::run_once;
use vk_fakes::{FakeDevice, FuseDevice};

fn numbers(alloc: Global, list: &[u64]) -> Result<Vec<u64>, AllocError> {
    Vec::from_slice(alloc, list)
}

#[test]
fn a_failing_source_leaves_no_output(rt: HostRuntime) -> Result<(), Fail> {
    let alloc = rt.alloc();
    let words = words(alloc, &["once", "--seed", "0"])?;
    for call in [1, 2] {
        let text = trace(alloc, ROWS[0].calls)?;
        let mut source = MemorySource::new(text, numbers(alloc, &[call])?);
        let mut sink = MemorySink::new(alloc, 4096, 4096, Vec::new(alloc))?;
        let (status, _) = run_once(
            alloc,
            &words,
            &mut source,
            &mut sink,
            FakeDevice::first(alloc),
        );
        assert!(rt; status == Status::ReadFault);
        assert!(rt; sink.bytes().is_empty());
    }
    Ok(())
}

#[test]
fn a_failing_sink_has_what_it_took(rt: HostRuntime) -> Result<(), Fail> {
    let alloc = rt.alloc();
    let words = words(alloc, &["once", "--seed", "0"])?;
    let replies = joined(alloc, OPENED, ROWS[0].replies, "end\n")?;
    for call in [1, 2, 15, 60] {
        let text = trace(alloc, ROWS[0].calls)?;
        let mut source = MemorySource::new(text, Vec::new(alloc));
        let mut sink = MemorySink::new(alloc, 4096, 1, numbers(alloc, &[call])?)?;
        let (status, _) = run_once(
            alloc,
            &words,
            &mut source,
            &mut sink,
            FakeDevice::first(alloc),
        );
        assert!(rt; status == Status::WriteFault);
        assert!(rt; sink.bytes().len() as u64 + 1 == call);
        assert!(rt; replies.starts_with(sink.bytes()));
    }
    Ok(())
}

// The text without its last line.
fn without_end<'a>(text: &'a [u8], end: &str) -> &'a [u8] {
    match text.strip_suffix(end.as_bytes()) {
        Some(front) => front,
        None => text,
    }
}

#[test]
fn a_lost_device_leaves_the_replies_so_far(rt: HostRuntime) -> Result<(), Fail> {
    let alloc = rt.alloc();
    for row in &ROWS {
        let replies = joined(alloc, OPENED, row.replies, "end\n")?;
        let mut longest = 0;
        let mut is_whole = false;
        for passes in 0..200u64 {
            let text = trace(alloc, row.calls)?;
            let device = FuseDevice::new(FakeDevice::first(alloc), passes);
            let (status, sink, _) = run_on(alloc, text, device)?;
            if status == Status::Ok {
                assert!(rt;
                    sink.bytes() == replies.as_slice(),
                    "{} after {passes}",
                    row.shows
                );
                assert!(rt;
                    longest == without_end(&replies, "end\n").len(),
                    "{}",
                    row.shows
                );
                is_whole = true;
                break;
            }
            let front = without_end(sink.bytes(), "lost\n");
            assert!(rt;
                status == Status::DeviceLost,
                "{} after {passes}",
                row.shows
            );
            assert!(rt;
                front.len() < sink.bytes().len(),
                "{} after {passes}",
                row.shows
            );
            assert!(rt; replies.starts_with(front), "{} after {passes}", row.shows);
            assert!(rt; longest <= front.len(), "{} after {passes}", row.shows);
            longest = front.len();
        }
        assert!(rt; is_whole, "{}", row.shows);
    }
    Ok(())
}
