// Texts that are refused, texts without calls, and commands.
use super::running::{joined, run_on, trace, words};
use std::alloc::{AllocError, Global};
use std::test::Fail;
use trace_io::{MemorySink, MemorySource, Status};
use trace_run::run_once;
use vk_fakes::FakeDevice;

// What is written for a text.
fn written(alloc: Global, text: Vec<u8>) -> Result<(Status, MemorySink), AllocError> {
    let (status, sink, _) = run_on(alloc, text, FakeDevice::first(alloc))?;
    Ok((status, sink))
}

#[test]
fn a_text_without_threads_has_no_replies(rt: HostRuntime) -> Result<(), Fail> {
    let alloc = rt.alloc();
    let text = joined(alloc, "angle-trace 1\n", "begin\n", "end\n")?;
    let (status, sink) = written(alloc, text)?;
    assert!(rt; status == Status::Ok);
    assert!(rt; sink.bytes() == "angle-reply 1\nend\n".as_bytes());
    Ok(())
}

#[test]
fn a_text_that_is_cut_is_refused(rt: HostRuntime) -> Result<(), Fail> {
    let alloc = rt.alloc();
    let cases = [
        (
            "0 bind copy_read 1\n0 bdata copy_read 4 static_draw 01020",
            7,
            5,
        ),
        (
            "0 bind copy_read 1\n0 bdata copy_read 4 static_draw 010203",
            7,
            9,
        ),
        (
            "0 bind copy_read 1\n0 bdata copy_read 4 static_draw 01020304\n0 bmap copy_read 0 4 r\n0 mread copy_read 0 4\n",
            10,
            2,
        ),
    ];
    for (calls, line, kind) in cases {
        let text = joined(alloc, super::running::OPENING, calls, "")?;
        let (status, sink) = written(alloc, text)?;
        let want = format!(in alloc; "angle-reply 1\nrefused {line} {kind}\n")?;
        assert!(rt; status == Status::Trace { line, kind }, "{calls}");
        assert!(rt; sink.bytes() == want.as_bytes(), "{calls}");
    }
    Ok(())
}

#[test]
fn a_call_that_is_not_built_is_refused_at_its_line(rt: HostRuntime) -> Result<(), Fail> {
    let alloc = rt.alloc();
    let cases = [
        ("0 bind array 1\n0 bind texture 1\n0 flush\n", 7),
        ("0 gen texture 1\n", 6),
        ("# a remark\n\n0 status framebuffer\n", 8),
    ];
    for (calls, line) in cases {
        let (status, sink) = written(alloc, trace(alloc, calls)?)?;
        let want = format!(in alloc; "angle-reply 1\nrefused {line} 10\n")?;
        assert!(rt; status == Status::Trace { line, kind: 10 }, "{calls}");
        assert!(rt; sink.bytes() == want.as_bytes(), "{calls}");
    }
    Ok(())
}

#[test]
fn other_words_get_the_usage(rt: HostRuntime) -> Result<(), Fail> {
    let alloc = rt.alloc();
    let usage = "usage: angle_run once --seed N [--summary] | threads --workers N | gen N\n";
    let cases: [&[&str]; 5] = [
        &[],
        &["once"],
        &["once", "--seed", "01"],
        &["once", "--seed", "1", "--seed", "1"],
        &["gen", "--", "1"],
    ];
    for list in cases {
        let words = words(alloc, list)?;
        let mut source = MemorySource::new(trace(alloc, "")?, Vec::new(alloc));
        let mut sink = MemorySink::new(alloc, 4096, 4096, Vec::new(alloc))?;
        let (status, _) = run_once(
            alloc,
            &words,
            &mut source,
            &mut sink,
            FakeDevice::first(alloc),
        );
        assert!(rt; status == Status::Usage);
        assert!(rt; sink.bytes() == usage.as_bytes());
    }
    Ok(())
}

// What is not built yet is refused in a trace that is made, too: its seventh call of thread 0 binds a texture. The source fails at its
// first read, and is not read.
#[test]
fn a_made_trace_is_run_without_a_source(rt: HostRuntime) -> Result<(), Fail> {
    let alloc = rt.alloc();
    for number in ["0", "7", "18446744073709551615"] {
        let words = words(alloc, &["gen", number])?;
        let mut source = MemorySource::new(Vec::new(alloc), Vec::from_slice(alloc, &[1])?);
        let mut sink = MemorySink::new(alloc, 4096, 4096, Vec::new(alloc))?;
        let (status, _) = run_once(
            alloc,
            &words,
            &mut source,
            &mut sink,
            FakeDevice::first(alloc),
        );
        assert!(rt; status == Status::Trace { line: 13, kind: 10 }, "{number}");
        assert!(rt;
            sink.bytes() == "angle-reply 1\nrefused 13 10\n".as_bytes(),
            "{number}"
        );
    }
    Ok(())
}
