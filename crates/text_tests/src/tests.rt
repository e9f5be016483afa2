use cells::Bytes;
use formats::{EglError, FbStatus};
use gl_calls::{Call, Entry, GlError, NameList, Reply, Waited};
use std::test::Fail;
use trace_text::{Counts, GroupHistory, ParseStop, Tail, parse, render};

const ROUND_TRIP: &str =
    "angle-trace 1\nthread 0 group 0\nbegin\n0 ecreate 1\n0 ecurrent 1\n0 bind copy_read 1\n0 bdata copy_read 4 static_draw 01020304\n0 bmap copy_read 0 4 r\n0 mread copy_read 0 4\n0 bunmap copy_read\nend\n";

const EACH_CALL: &str =
    "angle-trace 1\nthread 0 group 0\nthread 1 group 7\n# two share groups\n\nbegin\n0 ecreate 1\n0 edestroy 0\n0 ecurrent 1\n0 eerror\n0 esync 65535\n0 ewait 1 0 18446744073709551615\n0 edelsync 0\n0 gerror\n0 get max_draw_buffers\n0 gen texture -1\n0 del framebuffer 4294967295\n0 bind read_fb 1\n0 bdata array 2 dynamic_copy 0a0b\n0 bsub other -9223372036854775808 -\n0 bcopy copy_read copy_write 0 1 2\n0 bmap pixel_pack 0 4 rwiIufx\n0 bflush array 0 1\n0 bunmap array\n0 mread array 0 1\n0 mwrite array 0 %4,250,3\n0 tstorage 0 rgb10_a2ui 2 -2\n0 tsub 0 0 1 1 rgba_integer unsigned_int_2_10_10_10_rev +16\n0 tcopy 0 0 0 0 1 1\n0 rstorage rg8ui 3 2\n0 attach draw_fb c3 renderbuffer 1\n0 status framebuffer\n0 drawbufs c0 none other\n0 readbuf none\n0 clearu 0 1 2 3 4\n0 cleari 0 -1 2 -3 4\n0 scissor on\n0 scissorbox 0 0 8 8\n0 blit 0 0 5 1 3 0 0 1 color nearest\n0 inval read_fb c1\n0 readpix 0 0 1 1 red_integer byte client\n0 store unpack_skip_pixels 3\n0 fence 1 gpu 0\n0 cwait 1 1 0\n0 swait 1 0 ignored\n0 delsync 1\n0  @7 flush\n1 finish\nend";

const FAULTS_OF_A_CALL: [(&str, u8); 26] = [
    ("0 bind copy_read\t1", 1),
    ("0 draw 1", 2),
    ("0", 2),
    ("0 @5 @5 flush", 2),
    ("0 bind blob 1", 2),
    ("0 bind blob 1 2", 3),
    ("0 drawbufs c0 c1 c2 c3 c0", 3),
    ("0 bind copy_read 01", 4),
    ("0 bind copy_read -0", 4),
    ("0 bind copy_read 4294967296", 4),
    ("0 tstorage 2 r8ui 4 x", 4),
    ("0 esync 0", 4),
    ("0 tsub 0 0 1 1 red_integer byte +", 4),
    ("0 bdata array 2 static_draw 0a0B", 5),
    ("0 bsub array 0 %67108865,0,1", 5),
    ("0 bsub array 0 ", 5),
    ("0 bmap array 0 4 rr", 2),
    ("7 flush", 6),
    ("0 @9 draw", 7),
    ("0 @3 flush", 7),
    ("0 @6 flush", 7),
    ("0 tstorage 2 r8ui 4 4", 7),
    ("0 gen buffer 65", 7),
    ("0 readpix 0 0 2147483647 2147483647 other other client", 8),
    ("0 bdata array 3 static_draw 0a0b", 9),
    ("0 bdata array -1 static_draw -", 9),
];

const FAULTS_OF_A_TEXT: [(&str, u32, u8); 15] = [
    ("", 1, 2),
    ("angle-trace 2\n", 1, 2),
    ("angle-trace 1\n", 2, 2),
    ("#\n\nangle-trace 1\nbegin\n0 flush\nend\n", 5, 6),
    ("angle-trace 1\nthread 1 group 0\n", 2, 7),
    ("angle-trace 1\nthread 0 group 8\n", 2, 7),
    ("angle-trace 1\nthread 00 group 0\n", 2, 2),
    ("angle-trace 1\nthread  0 group 0\n", 2, 2),
    ("angle-trace 1\nbegin\nend \n", 3, 2),
    ("angle-trace 1\nbegin\n end\n", 3, 6),
    ("angle-trace 1\nbegin\nbegin\n", 3, 6),
    ("angle-trace 1\nbegin\nend\nend\n", 4, 2),
    ("angle-trace 1\nbegin\nend\n#\n\r\n", 5, 1),
    (
        "angle-trace 1\nthread 0 group 0\nthread 1 group 1\nbegin\n0 flush\n1 @5 flush\nend\n",
        6,
        7,
    ),
    (
        "angle-trace 1\nthread 0 group 0\nbegin\n# an earlier line without a call\n0 @4 flush\nend\n",
        5,
        7,
    ),
];

fn stop_of(rt: &HostRuntime, text: &[u8]) -> Option<ParseStop> {
    parse(rt.alloc(), text).err()
}

#[test]
fn accepts_each_call(rt: HostRuntime) -> Result<(), Fail> {
    let trace = parse(rt.alloc(), EACH_CALL.as_bytes())?;
    let [first, second] = trace.threads.as_slice() else {
        return Err(Fail::from("another number of threads"));
    };
    assert_eq!(rt; (first.group, second.group), (0, 7));
    assert_eq!(rt; (first.lines.len(), second.lines.len()), (41, 1));
    let [.., flush] = first.lines.as_slice() else {
        return Err(Fail::from("no line"));
    };
    assert_eq!(rt; (flush.number, flush.after), (47, Some(7)));
    Ok(())
}

#[test]
fn finds_the_first_fault(rt: HostRuntime) -> Result<(), Fail> {
    for (line, kind) in FAULTS_OF_A_CALL {
        let text = format!(in rt.alloc();
            "angle-trace 1\nthread 0 group 0\nbegin\n0 ecreate 1\n0 ecurrent 1\n{line}\nend\n"
        )?;
        assert_eq!(rt;
            stop_of(&rt, text.as_bytes()),
            Some(ParseStop::Fault { line: 6, kind }),
            "at {line}"
        );
    }
    for (text, line, kind) in FAULTS_OF_A_TEXT {
        assert_eq!(rt;
            stop_of(&rt, text.as_bytes()),
            Some(ParseStop::Fault { line, kind }),
            "at {text}"
        );
    }
    Ok(())
}

#[test]
fn a_cut_text_is_refused(rt: HostRuntime) -> Result<(), Fail> {
    let text = ROUND_TRIP.as_bytes();
    for len in 0..text.len() {
        let is_accepted = parse(rt.alloc(), &text[..len]).is_ok();
        assert_eq!(rt; is_accepted, len + 1 == text.len(), "cut after {len} bytes");
    }
    assert_eq!(rt; parse(rt.alloc(), text)?.threads.len(), 1);
    Ok(())
}

#[test]
fn costs_are_summed(rt: HostRuntime) -> Result<(), Fail> {
    let opening = "angle-trace 1\nthread 0 group 0\nbegin\n0 ecreate 1\n0 ecurrent 1\n";
    let line = "0 bdata array 67108864 static_draw null\n";
    let four = format!(in rt.alloc(); "{opening}{line}{line}{line}{line}end\n")?;
    assert_eq!(rt; parse(rt.alloc(), four.as_bytes())?.threads.len(), 1);
    let five = format!(in rt.alloc(); "{opening}{line}{line}{line}{line}{line}end\n")?;
    assert_eq!(rt;
        stop_of(&rt, five.as_bytes()),
        Some(ParseStop::Fault { line: 10, kind: 8 })
    );
    Ok(())
}

fn entry(line: u32, reply: Reply) -> Entry {
    Entry {
        thread: 0,
        line,
        call: Call::Flush,
        reply,
    }
}

#[test]
fn replies_are_written(rt: HostRuntime) -> Result<(), Fail> {
    let mut entries = Vec::new(rt.alloc());
    entries.push(entry(4, Reply::Done))?;
    entries.push(entry(5, Reply::GlFault(GlError::InvalidEnum)))?;
    entries.push(entry(6, Reply::EglFault(EglError::BadAccess)))?;
    entries.push(entry(7, Reply::NoContext))?;
    entries.push(entry(8, Reply::NoMap))?;
    entries.push(entry(9, Reply::BadPointer))?;
    entries.push(entry(10, Reply::Taken))?;
    entries.push(entry(11, Reply::Names(NameList::of([7, 10].to_vec(rt.alloc())?))))?;
    entries.push(entry(12, Reply::Names(NameList::of(Vec::new(rt.alloc())))))?;
    entries.push(entry(13, Reply::Bytes(Bytes::copy_of(rt.alloc(), &[0, 10, 255])?)))?;
    entries.push(entry(14, Reply::Bytes(Bytes::copy_of(rt.alloc(), &[])?)))?;
    entries.push(entry(15, Reply::Status(FbStatus::IncompleteMissingAttachment)))?;
    entries.push(entry(16, Reply::True))?;
    entries.push(entry(17, Reply::Limit(2048)))?;
    entries.push(entry(18, Reply::Waited(Waited::TimeoutExpired)))?;
    entries.push(entry(19, Reply::WaitFailed))?;
    entries.push(entry(20, Reply::EglFlag(EglError::Success)))?;
    let mut groups = Vec::new(rt.alloc());
    groups.push(GroupHistory { group: 0, entries })?;
    groups.push(GroupHistory {
        group: 7,
        entries: Vec::new(rt.alloc()),
    })?;
    let text = render(rt.alloc(), groups.as_slice(), Tail::Lost)?;
    assert_eq!(rt;
        text.as_slice(),
        b"angle-reply 1\ngroup 0\n0 4 ok\n0 5 err INVALID_ENUM\n0 6 err BAD_ACCESS\n0 7 no-context\n0 8 no-map\n0 9 bad-pointer\n0 10 taken\n0 11 names 7 10\n0 12 names\n0 13 bytes 000aff\n0 14 bytes -\n0 15 status INCOMPLETE_MISSING_ATTACHMENT\n0 16 value TRUE\n0 17 value 2048\n0 18 value TIMEOUT_EXPIRED\n0 19 value WAIT_FAILED INVALID_VALUE\n0 20 value SUCCESS\ngroup 7\nlost\n".as_slice()
    );
    Ok(())
}

#[test]
fn a_summary_stands_before_the_end(rt: HostRuntime) -> Result<(), Fail> {
    let counts = Counts {
        calls: 9,
        errors: 1,
        uploads: 4,
        batches: 2,
        nodes: 3,
        barriers: 5,
        created: 6,
        destroyed: 6,
    };
    let text = render(rt.alloc(), &[], Tail::Summary(counts))?;
    assert_eq!(rt;
        text.as_slice(),
        b"angle-reply 1\nsummary\ncalls 9\nerrors 1\nuploads 4\nbatches 2\nnodes 3\nbarriers 5\ncreated 6\ndestroyed 6\nend\n".as_slice()
    );
    Ok(())
}
