use std::str;
use std::test::Fail;
use trace_gen::generate;
use trace_text::parse;

const FIRST_THREAD: &str =
    "angle-trace 1\nthread 0 group 0\nthread 1 group 0\nthread 2 group 1\nthread 3 group 1\nbegin\n0 ecreate 1\n0 ecurrent 1\n0 bind copy_read 1\n0 bdata copy_read 256 dynamic_draw %256,0,1\n0 bind copy_write 2\n0 bdata copy_write 256 dynamic_draw %256,0,0\n0 bind texture 1\n0 tstorage 1 rgba8ui 32 32\n0 bind renderbuffer 1\n0 rstorage rgba8ui 32 32\n0 bind framebuffer 1\n0 attach framebuffer c0 renderbuffer 1\n0 clearu 0 1 2 3 4\n0 bind draw_fb 2\n0 attach draw_fb c0 texture 1\n0 clearu 0 0 0 0 0\n1 ecreate 2\n";

// The first two rounds of the trace of 7, as another program made them.
const TWO_ROUNDS: &str =
    "3 clearu 0 0 0 0 0\n0 bind read_fb 2\n0 readpix 14 14 2 2 rgba_integer unsigned_byte client\n0 bind read_fb 1\n1 tsub 14 14 4 4 rgba_integer unsigned_byte %64,126,1\n2 tsub 4 4 4 4 rgba_integer unsigned_byte %64,104,1\n3 bsub copy_read 81 %16,8,1\n0 blit 0 0 16 16 9 9 32 32 color nearest\n1 clearu 0 2 2 2 2\n2 bsub copy_read 115 %16,14,1\n3 bsub copy_read 197 %16,1,1\n";

const LAST_THREAD: &str =
    "3 finish\n3 bmap copy_write 0 256 r\n3 mread copy_write 0 256\n3 bunmap copy_write\nend\n";

#[test]
fn makes_the_trace_of_seven(rt: HostRuntime) -> Result<(), Fail> {
    let bytes = generate(rt.alloc(), 7)?;
    let Ok(text) = str::from_utf8(&bytes) else {
        return Err(Fail::from("no text"));
    };
    assert_eq!(rt; (text.len(), text.lines().count()), (90690, 2745));
    assert!(rt; text.starts_with(FIRST_THREAD));
    assert!(rt; text.contains(TWO_ROUNDS));
    assert!(rt; text.ends_with(LAST_THREAD));
    assert!(rt; generate(rt.alloc(), 7)? == bytes);
    assert!(rt; generate(rt.alloc(), 8)? != bytes);
    Ok(())
}

#[test]
fn is_a_trace_of_four_threads(rt: HostRuntime) -> Result<(), Fail> {
    let text = generate(rt.alloc(), 7)?;
    let trace = parse(rt.alloc(), &text)?;
    let [first, second, third, fourth] = trace.threads.as_slice() else {
        return Err(Fail::from("another number of threads"));
    };
    let groups = [first.group, second.group, third.group, fourth.group];
    assert_eq!(rt; groups, [0, 0, 1, 1]);
    let calls = [
        first.lines.len(),
        second.lines.len(),
        third.lines.len(),
        fourth.lines.len(),
    ];
    assert_eq!(rt; calls, [670, 660, 712, 696]);
    Ok(())
}
