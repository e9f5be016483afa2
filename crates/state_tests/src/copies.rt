use cells::Bytes;
use gl_calls::{
    AttachPoint, BufferTarget, Call, DrawBuffer, DrawBufferList, Entry, NameList, Payload,
    PixelSource, Reply, Usage,
};
use std::alloc::Global;
use std::test::Fail;

fn entry(alloc: Global) -> Result<Entry, Fail> {
    Ok(Entry {
        thread: 2,
        line: 9,
        call: Call::BufferData {
            target: BufferTarget::CopyRead,
            size: 3,
            usage: Usage::StaticDraw,
            payload: Some(Payload::Literal(Bytes::copy_of(alloc, &[1, 2, 3])?)),
        },
        reply: Reply::Bytes(Bytes::copy_of(alloc, &[7])?),
    })
}

#[test]
fn a_copy_is_equal(rt: HostRuntime) -> Result<(), Fail> {
    let entry = entry(rt.alloc())?;
    let copy = entry.copy(rt.alloc())?;
    assert_eq!(rt; (copy.thread, copy.line), (2, 9));
    let Call::BufferData { size, payload, .. } = &copy.call else {
        return Err(Fail::from("another call"));
    };
    assert_eq!(rt; *size, 3);
    let Some(Payload::Literal(bytes)) = payload else {
        return Err(Fail::from("another payload"));
    };
    assert_eq!(rt; bytes.as_slice(), [1, 2, 3].as_slice());
    let Reply::Bytes(bytes) = &copy.reply else {
        return Err(Fail::from("another reply"));
    };
    assert_eq!(rt; bytes.as_slice(), [7].as_slice());
    Ok(())
}

#[test]
fn lists_are_copied(rt: HostRuntime) -> Result<(), Fail> {
    let names = NameList::of([4, 5].to_vec(rt.alloc())?);
    assert_eq!(rt;
        names.copy(rt.alloc())?.into_vec().as_slice(),
        [4, 5].as_slice()
    );
    let buffers = [DrawBuffer::Point(AttachPoint::C0), DrawBuffer::None];
    let list = DrawBufferList::of(buffers.to_vec(rt.alloc())?);
    let copy = list.copy(rt.alloc())?;
    assert_eq!(rt; copy.as_slice(), buffers.as_slice());
    assert_eq!(rt; copy.into_vec().len(), 2);
    Ok(())
}

#[test]
fn a_ramp_starts_again_after_255(rt: HostRuntime) -> Result<(), Fail> {
    let ramp = Payload::Ramp {
        len: 4,
        start: 250,
        step: 3,
    };
    let bytes = ramp.bytes(rt.alloc())?;
    assert_eq!(rt; bytes.as_slice(), [250, 253, 0, 3].as_slice());
    let source = PixelSource::Client {
        payload: ramp.copy(rt.alloc())?,
    };
    let PixelSource::Client { payload } = source.copy(rt.alloc())? else {
        return Err(Fail::from("another source"));
    };
    assert_eq!(rt; payload.len(), 4);
    Ok(())
}
