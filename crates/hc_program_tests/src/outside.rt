use hc_outside::{
    Failed, MemSink, MemSource, ReadStop, Sink, Source, StdSink, StdSource, read_all, write_all,
};
use std::test::Fail;

const TEXT: &[u8] = b"assign s add(a,b)";

/// A source of the text, in pieces of 8 bytes.
fn text_source(rt: &HostRuntime, failing: &[u64]) -> Result<MemSource, Fail> {
    let bytes = Vec::from_slice(rt.alloc(), TEXT)?;
    let failing = Vec::from_slice(rt.alloc(), failing)?;
    Ok(MemSource::new(bytes, failing, 8))
}

#[test]
fn a_failed_read_takes_no_byte(rt: HostRuntime) -> Result<(), Fail> {
    let mut source = text_source(&rt, &[1])?;
    let mut buf = [b'-'; 64];
    assert_eq!(rt; source.read(&mut buf), Ok(8));
    assert_eq!(rt; &buf[..9], b"assign s-".as_slice());
    assert_eq!(rt; source.read(&mut buf), Err(Failed));
    assert_eq!(rt; source.read(&mut buf), Ok(8));
    assert_eq!(rt; &buf[..9], b" add(a,b-".as_slice());
    assert_eq!(rt; source.read(&mut buf), Ok(1));
    assert_eq!(rt; source.read(&mut buf), Ok(0));
    Ok(())
}

#[test]
fn reads_all_up_to_the_limit(rt: HostRuntime) -> Result<(), Fail> {
    let bytes = read_all(rt.alloc(), &mut text_source(&rt, &[])?, 17)?;
    assert_eq!(rt; bytes.as_slice(), TEXT);
    let long = read_all(rt.alloc(), &mut text_source(&rt, &[])?, 16);
    assert_eq!(rt; long.err(), Some(ReadStop::TooLong));
    let failed = read_all(rt.alloc(), &mut text_source(&rt, &[1])?, 17);
    assert_eq!(rt; failed.err(), Some(ReadStop::Fault));
    Ok(())
}

#[test]
fn writes_what_the_room_holds(rt: HostRuntime) -> Result<(), Fail> {
    let mut sink = MemSink::new(rt.alloc(), 10, Vec::new(rt.alloc()), 4)?;
    assert_eq!(rt; write_all(&mut sink, b"module add ("), Err(Failed));
    assert_eq!(rt; sink.bytes(), b"module add".as_slice());
    let failing = Vec::from_slice(rt.alloc(), &[1])?;
    let mut sink = MemSink::new(rt.alloc(), 12, failing, 4)?;
    assert_eq!(rt; write_all(&mut sink, b"module add ("), Err(Failed));
    assert_eq!(rt; sink.bytes(), b"modu".as_slice());
    assert_eq!(rt; sink.write(b"le add ("), Ok(4));
    Ok(())
}

#[test]
fn reads_and_writes_through_std(rt: HostRuntime) -> Result<(), Fail> {
    let bytes = read_all(rt.alloc(), &mut StdSource::new(TEXT), 17)?;
    assert_eq!(rt; bytes.as_slice(), TEXT);
    let mut written = Vec::new(rt.alloc());
    write_all(&mut StdSink::new(&mut written), TEXT)?;
    assert_eq!(rt; written.as_slice(), TEXT);
    let mut room = [0u8; 6];
    assert_eq!(rt;
        write_all(&mut StdSink::new(&mut room[..]), TEXT),
        Err(Failed)
    );
    assert_eq!(rt; room.as_slice(), b"assign".as_slice());
    Ok(())
}
