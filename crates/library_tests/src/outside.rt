//! Each end once, and the failures that a program can meet.

use inv_outside::{
    CleanSink, CleanSource, Failed, MemSink, MemSource, ReadFault, Sink, StdSink, StdSource,
    read_all, write_all,
};
use std::test::Fail;

const TEXT: &[u8] = b"sixteen letters, and then some more";

#[test]
fn a_source_fails_at_its_second_call(rt: HostRuntime) -> Result<(), Fail> {
    let alloc = rt.alloc();
    let failing = Vec::from_array(alloc, [2])?;
    let mut source = MemSource::new(Vec::from_slice(alloc, TEXT)?, 16, failing);
    assert_eq!(rt; read_all(alloc, &mut source, 100), Err(ReadFault::Failed));
    let rest = read_all(alloc, &mut source, 100)?;
    assert_eq!(rt; rest.as_slice(), &TEXT[16..]);
    Ok(())
}

#[test]
fn one_byte_more_than_the_limit_is_read(rt: HostRuntime) -> Result<(), Fail> {
    let alloc = rt.alloc();
    let mut source = MemSource::new(Vec::from_slice(alloc, TEXT)?, 3, Vec::new(alloc));
    let front = read_all(alloc, &mut source, 10)?;
    assert_eq!(rt; front.as_slice(), &TEXT[..11]);
    let rest = read_all(alloc, &mut source, TEXT.len())?;
    assert_eq!(rt; rest.as_slice(), &TEXT[11..]);
    Ok(())
}

#[test]
fn a_sink_fails_once_it_is_full(rt: HostRuntime) -> Result<(), Fail> {
    let alloc = rt.alloc();
    let mut sink = MemSink::new(alloc, 10, Vec::new(alloc), 3)?;
    assert_eq!(rt; write_all(&mut sink, b"abcd"), Err(Failed));
    assert_eq!(rt; sink.taken(), b"abc".as_slice());
    assert_eq!(rt; sink.write(b"d"), Err(Failed));
    Ok(())
}

#[test]
fn a_sink_fails_at_its_second_call(rt: HostRuntime) -> Result<(), Fail> {
    let alloc = rt.alloc();
    let mut sink = MemSink::new(alloc, 2, Vec::from_array(alloc, [2])?, 100)?;
    assert_eq!(rt; write_all(&mut sink, b"abcde"), Err(Failed));
    assert_eq!(rt; sink.taken(), b"ab".as_slice());
    assert_eq!(rt; write_all(&mut sink, b"cde"), Ok(()));
    assert_eq!(rt; sink.taken(), b"abcde".as_slice());
    Ok(())
}

// That a clean source and a clean sink never fail is proved: the arms cannot be reached.
#[test]
fn clean_ends_never_fail(rt: HostRuntime) -> Result<(), Fail> {
    let alloc = rt.alloc();
    let mut source = CleanSource::new(Vec::from_slice(alloc, TEXT)?);
    let bytes = match read_all(alloc, &mut source, 100) {
        Ok(bytes) => bytes,
        Err(ReadFault::Failed) => unreachable!(),
        Err(fault @ ReadFault::Memory) => return Err(fault.into()),
    };
    assert_eq!(rt; bytes.as_slice(), TEXT);
    let mut sink = CleanSink::new(alloc, 100)?;
    match write_all(&mut sink, &bytes) {
        Ok(()) => {}
        Err(Failed) => unreachable!(),
    }
    assert_eq!(rt; sink.taken(), Some(TEXT));
    Ok(())
}

#[test]
fn a_clean_sink_past_its_room_tells_nothing(rt: HostRuntime) -> Result<(), Fail> {
    let alloc = rt.alloc();
    let mut sink = CleanSink::new(alloc, 3)?;
    assert_eq!(rt; sink.write(b"ab"), Ok(2));
    assert_eq!(rt; sink.taken(), Some(b"ab".as_slice()));
    assert_eq!(rt; sink.write(b"cd"), Ok(2));
    assert!(rt; sink.taken().is_none());
    assert_eq!(rt; sink.write(b"e"), Ok(1));
    assert!(rt; sink.taken().is_none());
    Ok(())
}

#[test]
fn readers_and_writers_of_std_serve(rt: HostRuntime) -> Result<(), Fail> {
    let alloc = rt.alloc();
    let mut source = StdSource::new(TEXT);
    let bytes = read_all(alloc, &mut source, 100)?;
    assert_eq!(rt; bytes.as_slice(), TEXT);
    let mut out = Vec::new(alloc);
    write_all(&mut StdSink::new(&mut out), &bytes)?;
    assert_eq!(rt; out.as_slice(), TEXT);
    Ok(())
}
