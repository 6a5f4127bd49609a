use super::gives;
use crate::{Desk, DeskFault, MemDesk, MemSink, Sink, SinkFailed};
use std::alloc::{AllocError, Global};
use std::test::Fail;

type File = (String, Vec<u8>);

fn file(alloc: Global, name: &str, bytes: &[u8]) -> Result<File, AllocError> {
    Ok((
        String::from_str(alloc, name)?,
        Vec::from_slice(alloc, bytes)?,
    ))
}

/// Three files, two of them with one name.
fn files(alloc: Global) -> Result<Vec<File>, AllocError> {
    let mut files = Vec::new(alloc);
    files.push(file(alloc, "a.img", b"first")?)?;
    files.push(file(alloc, "a.img", b"second")?)?;
    files.push(file(alloc, "b.img", b"")?)?;
    Ok(files)
}

#[test]
fn a_desk_gives_the_front_of_the_first_file_with_the_name(rt: HostRuntime) -> Result<(), Fail> {
    let mut desk = MemDesk::of(files(rt.alloc())?, Vec::new(rt.alloc()));
    for (name, most, want) in [
        ("a.img", 9, b"first".as_slice()),
        ("a.img", 5, b"first"),
        ("a.img", 2, b"fi"),
        ("a.img", 0, b""),
        ("b.img", 9, b""),
    ] {
        assert!(rt;
            gives(&mut desk, rt.alloc(), name, most, want),
            "at {name} {most}"
        );
    }
    let answer = desk.read_front(rt.alloc(), "c.img", 9).err();
    assert!(rt; answer == Some(DeskFault::Missing));
    Ok(())
}

#[test]
fn a_desk_fails_at_the_listed_calls(rt: HostRuntime) -> Result<(), Fail> {
    let fails = Vec::from_slice(rt.alloc(), &[2, 3])?;
    let mut desk = MemDesk::of(files(rt.alloc())?, fails);
    for want in [None, Some(DeskFault::Failed), Some(DeskFault::Failed), None] {
        assert_eq!(rt; desk.read_front(rt.alloc(), "a.img", 9).err(), want);
    }
    Ok(())
}

#[test]
fn a_sink_takes_what_there_is_room_for(rt: HostRuntime) -> Result<(), Fail> {
    let fails = Vec::from_slice(rt.alloc(), &[2])?;
    let mut sink = MemSink::of(rt.alloc(), 8, fails).ok().ok_or("no memory")?;
    for (want, written) in [
        (Ok(5), b"lines".as_slice()),
        (Err(SinkFailed), b"lines"),
        (Ok(3), b"lineslin"),
        (Err(SinkFailed), b"lineslin"),
    ] {
        let answer = sink.write(b"lines");
        assert!(rt; answer == want && sink.bytes() == written, "at {want:?}");
    }
    Ok(())
}
