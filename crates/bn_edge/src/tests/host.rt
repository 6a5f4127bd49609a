use super::gives;
use crate::file_desk::read_up_to;
use crate::{Desk, DeskFault, FileDesk, OutSink, Sink, SinkFailed};
use std::alloc::{AllocError, Global};
use std::cell::Cell;
use std::fmt::Display;
use std::io::{ErrorKind, Read};
use std::rt::Files;
use std::test::Fail;
use std::{fs, io};

/// More bytes than one read of a file asks for, with a period that no power of two is a multiple
/// of.
fn pattern(alloc: Global) -> Result<Vec<u8>, AllocError> {
    let mut bytes = Vec::new(alloc);
    for number in 0..40_000u32 {
        bytes.push((number % 251) as u8)?;
    }
    Ok(bytes)
}

/// Writes the pattern to a file, and gives it.
fn written<R: Files>(rt: &R, alloc: Global, name: &str) -> Result<Vec<u8>, Fail> {
    let bytes = pattern(alloc)?;
    fs::write(rt, name, bytes.as_slice())?;
    Ok(bytes)
}

#[test]
fn the_front_of_a_file_or_all_of_it_is_read(rt: HostRuntime) -> Result<(), Fail> {
    let bytes = written(&rt, rt.alloc(), "edge-front")?;
    let start = bytes.get(..33_000).unwrap_or(&[]);
    let mut desk = FileDesk::of(&rt);
    let front = gives(&mut desk, rt.alloc(), "edge-front", 33_000, start);
    let whole = gives(&mut desk, rt.alloc(), "edge-front", 50_000, &bytes);
    let _removed = fs::remove_file(&rt, "edge-front");
    assert!(rt; front);
    assert!(rt; whole);
    Ok(())
}

#[test]
fn a_missing_file_is_no_fault_of_the_desk(rt: HostRuntime) -> Result<(), Fail> {
    fs::write(&rt, "edge-file", b"a file")?;
    let mut desk = FileDesk::of(&rt);
    let through = desk.read_front(rt.alloc(), "edge-file/inner", 1).err();
    let _removed = fs::remove_file(&rt, "edge-file");
    let gone = desk.read_front(rt.alloc(), "edge-file", 1).err();
    assert!(rt; through == Some(DeskFault::Failed));
    assert!(rt; gone == Some(DeskFault::Missing));
    Ok(())
}

#[test]
fn a_name_is_taken_as_it_is(rt: HostRuntime) -> Result<(), Fail> {
    fs::write(&rt, "edge-name", b"plain")?;
    fs::write(&rt, "edge-name ", b"spaced")?;
    let mut desk = FileDesk::of(&rt);
    let spaced = gives(&mut desk, rt.alloc(), "edge-name ", 9, b"spaced");
    let _removed = fs::remove_file(&rt, "edge-name");
    let _removed_too = fs::remove_file(&rt, "edge-name ");
    assert!(rt; spaced);
    Ok(())
}

/// A file that gives so many bytes a read, and that a signal interrupts before each.
#[derive(Drop)]
struct Slow<'a> {
    bytes: &'a [u8],
    most: usize,
    interrupts: bool,
}

impl Read for Slow<'_> {
    fn read(&mut self, room: &mut [u8]) -> io::Result<usize> {
        self.interrupts = !self.interrupts;
        if self.interrupts {
            return Err(io::Error::from(ErrorKind::Interrupted));
        }
        let count = self.most.min(room.len()).min(self.bytes.len());
        room[..count].copy_from_slice(&self.bytes[..count]);
        self.bytes = &self.bytes[count..];
        Ok(count)
    }
}

#[test]
fn short_and_interrupted_reads_go_on(rt: HostRuntime) -> Result<(), Fail> {
    for (most, want) in [
        (0, b"".as_slice()),
        (5, b"bytes"),
        (7, b"bytes o"),
        (99, b"bytes of a file"),
    ] {
        let mut file = Slow {
            bytes: b"bytes of a file",
            most: 2,
            interrupts: false,
        };
        let front = read_up_to(rt.alloc(), &mut file, most)?;
        assert!(rt; front.as_slice() == want, "at {most}");
    }
    Ok(())
}

#[test]
fn a_folder_is_a_fault(rt: HostRuntime) {
    let answer = FileDesk::of(&rt).read_front(rt.alloc(), ".", 1);
    assert!(rt; answer.err() == Some(DeskFault::Failed));
}

#[test]
fn standard_output_takes_a_line(rt: HostRuntime) {
    let mut sink = OutSink::of(&rt);
    assert!(rt; sink.write(b"out 2 0 41\n") == Ok(11));
}

/// A printer that takes so many bytes a call, or fails where that is None. Signals interrupt its
/// first calls.
#[derive(Drop)]
struct Printer {
    room: Option<usize>,
    taken: Cell<usize>,
    interrupts: Cell<u32>,
}

impl Print for Printer {
    fn print<D: Display + Drop>(&self, _value: D) -> io::Result<()> {
        Err(io::Error::from(ErrorKind::Unsupported))
    }

    fn println<D: Display + Drop>(&self, _value: D) -> io::Result<()> {
        Err(io::Error::from(ErrorKind::Unsupported))
    }

    fn write_all(&self, _bytes: &[u8]) -> io::Result<()> {
        Err(io::Error::from(ErrorKind::Unsupported))
    }

    fn write_some(&self, bytes: &[u8]) -> io::Result<usize> {
        let interrupts = self.interrupts.get();
        if interrupts > 0 {
            self.interrupts.set(interrupts - 1);
            return Err(io::Error::from(ErrorKind::Interrupted));
        }
        match self.room {
            Some(room) => {
                let count = room.min(bytes.len());
                self.taken.set(self.taken.get().saturating_add(count));
                Ok(count)
            }
            None => Err(io::Error::from(ErrorKind::BrokenPipe)),
        }
    }
}

/// What a sink answers over such a printer, and how many bytes that took.
fn answer_of(room: Option<usize>) -> (Result<usize, SinkFailed>, usize) {
    let printer = Printer {
        room,
        taken: Cell::new(0),
        interrupts: Cell::new(3),
    };
    let answer = OutSink::of(&printer).write(b"lines");
    (answer, printer.taken.get())
}

#[test]
fn an_answer_counts_what_standard_output_took(rt: HostRuntime) {
    for (room, want) in [
        (Some(2), (Ok(2), 2)),
        (Some(9), (Ok(5), 5)),
        (Some(0), (Err(SinkFailed), 0)),
        (None, (Err(SinkFailed), 0)),
    ] {
        assert!(rt; answer_of(room) == want, "at {room:?}");
    }
}
