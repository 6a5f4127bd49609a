ghost use Rattle.std.specs.Prelude.{◌≡◌, ℕ, ◌-◌, ◌^◌, ◌<◌, ◌≤◌, Err, List, None, Option, IfOk};
ghost use Rattle.std.specs.Prelude.{OnErr, length, take, vec_len};
ghost use Rattle.bn_edge.specs.Counts.{CountsFaults, CountsMisses};
ghost use Rattle.bn_edge.specs.Files.{Agrees};
ghost use Rattle.std.specs.Io.{ReadsAtMost};
ghost use Rattle.std.specs.Io.KnownBytes.{Consumes, IsAtEnd, Keeps};
ghost use Rattle.bn_edge.specs.Host.{IsFrontOf};

use crate::counted::counted;
use crate::{Desk, DeskFault};
use std::alloc::Global;
use std::fs;
use std::io::{ErrorKind, Read};
use std::marker::Model;
use std::rt::Files;

/// The host's files. It tells nothing of their content.
#[derive(Drop)]
pub struct FileDesk<'a, R: Files> {
    rt: &'a R,
    misses: u64,
    faults: u64,
}

impl<'a, R: Files> FileDesk<'a, R> {
    /// The files of the current folder, and those that a path leads to.
    pub fn of(rt: &'a R) -> FileDesk<'a, R>
        ensures misses { result.misses ≡ 0 }
        ensures faults { result.faults ≡ 0 }
    {
        FileDesk {
            rt,
            misses: 0,
            faults: 0,
        }
    }
}

impl<R: Files> Desk for FileDesk<'_, R> {
    ghost account = { λ d. record { files = None; misses = d.misses; faults = d.faults } };

    fn read_front(&mut self, alloc: Global, name: &str, most: usize) -> Result<Vec<u8>, DeskFault>
        ensures short { IfOk result (λ bytes. vec_len bytes ≤ most) }
        ensures missed { CountsMisses result self.old.misses self.new.misses }
        ensures failed { CountsFaults result self.old.faults self.new.faults }
        // The bytes are the front of a file that was opened, where the host tells what it holds.
        ensures content { IfOk result (λ bytes. (file : R.File)
            × IsFrontOf (R.File.remaining file) most bytes.items) }
    {
        let answer = read_named(self.rt, alloc, name, most);
        match answer {
            Ok(bytes) => Ok(bytes),
            Err(DeskFault::Missing) => {
                self.misses = counted(self.misses);
                Err(DeskFault::Missing)
            }
            Err(DeskFault::Failed) => {
                self.faults = counted(self.faults);
                Err(DeskFault::Failed)
            }
            Err(DeskFault::Memory) => Err(DeskFault::Memory),
        }
    }
}

/// The front of a file that was opened.
fn read_named<R: Files>(
    rt: &R,
    alloc: Global,
    name: &str,
    most: usize,
) -> Result<Vec<u8>, DeskFault>
    ensures short { IfOk result (λ bytes. vec_len bytes ≤ most) }
    ensures content { IfOk result (λ bytes. (file : R.File)
        × IsFrontOf (R.File.remaining file) most bytes.items) }
{
    match fs::open(rt, name) {
        Ok(mut file) => read_up_to(alloc, &mut file, most),
        Err(error) => Err(fault_of(error.kind())),
    }
}

fn fault_of(kind: ErrorKind) -> DeskFault {
    match kind {
        ErrorKind::NotFound => DeskFault::Missing,
        ErrorKind::OutOfMemory => DeskFault::Memory,
        _ => DeskFault::Failed,
    }
}

const CHUNK: usize = 16384;

/// The first `most` bytes that the file has left, or all where there are fewer.
pub(crate) fn read_up_to<F: Read>(
    alloc: Global,
    file: &mut F,
    most: usize,
) -> Result<Vec<u8>, DeskFault>
    ensures short { IfOk result (λ bytes. vec_len bytes ≤ most) }
    ensures content { IfOk result (λ bytes. IsFrontOf (F.remaining file.old) most bytes.items) }
{
    let mut bytes = Vec::new(alloc);
    while bytes.len() < most {
        let mut chunk = [0; CHUNK];
        let room = CHUNK.min(most - bytes.len());
        let count = read_some(file, &mut chunk[..room])?;
        if count == 0 {
            break;
        }
        if bytes.extend_from_slice(&chunk[..count]).is_err() {
            return Err(DeskFault::Memory);
        }
    }
    Ok(bytes)
}

/// One read, made again where a signal interrupts it.
fn read_some<F: Read>(file: &mut F, room: &mut [u8]) -> Result<usize, DeskFault>
    ensures bound { ReadsAtMost result room.new }
    ensures size { length room.new ≡ length room.old }
    ensures bytes { IfOk result (λ count.
        Consumes (F.remaining file.old) (F.remaining file.new) (take count room.new)) }
    ensures end { IfOk result (λ count.
        count ≡ 0 → 0 < length room.old → IsAtEnd (F.remaining file.new)) }
    ensures failed { OnErr result (result ≡ Err DeskFault.Failed) }
{
    for _attempt in 0..u64::MAX {
        match file.read(room) {
            Ok(count) => return Ok(count),
            Err(error) if error.kind() == ErrorKind::Interrupted => {}
            Err(_) => return Err(DeskFault::Failed),
        }
    }
    Err(DeskFault::Failed)
}
