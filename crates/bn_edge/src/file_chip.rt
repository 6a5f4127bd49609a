ghost use Rattle.std.specs.Prelude.{◌≡◌, ℕ, None};

use crate::counted::counted;
use crate::folder::sync_folder;
use crate::{Chip, ChipFailed};
use std::fs::OpenFile;
use std::io::{ErrorKind, Read, Write};
use std::rt::Files;
use std::{fs, io};

const NAME: &str = "bastion.reg";

const NEW_NAME: &str = "bastion.reg.new";

/// The file `bastion.reg` of the current folder. A missing file is 32 zeros. A set writes a new
/// file, puts it on the disk and renames it. It tells nothing of the register.
#[derive(Drop)]
pub struct FileChip<'a, R: Files> {
    rt: &'a R,
    faults: u64,
}

impl<'a, R: Files> FileChip<'a, R> {
    /// The register's file, which isn't opened yet.
    pub fn of(rt: &'a R) -> FileChip<'a, R>
        ensures { result.faults ≡ 0 }
    {
        FileChip { rt, faults: 0 }
    }
}

impl<R: Files> Chip for FileChip<'_, R> {
    ghost account = { λ c. record { register = None; faults = c.faults } };

    fn register(&mut self) -> Result<[u8; 32], ChipFailed> {
        match read_register(self.rt) {
            Ok(value) => Ok(value),
            Err(_) => {
                self.faults = counted(self.faults);
                Err(ChipFailed)
            }
        }
    }

    fn set_register(&mut self, value: &[u8; 32]) -> Result<(), ChipFailed> {
        match replace_register(self.rt, value) {
            Ok(()) => Ok(()),
            Err(_) => {
                self.faults = counted(self.faults);
                Err(ChipFailed)
            }
        }
    }
}

fn read_register<R: Files>(rt: &R) -> io::Result<[u8; 32]> {
    match fs::open(rt, NAME) {
        Ok(mut file) => read_32(&mut file),
        Err(error) => match error.kind() {
            ErrorKind::NotFound => Ok([0; 32]),
            _ => Err(error),
        },
    }
}

/// The bytes of a file, which has to have 32.
fn read_32<F: Read>(file: &mut F) -> io::Result<[u8; 32]> {
    let mut value = [0; 32];
    let mut behind = [0; 1];
    let len = read_front(file, &mut value)?;
    if len != 32 || file.read(&mut behind)? != 0 {
        return Err(io::Error::from(ErrorKind::InvalidData));
    }
    Ok(value)
}

/// Reads until the end of the file or of the buffer, and says how many bytes that are.
fn read_front<F: Read>(file: &mut F, buffer: &mut [u8]) -> io::Result<usize> {
    let mut len = 0;
    while len < buffer.len() {
        let count = file.read(&mut buffer[len..])?;
        if count == 0 {
            return Ok(len);
        }
        len += count;
    }
    Ok(len)
}

fn replace_register<R: Files>(rt: &R, value: &[u8; 32]) -> io::Result<()> {
    let mut file = fs::create(rt, NEW_NAME)?;
    file.write_all(value)?;
    file.sync_all()?;
    fs::rename(rt, NEW_NAME, NAME)?;
    sync_folder(rt)
}
