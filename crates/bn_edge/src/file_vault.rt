ghost use Rattle.std.specs.Prelude.{◌≡◌, ℕ, ◌≤◌, None, IfOk, vec_len};
ghost use Rattle.bn_edge.specs.Areas.{Fit, area_room, none_told};

use crate::counted::counted;
use crate::file_desk::read_up_to;
use crate::folder::sync_folder;
use crate::{Area, AreaFault, DeskFault, Vault, VaultFailed};
use std::alloc::Global;
use std::fs::OpenFile;
use std::io::{ErrorKind, Write};
use std::rt::Files;
use std::{fs, io};

const AREA_ROOM: usize = 65_536;

/// The files `bastion.a` and `bastion.b` of the current folder. A missing file is an empty area,
/// and of a longer one the first 65,536 bytes are read. It tells nothing of their content.
#[derive(Drop)]
pub struct FileVault<'a, R: Files> {
    rt: &'a R,
    /// The first area's file, where it was written since the last sync.
    first: Option<R::File>,
    second: Option<R::File>,
    faults: u64,
}

impl<'a, R: Files> FileVault<'a, R> {
    /// The two files, of which none is opened yet.
    pub fn of(rt: &'a R) -> FileVault<'a, R>
        ensures { result.faults ≡ 0 }
    {
        FileVault {
            rt,
            first: None,
            second: None,
            faults: 0,
        }
    }
}

impl<R: Files> Vault for FileVault<'_, R> {
    ghost account = { λ v. record {
      areas = None;
      may_leave = Fit;
      moment = 0;
      left_since = λ _. Fit;
      faults = v.faults;
    } };

    ghost reads = { λ v a told. none_told a told };

    ghost counts_now = { λ v t c le now. now };

    ghost only_now = { λ v c left. left };

    fn read_area(&mut self, alloc: Global, area: Area) -> Result<Vec<u8>, AreaFault> {
        match read_named(self.rt, alloc, name_of(area)) {
            Ok(bytes) => Ok(bytes),
            Err(AreaFault::Failed) => {
                self.faults = counted(self.faults);
                Err(AreaFault::Failed)
            }
            Err(AreaFault::Memory) => Err(AreaFault::Memory),
        }
    }

    fn write_area(&mut self, area: Area, text: &[u8]) -> Result<(), VaultFailed> {
        match write_named(self.rt, name_of(area), text) {
            Ok(file) => {
                match area {
                    Area::First => self.first = Some(file),
                    Area::Second => self.second = Some(file),
                }
                Ok(())
            }
            Err(_) => {
                self.faults = counted(self.faults);
                Err(VaultFailed)
            }
        }
    }

    fn sync(&mut self) -> Result<(), VaultFailed> {
        match sync_all(self.rt, &self.first, &self.second) {
            Ok(()) => {
                self.first = None;
                self.second = None;
                Ok(())
            }
            Err(_) => {
                self.faults = counted(self.faults);
                Err(VaultFailed)
            }
        }
    }
}

fn name_of(area: Area) -> &'static str {
    match area {
        Area::First => "bastion.a",
        Area::Second => "bastion.b",
    }
}

fn read_named<R: Files>(rt: &R, alloc: Global, name: &str) -> Result<Vec<u8>, AreaFault>
    ensures { IfOk result (λ bytes. vec_len bytes ≤ area_room) }
{
    let mut file = match fs::open(rt, name) {
        Ok(file) => file,
        Err(error) => {
            return match error.kind() {
                ErrorKind::NotFound => Ok(Vec::new(alloc)),
                ErrorKind::OutOfMemory => Err(AreaFault::Memory),
                _ => Err(AreaFault::Failed),
            };
        }
    };
    match read_up_to(alloc, &mut file, AREA_ROOM) {
        Ok(bytes) => Ok(bytes),
        Err(DeskFault::Memory) => Err(AreaFault::Memory),
        Err(_) => Err(AreaFault::Failed),
    }
}

fn write_named<R: Files>(rt: &R, name: &str, text: &[u8]) -> io::Result<R::File> {
    let mut file = fs::create(rt, name)?;
    file.write_all(text)?;
    Ok(file)
}

/// Puts the files that were written, and their names, on the disk.
fn sync_all<R: Files>(rt: &R, first: &Option<R::File>, second: &Option<R::File>) -> io::Result<()> {
    if let Some(file) = first {
        file.sync_all()?;
    }
    if let Some(file) = second {
        file.sync_all()?;
    }
    sync_folder(rt)
}
