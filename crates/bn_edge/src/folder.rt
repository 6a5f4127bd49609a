use std::fs::OpenFile;
use std::rt::Files;
use std::{fs, io};

/// Puts the names in the current folder on the disk.
pub fn sync_folder<R: Files>(rt: &R) -> io::Result<()> {
    fs::open(rt, ".")?.sync_all()
}
