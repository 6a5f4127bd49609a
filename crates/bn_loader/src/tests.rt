use crate::{ImageFault, ImageSort, LoadError, load};
use std::alloc::{AllocError, Global};
use std::test::Fail;

// An instruction word that fills the segment, so that its bytes tell where they went.
const CODE: [u8; 20] = [
    0x93, 0x08, 0x10, 0x00, 0x13, 0x05, 0x10, 0x04, 0x73, 0x00, 0x00, 0x00, 0x93, 0x08, 0x80, 0x00,
    0x73, 0x00, 0x00, 0x00,
];

// The header of an ELF file, whose program headers follow it.
fn file_header(alloc: Global, segments: u8) -> Result<Vec<u8>, AllocError> {
    let mut file = Vec::from_slice(alloc, &[0x7f, 0x45, 0x4c, 0x46, 2, 1, 1, 0])?;
    file.extend_from_slice(&[0; 8])?;
    file.extend_from_slice(&[2, 0, 243, 0, 1, 0, 0, 0])?;
    file.extend_from_slice(&[0, 0, 0, 0x80, 0, 0, 0, 0])?;
    file.extend_from_slice(&[64, 0, 0, 0, 0, 0, 0, 0])?;
    file.extend_from_slice(&[0; 12])?;
    file.extend_from_slice(&[64, 0, 56, 0, segments, 0, 0, 0, 0, 0, 0, 0])?;
    Ok(file)
}

// Appends a program header: 20 bytes at an offset go that far into RAM, and 4 zeros after them.
fn add_segment(file: &mut Vec<u8>, offset: u8, place: u8) -> Result<(), AllocError> {
    file.extend_from_slice(&[1, 0, 0, 0, 5, 0, 0, 0])?;
    file.extend_from_slice(&[offset, 0, 0, 0, 0, 0, 0, 0])?;
    file.extend_from_slice(&[0; 8])?;
    file.extend_from_slice(&[place, 0, 0, 0x80, 0, 0, 0, 0])?;
    file.extend_from_slice(&[20, 0, 0, 0, 0, 0, 0, 0])?;
    file.extend_from_slice(&[24, 0, 0, 0, 0, 0, 0, 0])?;
    file.extend_from_slice(&[0; 8])
}

// An ELF file of one segment: its header at 0, its program header at 64 and its 20 bytes at 120.
fn elf_file(alloc: Global) -> Result<Vec<u8>, AllocError> {
    let mut file = file_header(alloc, 1)?;
    add_segment(&mut file, 120, 0)?;
    file.extend_from_slice(&CODE)?;
    Ok(file)
}

// A number, how many bytes it has, and where it stands in the file.
type Patch = (usize, usize, u64);

const NONE: Patch = (0, 0, 0);

// The ELF file with up to two other numbers in its fields, and the first test that it fails.
static FIELDS: [(Patch, Patch, Option<(ImageSort, u64)>); 65] = [
    ((6, 1, 0xff), NONE, None),
    ((80, 8, u64::MAX), NONE, None),
    ((112, 8, u64::MAX), NONE, None),
    ((4, 1, 0), NONE, Some((ImageSort::Class, 4))),
    ((4, 1, 1), NONE, Some((ImageSort::Class, 4))),
    ((4, 1, 3), NONE, Some((ImageSort::Class, 4))),
    ((5, 1, 0), NONE, Some((ImageSort::Order, 5))),
    ((5, 1, 2), NONE, Some((ImageSort::Order, 5))),
    ((16, 2, 1), NONE, Some((ImageSort::Kind, 16))),
    ((16, 2, 3), NONE, Some((ImageSort::Kind, 16))),
    ((16, 2, 0x102), NONE, Some((ImageSort::Kind, 16))),
    ((18, 2, 62), NONE, Some((ImageSort::Machine, 18))),
    ((18, 2, 242), NONE, Some((ImageSort::Machine, 18))),
    ((18, 2, 244), NONE, Some((ImageSort::Machine, 18))),
    ((18, 2, 0x1f3), NONE, Some((ImageSort::Machine, 18))),
    ((54, 2, 55), NONE, Some((ImageSort::Headers, 54))),
    ((54, 2, 57), NONE, Some((ImageSort::Headers, 54))),
    ((54, 2, 0x138), NONE, Some((ImageSort::Headers, 54))),
    ((32, 8, 84), NONE, Some((ImageSort::Nothing, 56))),
    ((32, 8, 85), NONE, Some((ImageSort::Headers, 32))),
    ((32, 8, u64::MAX - 55), NONE, Some((ImageSort::Headers, 32))),
    ((32, 8, u64::MAX), NONE, Some((ImageSort::Headers, 32))),
    ((56, 2, 2), NONE, Some((ImageSort::Headers, 32))),
    ((56, 2, 0xffff), NONE, Some((ImageSort::Headers, 32))),
    ((56, 2, 0), NONE, Some((ImageSort::Nothing, 56))),
    ((56, 2, 0), (32, 8, 140), Some((ImageSort::Nothing, 56))),
    ((56, 2, 0), (32, 8, 141), Some((ImageSort::Headers, 32))),
    ((64, 4, 0), NONE, Some((ImageSort::Nothing, 56))),
    ((64, 4, 2), NONE, Some((ImageSort::Nothing, 56))),
    ((64, 4, 0x100_0001), NONE, Some((ImageSort::Nothing, 56))),
    ((64, 4, 0xffff_ffff), NONE, Some((ImageSort::Nothing, 56))),
    ((72, 8, 0), NONE, None),
    ((72, 8, 121), NONE, Some((ImageSort::Bytes, 72))),
    ((72, 8, u64::MAX - 19), NONE, Some((ImageSort::Bytes, 72))),
    ((72, 8, u64::MAX), NONE, Some((ImageSort::Bytes, 72))),
    ((88, 8, 0x8000_ffe8), NONE, None),
    ((88, 8, 0x8000_ffe9), NONE, Some((ImageSort::Range, 88))),
    ((88, 8, 0x7fff_ffff), NONE, Some((ImageSort::Range, 88))),
    ((88, 8, u64::MAX - 23), NONE, Some((ImageSort::Range, 88))),
    ((88, 8, u64::MAX), NONE, Some((ImageSort::Range, 88))),
    ((96, 8, 0), NONE, None),
    ((96, 8, 24), NONE, Some((ImageSort::Bytes, 72))),
    ((96, 8, 25), NONE, Some((ImageSort::Sizes, 96))),
    ((96, 8, u64::MAX), NONE, Some((ImageSort::Sizes, 96))),
    ((104, 8, 20), NONE, None),
    ((104, 8, 65536), NONE, None),
    ((104, 8, 19), NONE, Some((ImageSort::Sizes, 96))),
    ((104, 8, 65537), NONE, Some((ImageSort::Range, 88))),
    ((104, 8, u64::MAX), NONE, Some((ImageSort::Range, 88))),
    ((96, 8, 0), (104, 8, 0), Some((ImageSort::Nothing, 56))),
    ((96, 8, 0), (104, 8, 65537), Some((ImageSort::Range, 88))),
    ((24, 8, 0x8000_fffc), NONE, None),
    ((24, 8, 0), NONE, Some((ImageSort::Entry, 24))),
    ((24, 8, 0x8000_0001), NONE, Some((ImageSort::Entry, 24))),
    ((24, 8, 0x8000_0002), NONE, Some((ImageSort::Entry, 24))),
    ((24, 8, 0x7fff_fffc), NONE, Some((ImageSort::Entry, 24))),
    ((24, 8, 0x8001_0000), NONE, Some((ImageSort::Entry, 24))),
    ((24, 8, u64::MAX - 3), NONE, Some((ImageSort::Entry, 24))),
    ((4, 1, 1), (5, 1, 2), Some((ImageSort::Class, 4))),
    ((18, 2, 62), (16, 2, 1), Some((ImageSort::Kind, 16))),
    (
        (54, 2, 0),
        (32, 8, u64::MAX),
        Some((ImageSort::Headers, 54)),
    ),
    ((96, 8, 25), (72, 8, u64::MAX), Some((ImageSort::Sizes, 96))),
    ((72, 8, 121), (88, 8, 0), Some((ImageSort::Bytes, 72))),
    ((88, 8, 0), (24, 8, 2), Some((ImageSort::Range, 88))),
    ((64, 4, 2), (24, 8, 2), Some((ImageSort::Nothing, 56))),
];

fn put(file: &mut Vec<u8>, patch: Patch) {
    let (at, count, number) = patch;
    for (i, byte) in number.to_le_bytes().iter().take(count).enumerate() {
        let place = at.wrapping_add(i);
        if place < file.len() {
            file[place] = *byte;
        }
    }
}

// The fault of a file in a RAM of 16 pages.
fn fault_of(alloc: Global, file: &[u8]) -> Option<(ImageSort, u64)> {
    match load(alloc, file, 16) {
        Err(LoadError::Fault(ImageFault { sort, at })) => Some((sort, at)),
        _ => None,
    }
}

// The fault of the file's first bytes.
fn front_fault(alloc: Global, file: &[u8], len: usize) -> Option<(ImageSort, u64)> {
    if len <= file.len() {
        fault_of(alloc, &file[..len])
    } else {
        fault_of(alloc, file)
    }
}

#[test]
fn each_field_is_tested(rt: HostRuntime) -> Result<(), Fail> {
    for (first, second, fault) in &FIELDS {
        let mut file = elf_file(rt.alloc())?;
        put(&mut file, *first);
        put(&mut file, *second);
        assert_eq!(rt;
            fault_of(rt.alloc(), file.as_slice()),
            *fault,
            "{first:?} {second:?}"
        );
    }
    Ok(())
}

#[test]
fn headers_are_tested_one_by_one(rt: HostRuntime) -> Result<(), Fail> {
    let mut file = file_header(rt.alloc(), 2)?;
    add_segment(&mut file, 176, 4)?;
    add_segment(&mut file, 196, 0)?;
    file.extend_from_slice(&[0; 40])?;
    put(&mut file, (152, 8, 25));
    assert_eq!(rt;
        fault_of(rt.alloc(), file.as_slice()),
        Some((ImageSort::Sizes, 152))
    );
    put(&mut file, (88, 8, 0));
    assert_eq!(rt;
        fault_of(rt.alloc(), file.as_slice()),
        Some((ImageSort::Range, 88))
    );
    put(&mut file, (64, 4, 0));
    assert_eq!(rt;
        fault_of(rt.alloc(), file.as_slice()),
        Some((ImageSort::Sizes, 152))
    );
    Ok(())
}

#[test]
fn segments_and_raw_files_stand_in_ram(rt: HostRuntime) -> Result<(), Fail> {
    let alloc = rt.alloc();
    let file = elf_file(alloc)?;
    let loaded = load(alloc, file.as_slice(), 16)?;
    assert_eq!(rt; loaded.entry, 0x8000_0000);
    assert_eq!(rt; loaded.bytes.len(), 65536);
    assert!(rt; loaded.bytes.starts_with(&CODE));
    assert!(rt; loaded.bytes.iter().skip(20).all(|byte| *byte == 0));
    let raw = load(alloc, &CODE, 16)?;
    assert_eq!(rt; raw.entry, 0x8000_0000);
    assert!(rt; raw.bytes.starts_with(&CODE));
    Ok(())
}

#[test]
fn a_front_of_the_file_is_told_by_its_length(rt: HostRuntime) -> Result<(), Fail> {
    let alloc = rt.alloc();
    let all = elf_file(alloc)?;
    let file = all.as_slice();
    assert_eq!(rt; file.len(), 140);
    assert_eq!(rt; front_fault(alloc, file, 0), Some((ImageSort::Empty, 0)));
    assert_eq!(rt; front_fault(alloc, file, 1), None);
    assert_eq!(rt; front_fault(alloc, file, 3), None);
    assert_eq!(rt; front_fault(alloc, file, 4), Some((ImageSort::Short, 4)));
    assert_eq!(rt; front_fault(alloc, file, 63), Some((ImageSort::Short, 63)));
    assert_eq!(rt;
        front_fault(alloc, file, 64),
        Some((ImageSort::Headers, 32))
    );
    assert_eq!(rt;
        front_fault(alloc, file, 119),
        Some((ImageSort::Headers, 32))
    );
    assert_eq!(rt; front_fault(alloc, file, 120), Some((ImageSort::Bytes, 72)));
    assert_eq!(rt; front_fault(alloc, file, 139), Some((ImageSort::Bytes, 72)));
    assert_eq!(rt; front_fault(alloc, file, 140), None);
    Ok(())
}

// So many zeros.
fn zeros(alloc: Global, len: usize) -> Result<Vec<u8>, AllocError> {
    let mut file = Vec::new(alloc);
    file.resize(len, 0)?;
    Ok(file)
}

#[test]
fn a_raw_file_is_at_most_as_long_as_ram(rt: HostRuntime) -> Result<(), Fail> {
    for (len, want) in [
        (1, None),
        (65_536, None),
        (65_537, Some((ImageSort::Long, 65_536))),
        (33_554_432, Some((ImageSort::Long, 65_536))),
        (33_554_433, Some((ImageSort::Long, 33_554_432))),
    ] {
        let file = zeros(rt.alloc(), len)?;
        assert_eq!(rt; fault_of(rt.alloc(), file.as_slice()), want, "{len}");
    }
    Ok(())
}

#[test]
fn an_elf_file_is_at_most_32_mebibytes_long(rt: HostRuntime) -> Result<(), Fail> {
    let mut file = elf_file(rt.alloc())?;
    file.resize(33_554_432, 0)?;
    assert_eq!(rt; fault_of(rt.alloc(), file.as_slice()), None);
    file.push(0)?;
    assert_eq!(rt;
        fault_of(rt.alloc(), file.as_slice()),
        Some((ImageSort::Long, 33_554_432))
    );
    Ok(())
}

#[test]
fn the_later_of_two_segments_wins(rt: HostRuntime) -> Result<(), Fail> {
    let alloc = rt.alloc();
    let mut file = file_header(alloc, 2)?;
    add_segment(&mut file, 176, 4)?;
    add_segment(&mut file, 196, 0)?;
    file.extend_from_slice(&[0xaa; 20])?;
    file.extend_from_slice(&CODE)?;
    let loaded = load(alloc, file.as_slice(), 16)?;
    assert!(rt; loaded.bytes.starts_with(&CODE));
    assert!(rt; loaded.bytes.iter().skip(20).all(|byte| *byte == 0));
    Ok(())
}
