//! Images in ELF files.

use super::{HELLO, call, push_code};
use bn_types::Status;
use std::alloc::{AllocError, Global};
use std::process::Abort;

/// An ELF header and one program header, of 8 bytes each. The file's code lies behind them, and
/// goes to the beginning of RAM.
const HEADERS: [u64; 15] = [
    0x00010102464c457f, // the magic, 64 bits, little endian
    0,
    0x0000000100f30002, // an executable for RISC-V
    0x8000_0000, // the entry
    64, // where the program header is
    0,
    0x0038004000000000, // the sizes of the headers
    1, // one program header
    0x0000000700000001, // it is loaded
    120, // from here
    0,
    0x8000_0000, // to there
    20, // so many bytes of the file
    20, // of so many in RAM
    4096,
];

/// What is refused where one of these numbers is another, in a RAM of 16 pages.
const REFUSED: [(usize, u64, &str); 14] = [
    (0, 0x00010101464c457f, "image class 4\n"),
    (0, 0x00010202464c457f, "image order 5\n"),
    (2, 0x0000000100f30003, "image kind 16\n"),
    (2, 0x00000001003e0002, "image machine 18\n"),
    (6, 0x0039004000000000, "image headers 54\n"),
    (7, 2, "image headers 32\n"),
    (4, 0xffffffffffffffff, "image headers 32\n"),
    (8, 0x0000000700000002, "image none 56\n"),
    (12, 21, "image sizes 96\n"),
    (9, 121, "image bytes 72\n"),
    (11, 0x7fffffff, "image range 88\n"),
    (13, 65537, "image range 88\n"),
    (3, 0x80000002, "image entry 24\n"),
    (3, 0x80010000, "image entry 24\n"),
];

/// Numbers that may be others, or don't count.
const ACCEPTED: [(usize, u64); 5] = [
    (1, 0xffffffffffffffff),
    (5, 0xffffffffffffffff),
    (8, 1),
    (10, 0x1234),
    (13, 65536),
];

/// The trace in a RAM of 16 pages, and of 1,024.
const LINES: [&str; 2] = [
    "out 2 0 41\n",
    "end 5 shutdown 48d90c977b53ec20b07888c1bdf036d118b09f1de941f94e52b090b174aa4048\n",
];

const LARGE_LINES: [&str; 2] = [
    "out 2 0 41\n",
    "end 5 shutdown 392772d5a53ff2c477ef12318828ac7f0725e18fc2bec958752a8d682cdc60ab\n",
];

/// The file, with this number in place of another.
fn file_of(alloc: Global, place: usize, number: u64) -> Result<Vec<u8>, AllocError> {
    let mut file = Vec::new(alloc);
    for (index, header) in HEADERS.iter().enumerate() {
        let field = if index == place { number } else { *header };
        file.extend_from_slice(&field.to_le_bytes())?;
    }
    push_code(&mut file, &HELLO)?;
    Ok(file)
}

/// How a run of the file ends in a RAM of so many pages, where it writes this.
fn run_file(rt: &impl Abort, alloc: Global, ram: &str, file: &[u8], pieces: &[&str]) -> Status {
    let words = ["run", "a.elf", "--ram", ram];
    call(rt, alloc, &words, &[("a.elf", file)], pieces)
}

#[test]
fn an_elf_file_is_run(rt: HostRuntime) {
    let file = file_of(rt.alloc(), 3, HEADERS[3]).expect(&rt, "memory");
    let status = run_file(&rt, rt.alloc(), "1024", &file, &LARGE_LINES);
    assert_eq!(rt; status, Status::Ended);
    for (place, number) in ACCEPTED {
        let file = file_of(rt.alloc(), place, number).expect(&rt, "memory");
        let status = run_file(&rt, rt.alloc(), "16", &file, &LINES);
        assert_eq!(rt; status, Status::Ended, "with {number} at {place}");
    }
}

#[test]
fn other_elf_files_are_refused(rt: HostRuntime) {
    for (place, number, text) in REFUSED {
        let file = file_of(rt.alloc(), place, number).expect(&rt, "memory");
        let status = run_file(&rt, rt.alloc(), "16", &file, &[text]);
        assert_eq!(rt; status, Status::Image, "with {number} at {place}");
    }
}

#[test]
fn a_part_of_an_elf_header_is_refused(rt: HostRuntime) {
    let mut file = file_of(rt.alloc(), 3, HEADERS[3]).expect(&rt, "memory");
    file.truncate(63);
    let status = run_file(&rt, rt.alloc(), "16", &file, &["image short 63\n"]);
    assert_eq!(rt; status, Status::Image);
}
