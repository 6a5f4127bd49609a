//! A guest that writes a letter, in Bare and behind Sv39 tables that lead RAM to its own addresses.
//! It stores nothing, so each digest is that of the image and zeros.

use super::{bytes_of_code, expect_code, expect_image, push_numbers, push_pairs};
use std::alloc::{AllocError, Global};

/// It writes `A` and shuts down.
const CODE: [u32; 5] = [
    0x00100893, // addi x17,x0,1
    0x04100513, // addi x10,x0,65
    0x00000073, // ecall
    0x00800893, // addi x17,x0,8
    0x00000073, // ecall
];

const LINES: [&str; 2] = [
    "out 2 0 41\n",
    "end 5 shutdown 48d90c977b53ec20b07888c1bdf036d118b09f1de941f94e52b090b174aa4048\n",
];

/// The same behind the write of `satp`.
const PAGED_CODE: [u32; 8] = [
    0x00000297, // auipc x5,0x0
    0x0402b283, // ld x5,64(x5)
    0x18029073, // csrrw x0,satp,x5
    0x00100893, // addi x17,x0,1
    0x04100513, // addi x10,x0,65
    0x00000073, // ecall
    0x00800893, // addi x17,x0,8
    0x00000073, // ecall
];

/// `satp`, and RAM in two leaves of 2 MiB.
const LARGE_LEAVES: [(usize, u64); 4] = [
    (64, 0x8000000000080001),
    (4112, 0x20000801), // page 1, entry 2
    (8192, 0x200000cf), // page 2, entry 0
    (8200, 0x200800cf), // page 2, entry 1
];

const LARGE_LINES: [&str; 2] = [
    "out 5 0 41\n",
    "end 8 shutdown dec1447363f5edcb3460d8aa17383390f7300aa9d1ca47743dfe985f340f93ae\n",
];

/// `satp`, and tables that lead to two pages of leaves of 4 KiB.
const SMALL_TABLES: [(usize, u64); 4] = [
    (64, 0x8000000000080001),
    (4112, 0x20000801), // page 1, entry 2
    (8192, 0x20000c01), // page 2, entry 0
    (8200, 0x20001001), // page 2, entry 1
];

const SMALL_LINES: [&str; 2] = [
    "out 5 0 41\n",
    "end 8 shutdown a94e7e0fb35f8f50a059527dff4027f4ba6c5c0e1f2b8df2374900c02aab9378\n",
];

/// The image with numbers at these offsets.
fn paged(alloc: Global, pairs: &[(usize, u64)]) -> Result<Vec<u8>, AllocError> {
    let mut image = bytes_of_code(alloc, &PAGED_CODE)?;
    push_pairs(&mut image, pairs)?;
    Ok(image)
}

/// Appends, from page 3 on, a leaf for each of 1,024 pages of RAM.
fn push_leaves(image: &mut Vec<u8>) -> Result<(), AllocError> {
    push_numbers(image, 12_288, &[])?;
    for page in 0..1024u64 {
        image.extend_from_slice(&(0x200000cf + 0x400 * page).to_le_bytes())?;
    }
    Ok(())
}

#[test]
fn a_letter_is_written_in_bare(rt: HostRuntime) {
    expect_code(&rt, rt.alloc(), 16, &CODE, &LINES);
}

#[test]
fn a_letter_is_written_behind_leaves_of_two_mebibytes(rt: HostRuntime) {
    let image = paged(rt.alloc(), &LARGE_LEAVES).expect(&rt, "memory");
    expect_image(&rt, rt.alloc(), 16, &image, &LARGE_LINES);
}

#[test]
fn a_letter_is_written_behind_leaves_of_four_kibibytes(rt: HostRuntime) {
    let mut image = paged(rt.alloc(), &SMALL_TABLES).expect(&rt, "memory");
    push_leaves(&mut image).expect(&rt, "memory");
    expect_image(&rt, rt.alloc(), 1024, &image, &SMALL_LINES);
}
