//! A guest that writes `stvec` and `satp`, where the root of the tables lies outside a RAM of 16
//! pages, so that no instruction can be fetched behind that write. It stores nothing, so each
//! digest is that of the image and zeros.

use super::{bytes_of_code, push_numbers, run_image};
use bn_types::Status;
use std::alloc::{AllocError, Global};
use std::process::Abort;

const CODE: [u32; 7] = [
    0x00000f97, // auipc x31,0x0
    0x040fb283, // ld x5,64(x31)
    0x10529073, // csrrw x0,stvec,x5
    0x048fb283, // ld x5,72(x31)
    0x18029073, // csrrw x0,satp,x5
    0x00800893, // addi x17,x0,8
    0x00000073, // ecall
];

/// `stvec`, a canonical address.
const HANDLER: u64 = 0x80000100;

/// The traps of eight events.
const TRAPS: [&str; 3] = [
    "trap 5 0 0000000000000001 0000000080000014\n",
    "trap 6 0 0000000000000001 0000000080000100\n",
    "trap 7 0 0000000000000001 0000000080000100\n",
];

/// The traps where `stvec` isn't canonical.
const MIXED_TRAPS: [&str; 3] = [
    "trap 5 0 0000000000000001 0000000080000014\n",
    "trap 6 0 000000000000000c 0000008000000000\n",
    "trap 7 0 000000000000000c 0000008000000000\n",
];

fn image_of(alloc: Global, stvec: u64, satp: u64) -> Result<Vec<u8>, AllocError> {
    let mut image = bytes_of_code(alloc, &CODE)?;
    push_numbers(&mut image, 64, &[stvec, satp])?;
    Ok(image)
}

/// Eight events of the guest with these values have this trace.
fn run_root(rt: &impl Abort, alloc: Global, stvec: u64, satp: u64, lines: &[&str]) -> Status {
    let image = image_of(alloc, stvec, satp).expect(rt, "memory");
    run_image(rt, alloc, 16, 8, &image, lines)
}

/// Each fetch behind the write of `satp` is an access fault.
fn expect_refused(rt: &impl Abort, alloc: Global, satp: u64, end: &str) {
    let [first, second, third] = TRAPS;
    let status = run_root(rt, alloc, HANDLER, satp, &[first, second, third, end]);
    assert_eq!(rt; status, Status::Limit);
}

#[test]
fn a_root_outside_ram_is_an_access_fault(rt: HostRuntime) {
    // the first page after RAM
    expect_refused(
        &rt,
        rt.alloc(),
        0x8000000000080010,
        "end 8 limit 120e395c6c1a1faddef95664c24e16d8ed7f32b31c7dacab5c018ec7db7556f7\n",
    );
    // the first of all pages
    expect_refused(
        &rt,
        rt.alloc(),
        0x8000000000000000,
        "end 8 limit c8a6912e90d4b887361acf44e8a7e799f2c15a992dfdaedb6435205abedd1929\n",
    );
    // the last of all pages
    expect_refused(
        &rt,
        rt.alloc(),
        0x80000fffffffffff,
        "end 8 limit c94c26389e6d6cf6b228f0ed2bb5be3df9690de643e418ef0a2202fd458f2e3d\n",
    );
    // a page whose number is that of RAM's first in its low 32 bits
    expect_refused(
        &rt,
        rt.alloc(),
        0x8000000100080000,
        "end 8 limit c7ae8319eab172a91599a34843364064adeeeaa6a15011e6608ea111e95a18cb\n",
    );
}

#[test]
fn an_address_that_is_not_canonical_needs_no_root(rt: HostRuntime) {
    let [first, second, third] = MIXED_TRAPS;
    let end = "end 8 limit 0cd1f447322f9d4bf2cf05893707b6756b77867ee4d6f5da21fc711c51fd547e\n";
    let status = run_root(
        &rt,
        rt.alloc(),
        0x8000000000,
        0x8000000000080010,
        &[first, second, third, end],
    );
    assert_eq!(&rt; status, Status::Limit);
}

#[test]
fn a_write_of_another_mode_leaves_satp(rt: HostRuntime) {
    let end = "end 7 shutdown a4e8ad775ad35b5abc9cb6eba15146e06f07a2683ebf44895021417c3f35b2ac\n";
    let status = run_root(&rt, rt.alloc(), HANDLER, 0x9000000000080001, &[end]);
    assert_eq!(&rt; status, Status::Ended);
}
