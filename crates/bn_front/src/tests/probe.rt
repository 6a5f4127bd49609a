//! Guests that try accesses one after another. The lines that are expected of them follow from the
//! Privileged ISA; an interpreter in C, written apart from this machine, writes them too, and the
//! digests are `sha256sum`'s.
use super::{bytes_of_code, expect_image, push_code, push_numbers, push_pairs};
use std::alloc::{AllocError, Global};
use std::process::Abort;

/// What each of them begins with. The handler writes `Y` where `stval` is x14, the address that was
/// tried, and
/// `N` where it isn't, and goes on at x9 in mode S.
const HANDLER: [u32; 14] = [
    0x01c0006f, // jal x0,begin
    // the handler of traps:
    0x143025f3, // csrrs x11,stval,x0
    0x04e00513, // addi x10,x0,78
    0x00e59463, // bne x11,x14,80000014
    0x05900513, // addi x10,x0,89
    0x00000073, // ecall
    0x00048067, // jalr x0,0(x9)
    // begin:
    0x00000f97, // auipc x31,0x0
    0xfe4f8f93, // addi x31,x31,-28
    0x00100893, // addi x17,x0,1
    0x004f8293, // addi x5,x31,4
    0x10529073, // csrrw x0,stvec,x5
    0x7f8fb283, // ld x5,2040(x31)
    0x18029073, // csrrw x0,satp,x5
];

/// Sv39 with the root in page 1. There entry 2 leads, by a leaf of 1 GiB, to RAM at its own
/// addresses.
const SATP: u64 = 0x8000000000080001;

/// A guest behind the handler.
#[derive(Clone, Copy)]
pub struct Probe<'a> {
    /// Its instructions, from 0x80000038 on.
    pub code: &'a [u32],
    /// What it loads from byte 1024 on.
    pub values: &'a [u64],
    /// Its tables and pages: byte offsets, ascending, and the numbers there.
    pub tables: &'a [(usize, u64)],
}

fn image_of(alloc: Global, probe: &Probe<'_>) -> Result<Vec<u8>, AllocError> {
    let mut image = bytes_of_code(alloc, &HANDLER)?;
    push_code(&mut image, probe.code)?;
    push_numbers(&mut image, 1024, probe.values)?;
    push_numbers(&mut image, 2040, &[SATP])?;
    push_pairs(&mut image, probe.tables)?;
    Ok(image)
}

/// The guest shuts down in a RAM of so many pages with this trace.
pub fn expect_probe(
    rt: &impl Abort,
    alloc: Global,
    ram_pages: u32,
    probe: &Probe<'_>,
    lines: &[&str],
) {
    let image = image_of(alloc, probe).expect(rt, "memory");
    expect_image(rt, alloc, ram_pages, &image, lines);
}
