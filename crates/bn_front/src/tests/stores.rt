//! Runs with a store, over a vault and a chip in memory. Each digest is that of `sha256sum`.
ghost use Rattle.std.specs.Prelude.{◌≤◌, length};

use super::words::words_in;
use super::{HELLO, bytes_of_code, desk_of};
use crate::bastion;
use bn_edge::{Area, Chip, MemChip, MemSink, MemVault, Vault};
use bn_types::Status;
use std::alloc::Global;
use std::process::Abort;

/// The image of a store without words.
const EMPTY_IMAGE: &[u8] = b"BNSTORE1\0\0\0\0\0\0\0\0";

/// Its digest.
const EMPTY_DIGEST: [u8; 32] = [
    0x2b, 0x2a, 0x54, 0x24, 0xeb, 0x81, 0xfe, 0x21, 0xdb, 0x3f, 0x06, 0x7f, 0x77, 0xc0, 0xbd, 0x47,
    0xcc, 0x53, 0x83, 0xdd, 0x3f, 0xc5, 0x80, 0xb0, 0x38, 0x6b, 0x77, 0x21, 0xc7, 0x65, 0x54, 0x00,
];

/// The digest of its first 15 bytes.
const SHORT_DIGEST: [u8; 32] = [
    0x43, 0x01, 0xc8, 0x3f, 0x2f, 0x28, 0xc9, 0x79, 0xe3, 0x6e, 0x04, 0x3c, 0xf2, 0xbb, 0xde, 0xcd,
    0xf8, 0xdc, 0x5b, 0x68, 0x65, 0xc9, 0x9a, 0x5d, 0xad, 0x78, 0xb2, 0x02, 0x56, 0x46, 0x04, 0x0d,
];

/// The register of a new machine.
const ZEROS: [u8; 32] = [0; 32];

const STORED: &str = "run a.img --ram 16 --store";

/// What the run writes, which prints A.
const LINES: &str = "out 2 0 41\n\
    end 5 shutdown 48d90c977b53ec20b07888c1bdf036d118b09f1de941f94e52b090b174aa4048\n";

/// A vault and a chip.
#[derive(Drop)]
struct Devices {
    vault: MemVault,
    chip: MemChip,
}

/// Devices with this first area, an empty second one and this register, of which these calls fail.
fn devices_with(
    rt: &impl Abort,
    alloc: Global,
    first: &[u8],
    register: [u8; 32],
    vault_fails: &[u64],
    chip_fails: &[u64],
) -> Devices
    requires { length first.now ≤ 65536 }
{
    let fails = Vec::from_slice(alloc, vault_fails).expect(rt, "memory");
    let vault = MemVault::of(alloc, first, b"", fails).expect(rt, "memory");
    let fails = Vec::from_slice(alloc, chip_fails).expect(rt, "memory");
    let chip = MemChip::of(register, fails);
    Devices { vault, chip }
}

/// Calls with the words and a sink of which these calls fail, and compares the answer.
fn expect_call(
    rt: &impl Abort,
    alloc: Global,
    words: &str,
    devices: &mut Devices,
    sink_fails: &[u64],
    status: Status,
    text: &str,
) {
    let words = words_in(alloc, words).expect(rt, "memory");
    let bytes = bytes_of_code(alloc, &HELLO).expect(rt, "memory");
    let mut desk = desk_of(alloc, &[("a.img", &bytes)], &[]).expect(rt, "memory");
    let fails = Vec::from_slice(alloc, sink_fails).expect(rt, "memory");
    let mut out = MemSink::of(alloc, 4096, fails).expect(rt, "memory");
    let answer = bastion(
        alloc,
        &words,
        &mut desk,
        &mut devices.vault,
        &mut devices.chip,
        &mut out,
    );
    assert_eq!(rt; answer, status);
    assert_eq!(rt; out.bytes(), text.as_bytes());
}

/// The devices hold these areas and this register.
fn expect_stored(
    rt: &impl Abort,
    alloc: Global,
    devices: &mut Devices,
    first: &[u8],
    second: &[u8],
    register: [u8; 32],
) {
    let area = devices
        .vault
        .read_area(alloc, Area::First)
        .expect(rt, "read");
    assert_eq!(rt; area.as_slice(), first);
    let area = devices
        .vault
        .read_area(alloc, Area::Second)
        .expect(rt, "read");
    assert_eq!(rt; area.as_slice(), second);
    assert_eq!(rt; devices.chip.register().expect(rt, "read"), register);
}

#[test]
fn a_first_run_writes_the_first_area_and_the_next_the_second(rt: HostRuntime) {
    let alloc = rt.alloc();
    let mut devices = devices_with(&rt, alloc, b"", ZEROS, &[], &[]);
    expect_call(&rt, alloc, STORED, &mut devices, &[], Status::Ended, LINES);
    expect_stored(&rt, alloc, &mut devices, EMPTY_IMAGE, b"", EMPTY_DIGEST);
    expect_call(&rt, alloc, STORED, &mut devices, &[], Status::Ended, LINES);
    expect_stored(
        &rt,
        alloc,
        &mut devices,
        EMPTY_IMAGE,
        EMPTY_IMAGE,
        EMPTY_DIGEST,
    );
}

#[test]
fn areas_that_do_not_match_are_refused_and_stay(rt: HostRuntime) {
    let alloc = rt.alloc();
    let mut devices = devices_with(&rt, alloc, EMPTY_IMAGE, SHORT_DIGEST, &[], &[]);
    let text = "store mismatch 4301c83f2f28c979e36e043cf2bbdecdf8dc5b6865c99a5dad78b2025646040d \
        2b2a5424eb81fe21db3f067f77c0bd47cc5383dd3fc580b0386b7721c7655400 \
        e3b0c44298fc1c149afbf4c8996fb92427ae41e4649b934ca495991b7852b855\n";
    expect_call(&rt, alloc, STORED, &mut devices, &[], Status::Store, text);
    expect_stored(&rt, alloc, &mut devices, EMPTY_IMAGE, b"", SHORT_DIGEST);
}

#[test]
fn a_short_image_is_malformed_at_its_end(rt: HostRuntime) {
    let alloc = rt.alloc();
    let mut devices = devices_with(
        &rt,
        alloc,
        b"BNSTORE1\0\0\0\0\0\0\0",
        SHORT_DIGEST,
        &[],
        &[],
    );
    let text = "store malformed 15\n";
    expect_call(&rt, alloc, STORED, &mut devices, &[], Status::Store, text);
}

#[test]
fn a_device_that_fails_is_told_as_read_or_written(rt: HostRuntime) {
    let alloc = rt.alloc();
    let cases: [(&[u64], &[u64], Status, &str); 7] = [
        (&[1], &[], Status::VaultFault, "vault read\n"),
        (&[2], &[], Status::VaultFault, "vault read\n"),
        (&[], &[1], Status::ChipFault, "chip read\n"),
        (&[1], &[1], Status::ChipFault, "chip read\n"),
        (&[3], &[], Status::VaultFault, "out 2 0 41\nvault commit\n"),
        (&[4], &[], Status::VaultFault, "out 2 0 41\nvault commit\n"),
        (&[], &[2], Status::ChipFault, "out 2 0 41\nchip commit\n"),
    ];
    for (vault_fails, chip_fails, status, text) in cases {
        let mut devices = devices_with(&rt, alloc, b"", ZEROS, vault_fails, chip_fails);
        expect_call(&rt, alloc, STORED, &mut devices, &[], status, text);
    }
}

#[test]
fn a_run_without_a_store_calls_no_device(rt: HostRuntime) {
    let alloc = rt.alloc();
    let words = "run a.img --ram 16";
    let mut devices = devices_with(&rt, alloc, b"", ZEROS, &[1, 2, 3, 4], &[1, 2]);
    expect_call(&rt, alloc, words, &mut devices, &[], Status::Ended, LINES);
}

#[test]
fn a_run_whose_lines_fail_is_not_committed_and_one_whose_end_line_fails_is(rt: HostRuntime) {
    let alloc = rt.alloc();
    let mut devices = devices_with(&rt, alloc, b"", ZEROS, &[], &[]);
    expect_call(
        &rt,
        alloc,
        STORED,
        &mut devices,
        &[1],
        Status::SinkFault,
        "",
    );
    expect_stored(&rt, alloc, &mut devices, b"", b"", ZEROS);
    let text = "out 2 0 41\n";
    expect_call(
        &rt,
        alloc,
        STORED,
        &mut devices,
        &[2],
        Status::SinkFault,
        text,
    );
    expect_stored(&rt, alloc, &mut devices, EMPTY_IMAGE, b"", EMPTY_DIGEST);
}

#[test]
fn a_commit_that_stops_before_the_sync_leaves_the_old_store(rt: HostRuntime) {
    let alloc = rt.alloc();
    let mut devices = devices_with(&rt, alloc, b"", ZEROS, &[4], &[]);
    let text = "out 2 0 41\nvault commit\n";
    expect_call(
        &rt,
        alloc,
        STORED,
        &mut devices,
        &[],
        Status::VaultFault,
        text,
    );
    expect_stored(&rt, alloc, &mut devices, EMPTY_IMAGE, b"", ZEROS);
    expect_call(&rt, alloc, STORED, &mut devices, &[], Status::Ended, LINES);
    expect_stored(&rt, alloc, &mut devices, EMPTY_IMAGE, b"", EMPTY_DIGEST);
}
