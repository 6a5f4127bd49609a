//! The call that the program makes, over a desk and a sink in memory. Each digest comes from
//! another program.
use super::{HELLO, bytes_of_code, call, desk_of, words_of};
use crate::bastion;
use bn_edge::{MemChip, MemSink, MemVault};
use bn_types::Status;
use std::alloc::{AllocError, Global};
use std::process::Abort;

const HELLO_LINES: [&str; 2] = [
    "out 2 0 41\n",
    "end 5 shutdown 392772d5a53ff2c477ef12318828ac7f0725e18fc2bec958752a8d682cdc60ab\n",
];

/// Stores 7f at place 4,096 and shuts down.
const STORE: [u32; 5] = [
    0x00001297, // auipc x5,0x1
    0x07f00313, // addi x6,x0,127
    0x00628023, // sb x6,0(x5)
    0x00800893, // addi x17,x0,8
    0x00000073, // ecall
];

fn repeated(alloc: Global, word: u32, count: u32) -> Result<Vec<u8>, AllocError> {
    let mut bytes = Vec::new(alloc);
    for _copy in 0..count {
        bytes.extend_from_slice(&word.to_le_bytes())?;
    }
    Ok(bytes)
}

/// Calls with the words where the only file is `a.img`, and compares the status and the text.
pub fn check(
    rt: &impl Abort,
    alloc: Global,
    words: &[&str],
    bytes: &[u8],
    status: Status,
    pieces: &[&str],
) {
    let answer = call(rt, alloc, words, &[("a.img", bytes)], pieces);
    assert_eq!(rt; answer, status, "at {words:?}");
}

/// The same where the file is this code.
pub fn check_code(
    rt: &impl Abort,
    alloc: Global,
    words: &[&str],
    code: &[u32],
    status: Status,
    pieces: &[&str],
) {
    let bytes = bytes_of_code(alloc, code).expect(rt, "memory");
    check(rt, alloc, words, &bytes, status, pieces);
}

#[test]
fn a_guest_prints_and_shuts_down(rt: HostRuntime) {
    let words = ["run", "a.img"];
    check_code(&rt, rt.alloc(), &words, &HELLO, Status::Ended, &HELLO_LINES);
}

#[test]
fn a_stored_byte_is_in_the_digest(rt: HostRuntime) {
    let lines = [
        "end 5 shutdown a97b5a4b3c55b50f4f3e92f5bbd87cc226085dbe3b83602890406cbadcd3bd21\n",
    ];
    check_code(
        &rt,
        rt.alloc(),
        &["run", "a.img"],
        &STORE,
        Status::Ended,
        &lines,
    );
}

const LIMIT_DIGEST: &str = "392772d5a53ff2c477ef12318828ac7f0725e18fc2bec958752a8d682cdc60ab\n";

fn check_steps(rt: &impl Abort, alloc: Global, steps: &str, status: Status, pieces: &[&str]) {
    let words = ["run", "a.img", "--steps", steps, "--ram", "1024"];
    check_code(rt, alloc, &words, &HELLO, status, pieces);
}

#[test]
fn a_run_of_no_events_ends_at_once(rt: HostRuntime) {
    let pieces = ["end 0 limit ", LIMIT_DIGEST];
    check_steps(&rt, rt.alloc(), "0", Status::Limit, &pieces);
}

#[test]
fn a_run_ends_one_event_before_its_shutdown(rt: HostRuntime) {
    let pieces = [HELLO_LINES[0], "end 4 limit ", LIMIT_DIGEST];
    check_steps(&rt, rt.alloc(), "4", Status::Limit, &pieces);
}

#[test]
fn a_shutdown_in_the_last_event_is_one(rt: HostRuntime) {
    check_steps(&rt, rt.alloc(), "5", Status::Ended, &HELLO_LINES);
}

#[test]
fn an_image_has_a_byte_and_fits_in_ram(rt: HostRuntime) {
    let alloc = rt.alloc();
    check(
        &rt,
        alloc,
        &["run", "a.img"],
        &[],
        Status::Image,
        &["image empty 0\n"],
    );
    let mut bytes = repeated(alloc, 0, 16_384).expect(&rt, "memory");
    bytes.push(0).expect(&rt, "memory");
    let words = ["run", "a.img", "--ram", "16"];
    check(
        &rt,
        alloc,
        &words,
        &bytes,
        Status::Image,
        &["image long 65536\n"],
    );
}

#[test]
fn an_image_fills_the_least_ram(rt: HostRuntime) {
    let lines = [
        "trap 0 0 0000000000000002 0000000080000000\n",
        "trap 1 0 0000000000000001 0000000000000000\n",
        "end 2 limit de2f256064a0af797747c2b97505dc0b9f3df0de4f489eac731c23ae9ca9cc31\n",
    ];
    let words = ["run", "a.img", "--steps", "2", "--ram", "16"];
    let bytes = repeated(rt.alloc(), 0, 16_384).expect(&rt, "memory");
    check(&rt, rt.alloc(), &words, &bytes, Status::Limit, &lines);
}

#[test]
fn a_run_has_a_million_events_where_no_limit_is_given(rt: HostRuntime) {
    let lines = [
        "end 1000000 limit 1710808594d41ce104ed3589c00e06323816e6196b429f8b3067847551a7cf5b\n",
    ];
    // addi x5,x5,1
    let bytes = repeated(rt.alloc(), 0x00128293, 1_000_000).expect(&rt, "memory");
    check(
        &rt,
        rt.alloc(),
        &["run", "a.img"],
        &bytes,
        Status::Limit,
        &lines,
    );
}

#[test]
fn a_file_that_is_not_there_is_missing(rt: HostRuntime) {
    let words = ["run", "b.img"];
    check_code(
        &rt,
        rt.alloc(),
        &words,
        &HELLO,
        Status::NoFile,
        &["missing image\n"],
    );
}

/// Calls where these calls of the desk and of the sink fail, and the sink has so much room.
fn check_faults(
    rt: &impl Abort,
    alloc: Global,
    desk_fails: &[u64],
    sink_fails: &[u64],
    room: usize,
    status: Status,
    text: &str,
) {
    let words = words_of(alloc, &["run", "a.img"]).expect(rt, "memory");
    let bytes = bytes_of_code(alloc, &HELLO).expect(rt, "memory");
    let mut desk = desk_of(alloc, &[("a.img", &bytes)], desk_fails).expect(rt, "memory");
    let fails = Vec::from_slice(alloc, sink_fails).expect(rt, "memory");
    let mut out = MemSink::of(alloc, room, fails).expect(rt, "memory");
    let mut vault = MemVault::of(alloc, b"", b"", Vec::new(alloc)).expect(rt, "memory");
    let mut chip = MemChip::of([0; 32], Vec::new(alloc));
    let answer = bastion(alloc, &words, &mut desk, &mut vault, &mut chip, &mut out);
    assert_eq!(rt; answer, status);
    assert_eq!(rt; out.bytes(), text.as_bytes());
}

#[test]
fn a_failing_desk_or_sink_is_told(rt: HostRuntime) {
    let alloc = rt.alloc();
    check_faults(
        &rt,
        alloc,
        &[1],
        &[],
        4096,
        Status::DeskFault,
        "desk image\n",
    );
    check_faults(
        &rt,
        alloc,
        &[],
        &[2],
        4096,
        Status::SinkFault,
        HELLO_LINES[0],
    );
    check_faults(
        &rt,
        alloc,
        &[],
        &[],
        14,
        Status::SinkFault,
        "out 2 0 41\nend",
    );
    check_faults(&rt, alloc, &[1], &[1], 4096, Status::SinkFault, "");
}
