//! Runs of what is generated.
use super::{call, desk_of, words_of};
use crate::bastion;
use bn_edge::{MemChip, MemSink, MemVault};
use bn_types::Status;
use std::alloc::Global;
use std::process::Abort;
use std::str::from_utf8;

/// The summary of number 1, by tests/machine, which runs what it makes.
const SUMMARY: [&str; 21] = [
    "gen 1\n",
    "events 177610\n",
    "out 6400\n",
    "deny 0\n",
    "stop 283\n",
    "trap 352\n",
    "launch 8\n",
    "call 6400\n",
    "ret 6400\n",
    "resume 283\n",
    "evict 0\n",
    "sset 0\n",
    "refuse 0\n",
    "start 0\n",
    "key 17\n",
    "nokey 0\n",
    "poke 9\n",
    "nopoke 9\n",
    "peek 28\n",
    "nopeek 1\n",
    "end shutdown 066f53632e7696254b9f5e2237d3720837bbe231d536ab0168c1386726a5a4fa\n",
];

/// How often lines of these kinds come, whatever the number.
const COUNTS: [(&str, u64); 8] = [
    ("launch", 8),
    ("call", 6400),
    ("ret", 6400),
    ("out", 6400),
    ("refuse", 0),
    ("deny", 0),
    ("evict", 0),
    ("nokey", 0),
];

/// Lines of devices: one for each round of the script.
const DEVICES: [&str; 5] = ["key", "poke", "nopoke", "peek", "nopeek"];

#[test]
fn a_summary_as_another_machine_tells_it(rt: HostRuntime) {
    let status = call(&rt, rt.alloc(), &["gen", "1"], &[], &SUMMARY);
    assert_eq!(rt; status, Status::Ended);
}

/// What a call for the number writes to a sink of so much room, where its status is this.
fn written(rt: &impl Abort, alloc: Global, number: &str, room: usize, status: Status) -> Vec<u8> {
    let words = words_of(alloc, &["gen", number]).expect(rt, "memory");
    let mut desk = desk_of(alloc, &[], &[]).expect(rt, "memory");
    let mut vault = MemVault::of(alloc, b"", b"", Vec::new(alloc)).expect(rt, "memory");
    let mut chip = MemChip::of([0; 32], Vec::new(alloc));
    let mut out = MemSink::of(alloc, room, Vec::new(alloc)).expect(rt, "memory");
    let answer = bastion(alloc, &words, &mut desk, &mut vault, &mut chip, &mut out);
    assert_eq!(rt; answer, status);
    Vec::from_slice(alloc, out.bytes()).expect(rt, "memory")
}

/// What a summary says of a kind of line.
fn said_of<'a>(summary: &'a str, kind: &str) -> &'a str {
    for line in summary.split('\n') {
        if let Some((word, rest)) = line.split_once(' ') {
            if word == kind {
                return rest;
            }
        }
    }
    ""
}

fn count_of(summary: &str, kind: &str) -> u64 {
    said_of(summary, kind).parse::<u64>().unwrap_or(u64::MAX)
}

#[test]
fn what_holds_of_each_summary(rt: HostRuntime) {
    let number = "18446744073709551615";
    let text = written(&rt, rt.alloc(), number, 16_384, Status::Ended);
    let summary = from_utf8(&text).unwrap_or("");
    assert_eq!(rt; said_of(summary, "gen"), number);
    for (kind, count) in COUNTS {
        assert_eq!(rt; count_of(summary, kind), count, "{kind}");
    }
    assert_eq!(rt; count_of(summary, "stop"), count_of(summary, "resume"));
    let mut devices = 0u64;
    for kind in DEVICES {
        devices = devices.saturating_add(count_of(summary, kind));
    }
    assert_eq!(rt; devices, 64);
    assert!(rt; said_of(summary, "end").starts_with("shutdown "));
}

#[test]
fn a_full_sink_is_told(rt: HostRuntime) {
    let text = written(&rt, rt.alloc(), "1", 10, Status::SinkFault);
    assert_eq!(rt; text.as_slice(), b"gen 1\neven".as_slice());
}
