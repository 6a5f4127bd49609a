use crate::{Tally, make};
use bn_types::{Digest, Finish};
use sha2::{Digest as Hash, Sha256};
use std::alloc::{AllocError, Global};
use std::test::Fail;

// Numbers, and the SHA-256 of the image and of the script of each, by tests/generator.py.
const MADE: [(u64, &str, &str); 4] = [
    (
        0,
        "e8424cfdf6433ca7516eb89a8e35aa3442946f7f9c7de6550d74400cab9e6d40",
        "4604de7690c64c15d554abdf5fd4e721453dccdc27cd59c955c5912315de6711",
    ),
    (
        1,
        "4bff0b0f6ce17f70daf018c8b248a47570523f8c179e5d2dee0569ede8af262f",
        "8eca606a7abcb1ebd87bedb0f7d7ca4563191e8c9177fba1d50e3598d263bb82",
    ),
    (
        1_956_058_742,
        "85fedd1f63dc63a08eb9869d17abe625b8ce3dc7cc22551dbce3b5578ceb8cb8",
        "9345e79e32bba257072ddd4c5b2a877fb4c85639fb0ca61a2e75a4fbd5176a95",
    ),
    (
        18_446_744_073_709_551_615,
        "c8fb8aa667cdc17d5c5f63b2897f2f8058768b896340569643c13c2ca180a96b",
        "af3e2a230f54d76f279aae67bc4c51963b25ccb0008bb2e5aed994f7fb9e0807",
    ),
];

fn has_digest(bytes: &[u8], wanted: &str) -> bool {
    let mut hasher = Sha256::new();
    hasher.update(bytes);
    let digest = hasher.finalize();
    let mut digits = [0; 64];
    match hex::encode_to_slice(digest, &mut digits) {
        Ok(()) => digits.as_slice() == wanted.as_bytes(),
        Err(_) => false,
    }
}

// No clause tells the digests: these are another generator's.
#[test]
fn another_generator_makes_the_same(rt: HostRuntime) -> Result<(), Fail> {
    for (number, image, script) in MADE {
        let made = make(rt.alloc(), number)?;
        assert!(rt;
            has_digest(made.image.as_slice(), image),
            "the image of {number}"
        );
        assert!(rt;
            has_digest(made.script.as_slice(), script),
            "the script of {number}"
        );
    }
    Ok(())
}

// The summary of number 1, by tests/machine, which runs what it makes.
const SUMMARY: [&str; 21] = [
    "gen 1",
    "events 177610",
    "out 6400",
    "deny 0",
    "stop 283",
    "trap 352",
    "launch 8",
    "call 6400",
    "ret 6400",
    "resume 283",
    "evict 0",
    "sset 0",
    "refuse 0",
    "start 0",
    "key 17",
    "nokey 0",
    "poke 9",
    "nopoke 9",
    "peek 28",
    "nopeek 1",
    "end shutdown 066f53632e7696254b9f5e2237d3720837bbe231d536ab0168c1386726a5a4fa",
];

fn text_of(alloc: Global, lines: &[&str]) -> Result<Vec<u8>, AllocError> {
    let mut text = Vec::new(alloc);
    for line in lines {
        text.extend_from_slice(line.as_bytes())?;
        text.push(b'\n')?;
    }
    Ok(text)
}

// Counts as many lines of a kind as a line of the summary says.
fn count_all(tally: &mut Tally, alloc: Global, line: &str) -> Result<(), AllocError> {
    let text = text_of(alloc, &[line])?;
    if let Some((_, count)) = line.split_once(' ') {
        for _line in 0..count.parse::<u32>().unwrap_or(0) {
            tally.count(text.as_slice());
        }
    }
    Ok(())
}

#[test]
fn a_summary_has_each_kind_of_line(rt: HostRuntime) -> Result<(), Fail> {
    let mut tally = Tally::new();
    for line in &SUMMARY[2..20] {
        count_all(&mut tally, rt.alloc(), line)?;
    }
    let mut digest = [0; 32];
    hex::decode_to_slice(&SUMMARY[20][13..], &mut digest)?;
    let text = tally.summary(rt.alloc(), 1, 177610, Finish::Shutdown, &Digest(digest))?;
    let wanted = text_of(rt.alloc(), &SUMMARY)?;
    assert!(rt; text.as_slice() == wanted.as_slice());
    Ok(())
}
