//! The program over words, files, a store and a sink in memory.
use crate::run;
use bn_edge::{MemChip, MemDesk, MemSink, MemVault, MemWords};
use bn_types::Status;
use std::alloc::{AllocError, Global};
use std::test::Fail;

/// Writes A to the console and shuts down.
const IMAGE: [u8; 20] = [
    0x93, 0x08, 0x10, 0x00, 0x13, 0x05, 0x10, 0x04, 0x73, 0x00, 0x00, 0x00, 0x93, 0x08, 0x80, 0x00,
    0x73, 0x00, 0x00, 0x00,
];

type Text = Vec<u8>;

fn long_word(alloc: Global, byte: u8, count: usize) -> Result<Text, AllocError> {
    let mut word = Vec::new(alloc);
    for _byte in 0..count {
        word.push(byte)?;
    }
    Ok(word)
}

/// The status of the words, and what is written, where the image has this name.
fn answer(alloc: Global, words: Vec<Text>, name: &[u8]) -> Result<(Status, Text), Fail> {
    let mut files = Vec::new(alloc);
    let name = std::str::from_utf8(name).ok().ok_or("not UTF-8")?;
    files.push((
        String::from_str(alloc, name)?,
        Vec::from_slice(alloc, &IMAGE)?,
    ))?;
    let mut desk = MemDesk::of(files, Vec::new(alloc));
    let mut out = MemSink::of(alloc, 4096, Vec::new(alloc))
        .ok()
        .ok_or("no memory")?;
    let mut vault = MemVault::of(alloc, b"", b"", Vec::new(alloc))
        .ok()
        .ok_or("no memory")?;
    let mut chip = MemChip::of([0; 32], Vec::new(alloc));
    let words = MemWords::of(words);
    let status = run(alloc, &words, &mut desk, &mut vault, &mut chip, &mut out);
    Ok((status, Vec::from_slice(alloc, out.bytes())?))
}

fn words_of(alloc: Global, words: &[&[u8]]) -> Result<Vec<Text>, AllocError> {
    let mut all = Vec::new(alloc);
    for word in words {
        all.push(Vec::from_slice(alloc, *word)?)?;
    }
    Ok(all)
}

/// The digest is `sha256sum` of the image and zeros up to 65,536 bytes.
const HELLO: &[u8] = b"out 2 0 41\n\
    end 5 shutdown 48d90c977b53ec20b07888c1bdf036d118b09f1de941f94e52b090b174aa4048\n";

#[test]
fn a_word_is_as_long_as_it_is_given(rt: HostRuntime) -> Result<(), Fail> {
    for length in [1, 127, 128, 129, 255, 256, 4096, 4097, 5000] {
        let name = long_word(rt.alloc(), b'a', length)?;
        let mut words = words_of(rt.alloc(), &[b"run"])?;
        words.push(Vec::from_slice(rt.alloc(), name.as_slice())?)?;
        words.push(Vec::from_slice(rt.alloc(), b"--ram")?)?;
        words.push(Vec::from_slice(rt.alloc(), b"16")?)?;
        let (status, text) = answer(rt.alloc(), words, name.as_slice())?;
        assert_eq!(rt; status, Status::Ended, "at {length}");
        assert!(rt; text.as_slice() == HELLO, "at {length}");
    }
    Ok(())
}

#[test]
fn every_word_counts(rt: HostRuntime) -> Result<(), Fail> {
    let cases: [(&[&[u8]], Status); 6] = [
        (
            &[b"run", b"a", b"--ram", b"16", b"--steps", b"4"],
            Status::Limit,
        ),
        (
            &[b"run", b"a", b"--ram", b"16", b"--steps", b"5"],
            Status::Ended,
        ),
        (
            &[b"run", b"a", b"--ram", b"16", b"--steps", b"5", b"x"],
            Status::Words,
        ),
        (&[b"run", b"a", b""], Status::Words),
        (&[b"run", b"", b"a"], Status::Words),
        (&[], Status::Words),
    ];
    for (words, want) in cases {
        let (status, _) = answer(rt.alloc(), words_of(rt.alloc(), words)?, b"a")?;
        assert_eq!(rt; status, want, "of {} words", words.len());
    }
    Ok(())
}

#[test]
fn many_words_are_all_gathered(rt: HostRuntime) -> Result<(), Fail> {
    let mut words = words_of(rt.alloc(), &[b"run", b"a"])?;
    for _word in 0..1000 {
        words.push(Vec::from_slice(rt.alloc(), b"x")?)?;
    }
    let (status, text) = answer(rt.alloc(), words, b"a")?;
    assert_eq!(rt; status, Status::Words);
    assert!(rt; text.as_slice() == b"words\n".as_slice());
    Ok(())
}

#[test]
fn each_status_has_its_code(rt: HostRuntime) {
    for (status, code) in [
        (Status::Ended, 0),
        (Status::Words, 2),
        (Status::Limit, 3),
        (Status::NoFile, 4),
        (Status::Image, 5),
        (Status::Script, 6),
        (Status::Store, 7),
        (Status::SinkFault, 8),
        (Status::DeskFault, 9),
        (Status::VaultFault, 10),
        (Status::ChipFault, 11),
        (Status::Memory, 71),
    ] {
        assert_eq!(rt; status.code(), code, "of {status:?}");
    }
}
