use crate::bastion;
use bn_edge::{MemChip, MemDesk, MemSink, MemVault};
use bn_types::Status;
use std::alloc::{AllocError, Global};
use std::process::Abort;

mod blind_words;
mod called;
mod calls;
mod changed_tables;
mod command_lines;
mod counters;
mod elf;
mod execution;
mod generated;
mod gigapages;
mod guest;
mod harts;
mod hello;
mod interrupts;
mod launches;
mod non_canonical;
mod outside;
mod owned_pages;
mod permissions;
mod precedence;
mod probe;
mod registers;
mod roots;
mod scripted_guest;
mod scripts;
mod sealed;
mod secure_words;
mod stores;
mod storing;
mod superpages;
mod switches;
mod top;
mod trap_values;
mod upper_half;
mod user;
mod user_pages;
mod waiting_keys;
mod walk;
mod words;
mod zeroed_guest;
mod zeroing;

/// Prints A and shuts down.
const HELLO: [u32; 5] = [
    0x00100893, // addi x17,x0,1
    0x04100513, // addi x10,x0,65
    0x00000073, // ecall
    0x00800893, // addi x17,x0,8
    0x00000073, // ecall
];

/// The bytes of instructions.
fn bytes_of_code(alloc: Global, code: &[u32]) -> Result<Vec<u8>, AllocError> {
    let mut bytes = Vec::new(alloc);
    push_code(&mut bytes, code)?;
    Ok(bytes)
}

fn push_code(image: &mut Vec<u8>, code: &[u32]) -> Result<(), AllocError> {
    for word in code {
        image.extend_from_slice(&word.to_le_bytes())?;
    }
    Ok(())
}

/// Appends zeros up to the byte offset, and there the numbers.
fn push_numbers(image: &mut Vec<u8>, offset: usize, numbers: &[u64]) -> Result<(), AllocError> {
    image.resize(offset, 0)?;
    for number in numbers {
        image.extend_from_slice(&number.to_le_bytes())?;
    }
    Ok(())
}

/// Appends numbers at ascending byte offsets, and zeros between them.
fn push_pairs(image: &mut Vec<u8>, pairs: &[(usize, u64)]) -> Result<(), AllocError> {
    for (offset, number) in pairs {
        push_numbers(image, *offset, &[*number])?;
    }
    Ok(())
}

fn text(alloc: Global, lines: &[&str]) -> Result<String, AllocError> {
    let mut text = String::new(alloc);
    for line in lines {
        text.push_str(line)?;
    }
    Ok(text)
}

fn words_of(alloc: Global, words: &[&str]) -> Result<Vec<Vec<u8>>, AllocError> {
    let mut list = Vec::new(alloc);
    for word in words {
        list.push(Vec::from_slice(alloc, word.as_bytes())?)?;
    }
    Ok(list)
}

/// A desk that has these files.
fn desk_of(alloc: Global, files: &[(&str, &[u8])], fails: &[u64]) -> Result<MemDesk, AllocError> {
    let mut list = Vec::new(alloc);
    for (name, bytes) in files {
        list.push((
            String::from_str(alloc, name)?,
            Vec::from_slice(alloc, *bytes)?,
        ))?;
    }
    Ok(MemDesk::of(list, Vec::from_slice(alloc, fails)?))
}

/// Calls with the words where there are these files, and answers the status where the text is this.
fn call(
    rt: &impl Abort,
    alloc: Global,
    words: &[&str],
    files: &[(&str, &[u8])],
    pieces: &[&str],
) -> Status {
    let list = words_of(alloc, words).expect(rt, "memory");
    call_words(rt, alloc, &list, files, pieces)
}

/// The same with words in bytes.
fn call_words(
    rt: &impl Abort,
    alloc: Global,
    words: &[Vec<u8>],
    files: &[(&str, &[u8])],
    pieces: &[&str],
) -> Status {
    let mut out = MemSink::of(alloc, 16_384, Vec::new(alloc)).expect(rt, "memory");
    let status = run_words(rt, alloc, words, files, &mut out);
    let expected = text(alloc, pieces).expect(rt, "memory");
    assert_eq!(rt; out.bytes(), expected.as_bytes(), "of {words:?}");
    status
}

/// Calls with the words where there are these files, and no store.
fn run_words(
    rt: &impl Abort,
    alloc: Global,
    words: &[Vec<u8>],
    files: &[(&str, &[u8])],
    out: &mut MemSink,
) -> Status {
    let mut desk = desk_of(alloc, files, &[]).expect(rt, "memory");
    let mut vault = MemVault::of(alloc, b"", b"", Vec::new(alloc)).expect(rt, "memory");
    let mut chip = MemChip::of([0; 32], Vec::new(alloc));
    bastion(alloc, words, &mut desk, &mut vault, &mut chip, out)
}

/// Runs an image for at most so many events, and answers the status where its trace is these lines.
/// The last of them has the number of events and SHA-256 of RAM at the end.
fn run_image(
    rt: &impl Abort,
    alloc: Global,
    ram_pages: u32,
    steps: u64,
    image: &[u8],
    lines: &[&str],
) -> Status {
    let ram = format!(in alloc; "{ram_pages}").expect(rt, "memory");
    let most = format!(in alloc; "{steps}").expect(rt, "memory");
    let words = ["run", "guest", "--ram", &ram, "--steps", &most];
    call(rt, alloc, &words, &[("guest", image)], lines)
}

/// The image shuts down in a RAM of so many pages with this trace.
fn expect_image(rt: &impl Abort, alloc: Global, ram_pages: u32, image: &[u8], lines: &[&str]) {
    let status = run_image(rt, alloc, ram_pages, 100_000, image, lines);
    assert_eq!(rt; status, Status::Ended);
}

/// So does the image that is this code.
fn expect_code(rt: &impl Abort, alloc: Global, ram_pages: u32, code: &[u32], lines: &[&str]) {
    let image = bytes_of_code(alloc, code).expect(rt, "memory");
    expect_image(rt, alloc, ram_pages, &image, lines);
}

#[test]
fn every_instruction_as_another_machine_does_it(rt: HostRuntime) {
    let mut image = bytes_of_code(rt.alloc(), &walk::CODE).expect(&rt, "memory");
    let end = image.len();
    push_numbers(&mut image, end, &walk::OPERANDS).expect(&rt, "memory");
    expect_image(&rt, rt.alloc(), 1024, &image, &walk::LINES);
}

#[test]
fn user_mode_may_not(rt: HostRuntime) {
    expect_code(&rt, rt.alloc(), 16, &user::CODE, &user::LINES);
}
