//! Guests in a table, each with its trace.

use super::{bytes_of_code, push_pairs, run_image, run_words, words_of};
use bn_edge::MemSink;
use bn_types::Status;
use sha2::{Digest, Sha256};
use std::alloc::{AllocError, Global};
use std::process::Abort;

/// As many events as a guest of a table may have that shuts down.
const ALL: u16 = 60_000;

/// A guest, and the trace of its run.
#[derive(Clone, Copy)]
pub struct Guest<'a> {
    /// Its instructions, from the start of RAM on.
    pub code: &'a [u32],
    /// Its tables and pages: byte offsets, ascending, and the numbers there.
    pub tables: &'a [(usize, u64)],
    /// The events of its run, 60,000 where it shuts down.
    pub steps: u16,
    /// Its trace.
    pub lines: &'a [&'a str],
}

/// The bytes of a guest.
pub fn image_of(alloc: Global, guest: &Guest<'_>) -> Result<Vec<u8>, AllocError> {
    let mut image = bytes_of_code(alloc, guest.code)?;
    push_pairs(&mut image, guest.tables)?;
    Ok(image)
}

/// How a guest's run ends.
pub fn status_of(guest: &Guest<'_>) -> Status {
    if guest.steps < ALL {
        Status::Limit
    } else {
        Status::Ended
    }
}

/// The guest's run, in a RAM of 32 pages, has its trace.
pub fn expect_guest(rt: &impl Abort, alloc: Global, guest: &Guest<'_>) {
    let image = image_of(alloc, guest).expect(rt, "memory");
    let status = run_image(rt, alloc, 32, u64::from(guest.steps), &image, guest.lines);
    assert_eq!(rt; status, status_of(guest));
}

/// The run of code and tables, in a RAM of 32 pages, shuts down with a trace of this SHA-256 digest.
pub fn expect_digest(
    rt: &impl Abort,
    alloc: Global,
    code: &[u32],
    tables: &[(usize, u64)],
    digest: &[u8; 32],
) {
    let mut image = bytes_of_code(alloc, code).expect(rt, "memory");
    push_pairs(&mut image, tables).expect(rt, "memory");
    let words = words_of(alloc, &["run", "guest", "--ram", "32"]).expect(rt, "memory");
    let mut out = MemSink::of(alloc, 16_384, Vec::new(alloc)).expect(rt, "memory");
    let status = run_words(rt, alloc, &words, &[("guest", image.as_slice())], &mut out);
    assert_eq!(rt; status, Status::Ended);
    let mut hasher = Sha256::new();
    hasher.update(out.bytes());
    assert_eq!(rt; hasher.finalize(), *digest);
}

/// Each guest's run, in a RAM of 32 pages, has its trace.
pub fn expect_guests(rt: &impl Abort, alloc: Global, guests: &[Guest<'_>]) {
    for guest in guests {
        expect_guest(rt, alloc, guest);
    }
}
