//! Calls of the program in a table, each with what it writes.

use super::words::words_in;
use super::{HELLO, bytes_of_code, call_words};
use bn_types::Status;
use std::alloc::Global;
use std::process::Abort;

/// A call of the program, where the file `a.img` prints A and shuts down, the file `e` is empty,
/// and the file `s` is a script.
#[derive(Clone, Copy)]
pub struct Called<'a> {
    /// The words, with a space between them.
    pub words: &'a str,
    /// What the file `s` has.
    pub script: &'a str,
    /// Its status.
    pub status: Status,
    /// What it writes.
    pub text: &'a str,
}

/// The status of a call that writes this text.
fn status_of(rt: &impl Abort, alloc: Global, words: &str, script: &str, text: &str) -> Status {
    let image = bytes_of_code(alloc, &HELLO).expect(rt, "memory");
    let list = words_in(alloc, words).expect(rt, "memory");
    let script = Vec::from_slice(alloc, script.as_bytes()).expect(rt, "memory");
    let files: [(&str, &[u8]); 3] = [("a.img", &image), ("e", &[]), ("s", &script)];
    call_words(rt, alloc, &list, &files, &[text])
}

/// Each call has its status and writes its text.
pub fn expect_calls(rt: &impl Abort, alloc: Global, calls: &[Called<'_>]) {
    for called in calls {
        let status = status_of(rt, alloc, called.words, called.script, called.text);
        assert_eq!(rt; status, called.status, "of {}", called.words);
    }
}
