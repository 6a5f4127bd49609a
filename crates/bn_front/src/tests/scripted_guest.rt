//! Guests of several harts that are run by scripts.

use super::guest::{Guest, image_of, status_of};
use super::words::words_in;
use super::zeroed_guest::{Zeroed, trace_of};
use super::{call_words, text};
use std::alloc::Global;
use std::process::Abort;

/// No run in which a module is zeroed.
pub const NO_RUNS: [Zeroed<'static>; 0] = [];

/// A guest, the script of its run, and runs by the same script in which a module is zeroed.
#[derive(Clone, Copy)]
pub struct ScriptedGuest<'a> {
    /// The guest, with the trace of the run in which none is zeroed.
    pub guest: Guest<'a>,
    /// The number of its harts.
    pub harts: &'a str,
    /// The script's lines.
    pub script: &'a [&'a str],
    /// The other runs.
    pub runs: &'a [Zeroed<'a>],
}

/// A run of the guest, with further words, has this trace.
fn expect_run(
    rt: &impl Abort,
    alloc: Global,
    scripted: &ScriptedGuest<'_>,
    place: &str,
    lines: &[&str],
) {
    let (steps, harts) = (scripted.guest.steps, scripted.harts);
    let options = format!(in alloc; "--steps {steps} --harts {harts} --blind {place}");
    let options = options.expect(rt, "memory");
    let order = format!(in alloc; "run guest --ram 32 --script s {options}").expect(rt, "memory");
    let words = words_in(alloc, &order).expect(rt, "memory");
    let image = image_of(alloc, &scripted.guest).expect(rt, "memory");
    let script = text(alloc, scripted.script).expect(rt, "memory");
    let files: [(&str, &[u8]); 2] = [("guest", &image), ("s", script.as_bytes())];
    let status = call_words(rt, alloc, &words, &files, lines);
    assert_eq!(rt; status, status_of(&scripted.guest));
}

/// The guest's runs, in a RAM of 32 pages and by its script, have their traces.
pub fn expect_scripted_guest(rt: &impl Abort, alloc: Global, scripted: &ScriptedGuest<'_>) {
    let lines = scripted.guest.lines;
    // there is no such module
    expect_run(rt, alloc, scripted, "65535@0", lines);
    for run in scripted.runs {
        let trace = trace_of(alloc, lines, run).expect(rt, "memory");
        expect_run(rt, alloc, scripted, run.place, &trace);
    }
}
