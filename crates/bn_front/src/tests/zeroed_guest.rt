//! Guests one of whose modules is zeroed before an event, each with its traces.

use super::call;
use super::guest::{Guest, expect_guest, image_of, status_of};
use std::alloc::{AllocError, Global};
use std::process::Abort;

/// The rest of a run that is as if no module was zeroed.
pub const NO_LINES: [&str; 0] = [];

/// A run of a guest in which a module is zeroed, and its trace.
#[derive(Clone, Copy)]
pub struct Zeroed<'a> {
    /// The module and the event, as a word has them.
    pub place: &'a str,
    /// How many lines it has of the run in which none is zeroed.
    pub kept: usize,
    /// The lines behind them.
    pub rest: &'a [&'a str],
}

/// A guest, and its runs in which a module is zeroed.
#[derive(Clone, Copy)]
pub struct ZeroedGuest<'a> {
    /// The guest, with the trace of the run in which none is zeroed.
    pub guest: Guest<'a>,
    /// The other runs.
    pub runs: &'a [Zeroed<'a>],
}

/// The trace of a run whose other lines are these.
pub fn trace_of<'a>(
    alloc: Global,
    lines: &[&'a str],
    run: &Zeroed<'a>,
) -> Result<Vec<&'a str>, AllocError> {
    let mut trace = Vec::new(alloc);
    for line in lines.iter().take(run.kept) {
        trace.push(*line)?;
    }
    for line in run.rest {
        trace.push(*line)?;
    }
    Ok(trace)
}

fn expect_zeroed(rt: &impl Abort, alloc: Global, guest: &Guest<'_>, run: &Zeroed<'_>) {
    let steps = guest.steps;
    let most = format!(in alloc; "{steps}").expect(rt, "memory");
    let words = [
        "run", "guest", "--ram", "32", "--steps", &most, "--blind", run.place,
    ];
    let image = image_of(alloc, guest).expect(rt, "memory");
    let trace = trace_of(alloc, guest.lines, run).expect(rt, "memory");
    let status = call(rt, alloc, &words, &[("guest", &image)], &trace);
    assert_eq!(rt; status, status_of(guest));
}

/// All runs of the guest, in a RAM of 32 pages, have their traces.
pub fn expect_zeroed_guest(rt: &impl Abort, alloc: Global, zeroed: &ZeroedGuest<'_>) {
    expect_guest(rt, alloc, &zeroed.guest);
    for run in zeroed.runs {
        expect_zeroed(rt, alloc, &zeroed.guest, run);
    }
}
