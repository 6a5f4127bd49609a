ghost use Rattle.std.specs.Prelude.{◌≡◌, ℕ, ◌<◌, ◌≤◌, None, IfOk, OnErr, length, take};
ghost use Rattle.std.specs.Io.KnownBytes.{Appends, Keeps};

use crate::counted::counted;
use crate::{Sink, SinkFailed};
use std::io;
use std::io::{ErrorKind, Write};

/// Standard output, written through. It tells nothing of what was written.
#[derive(Drop)]
pub struct OutSink<'a, R: Print> {
    rt: &'a R,
    faults: u64,
}

impl<'a, R: Print> OutSink<'a, R> {
    /// The runtime's standard output.
    pub fn of(rt: &'a R) -> OutSink<'a, R>
        ensures { result.faults ≡ 0 }
    {
        OutSink { rt, faults: 0 }
    }
}

impl<R: Print> Sink for OutSink<'_, R> {
    ghost account = { λ s. record { written = None; faults = s.faults } };

    fn write(&mut self, piece: &[u8]) -> Result<usize, SinkFailed> {
        let answer = write_some(&mut io::writer(self.rt), piece);
        if answer.is_err() {
            self.faults = counted(self.faults);
        }
        answer
    }
}

/// One write, made again where a signal interrupts it. It is kept out of the loop over a run's
/// events, most of which write nothing.
#[inline(never)]
fn write_some<W: Write>(out: &mut W, piece: &[u8]) -> Result<usize, SinkFailed>
    ensures some { IfOk result (λ count. 0 < count) }
    ensures within { IfOk result (λ count. count ≤ length piece.now) }
    ensures content { IfOk result (λ count.
        Appends (W.contents out.old) (W.contents out.new) (take count piece.now)) }
    ensures kept { OnErr result (Keeps (W.contents out.old) (W.contents out.new)) }
{
    for _attempt in 0..u64::MAX {
        match out.write(piece) {
            Ok(0) => return Err(SinkFailed),
            Ok(count) => return Ok(count),
            Err(error) if error.kind() == ErrorKind::Interrupted => {}
            Err(_) => return Err(SinkFailed),
        }
    }
    Err(SinkFailed)
}
