ghost use Rattle.std.specs.Prelude.{◌≡◌, OnOk, OnErr};
ghost use Rattle.bn_edge.specs.Counts.{CountsRefusals};
ghost use Rattle.bn_edge.specs.Written.{Writes, WritesFront};

use crate::{Sink, SinkFailed};

/// Writes all bytes of a piece, in as many writes as it takes.
///
/// `SinkFailed` comes from the write that failed, after a proper front of the piece.
pub fn write_all<O: Sink>(out: &mut O, piece: &[u8]) -> Result<(), SinkFailed>
    ensures ok { OnOk result (Writes (O.account out.old) (O.account out.new) piece.now) }
    ensures err { OnErr result (WritesFront (O.account out.old) (O.account out.new) piece.now) }
    ensures failed { CountsRefusals result (O.account out.old).faults (O.account out.new).faults }
{
    let mut rest = piece;
    while !rest.is_empty() {
        let count = out.write(rest)?;
        rest = &rest[count..];
    }
    Ok(())
}
