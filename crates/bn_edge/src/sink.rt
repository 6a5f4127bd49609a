ghost use Rattle.std.specs.Prelude.{◌≡◌, ◌<◌, ◌≤◌, IfOk, OnErr, length, take};
ghost use Rattle.bn_edge.specs.Accounts.{SinkAccount};
ghost use Rattle.bn_edge.specs.Counts.{CountsRefusals};
ghost use Rattle.bn_edge.specs.Written.{Writes};

use crate::SinkFailed;

/// Bytes that are written one after another. Whether a sink tells them never changes.
pub trait Sink {
    /// What it has written, where it tells that, and its faults.
    ghost account: { Self → SinkAccount };

    /// Writes a front of the piece and says how many bytes that are.
    ///
    /// `SinkFailed` writes nothing, and is counted in `faults`.
    fn write(&mut self, piece: &[u8]) -> Result<usize, SinkFailed>
        requires { 0 < length piece.now }
        ensures some { IfOk result (λ count. 0 < count) }
        ensures within { IfOk result (λ count. count ≤ length piece.now) }
        ensures ok { IfOk result (λ count.
            Writes (account self.old) (account self.new) (take count piece.now)) }
        ensures err { OnErr result ((account self.new).written ≡ (account self.old).written) }
        ensures failed { CountsRefusals result
            (account self.old).faults (account self.new).faults };
}
