ghost use Rattle.std.specs.Prelude.{◌≡◌, IfOk, OnOk, OnErr};
ghost use Rattle.bn_edge.specs.Accounts.{ChipAccount};
ghost use Rattle.bn_edge.specs.Counts.{CountsRefusals};
ghost use Rattle.bn_edge.specs.Registers.{GivesRegister, replaced, IsOldOrNew};

use crate::ChipFailed;

/// A register of 32 bytes, which outlives a crash. Whether a chip tells it never changes.
pub trait Chip {
    /// Its register, where it tells it, and its faults.
    ghost account: { Self → ChipAccount };

    /// The register. It changes nothing, also where it fails.
    ///
    /// `ChipFailed` is counted in `faults`.
    fn register(&mut self) -> Result<[u8; 32], ChipFailed>
        ensures gives { IfOk result (λ bytes. GivesRegister (account self.old).register bytes) }
        ensures kept { (account self.new).register ≡ (account self.old).register }
        ensures failed { CountsRefusals result
            (account self.old).faults (account self.new).faults };

    /// Sets the register. A crash meanwhile leaves the old value or the new one.
    ///
    /// `ChipFailed` leaves the old value or the new one, and is counted in `faults`.
    fn set_register(&mut self, value: &[u8; 32]) -> Result<(), ChipFailed>
        ensures ok { OnOk result ((account self.new).register
            ≡ replaced (account self.old).register value.now) }
        ensures err { OnErr result (IsOldOrNew (account self.old).register value.now
            (account self.new).register) }
        ensures failed { CountsRefusals result
            (account self.old).faults (account self.new).faults };
}
