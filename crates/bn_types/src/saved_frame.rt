ghost use Rattle.std.specs.Prelude.{◌≡◌};
ghost use Rattle.bn_types.specs.Registers.{zero_frame};

use crate::{Mode, Regs};

/// What of a hart is kept while other code runs on it: its registers, pc and mode.
#[derive(Clone, Copy, Debug, Default, PartialEq, Eq)]
pub struct SavedFrame {
    pub regs: Regs,
    /// A multiple of 4.
    pub pc: u64,
    pub mode: Mode,
}

impl SavedFrame {
    /// All zeros, in mode U.
    pub fn zero() -> SavedFrame
        ensures { result ≡ zero_frame }
    {
        SavedFrame {
            regs: Regs::zero(),
            pc: 0,
            mode: Mode::U,
        }
    }
}
