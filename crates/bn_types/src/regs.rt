ghost use Rattle.std.specs.Prelude.{◌≡◌};
ghost use Rattle.bn_types.specs.Registers.{zero_registers};

/// The integer registers x0 to x31. x0 is 0.
#[derive(Clone, Copy, Debug, Default, PartialEq, Eq)]
pub struct Regs {
    pub x: [u64; 32],
}

impl Regs {
    /// All registers 0.
    pub fn zero() -> Regs
        ensures { result ≡ zero_registers }
    {
        Regs { x: [0; 32] }
    }
}
