/// The number of an integer register, 0 to 31 (Unprivileged ISA, "RV32I Base Integer Instruction
/// Set").
#[derive(Clone, Copy, Debug, Default, PartialEq, Eq)]
pub struct Reg(pub u8);
