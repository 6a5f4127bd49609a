use crate::Reg;

/// Where a CSR instruction has its operand from.
#[derive(Clone, Copy, Debug, PartialEq, Eq)]
pub enum CsrFrom {
    Register(Reg),
    /// A number from 0 to 31.
    Number(u8),
}
