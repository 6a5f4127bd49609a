use crate::{Cause, CsrOp, Reg, Secure, Width};

/// What an instruction asks of the machine, once its registers are read. Registers are below 32.
#[derive(Clone, Copy, Debug, PartialEq, Eq)]
pub enum Act {
    /// Sets rd and goes on.
    Set {
        rd: Reg,
        value: u64,
    },
    /// Goes to the target and sets rd to the link.
    Jump {
        target: u64,
        rd: Reg,
        link: u64,
    },
    /// Goes on.
    Next,
    /// Loads into rd from the virtual address.
    LoadAt {
        va: u64,
        width: Width,
        signed: bool,
        rd: Reg,
    },
    /// Stores the low bytes of the value at the virtual address.
    StoreAt {
        va: u64,
        width: Width,
        value: u64,
    },
    /// Reads and writes a CSR.
    Csr {
        op: CsrOp,
        number: u16,
        operand: u64,
        reads: bool,
        writes: bool,
        rd: Reg,
    },
    Ecall,
    Ebreak,
    Sret,
    Wfi,
    SfenceVma,
    Bastion(Secure),
    /// Traps.
    Trap {
        cause: Cause,
        value: u64,
    },
}
