use crate::{CsrFrom, CsrOp, ImmOp, Op, Reg, Secure, ShiftOp, Test, Width, WordOp};

/// An instruction of RV64I, Zicsr, the supervisor level or the secure extension. Registers are
/// below 32.
#[derive(Clone, Copy, Debug, PartialEq, Eq)]
pub enum Insn {
    /// `imm` is a multiple of 4,096.
    Lui {
        rd: Reg,
        imm: i32,
    },
    /// `imm` is a multiple of 4,096.
    Auipc {
        rd: Reg,
        imm: i32,
    },
    /// `offset` is even, from -2^20 to 2^20 - 2.
    Jal {
        rd: Reg,
        offset: i32,
    },
    /// `offset` is from -2,048 to 2,047.
    Jalr {
        rd: Reg,
        base: Reg,
        offset: i32,
    },
    /// `offset` is even, from -4,096 to 4,094.
    Branch {
        test: Test,
        left: Reg,
        right: Reg,
        offset: i32,
    },
    /// `offset` is from -2,048 to 2,047. A load of 8 bytes is signed.
    Load {
        width: Width,
        signed: bool,
        rd: Reg,
        base: Reg,
        offset: i32,
    },
    /// `offset` is from -2,048 to 2,047.
    Store {
        width: Width,
        base: Reg,
        value: Reg,
        offset: i32,
    },
    /// `imm` is from -2,048 to 2,047.
    Imm {
        op: ImmOp,
        rd: Reg,
        left: Reg,
        imm: i32,
    },
    /// `amount` is below 64.
    Shift {
        op: ShiftOp,
        rd: Reg,
        left: Reg,
        amount: u8,
    },
    Reg2 {
        op: Op,
        rd: Reg,
        left: Reg,
        right: Reg,
    },
    /// `imm` is from -2,048 to 2,047.
    AddiW {
        rd: Reg,
        left: Reg,
        imm: i32,
    },
    /// `amount` is below 32.
    ShiftW {
        op: ShiftOp,
        rd: Reg,
        left: Reg,
        amount: u8,
    },
    Reg2W {
        op: WordOp,
        rd: Reg,
        left: Reg,
        right: Reg,
    },
    /// `high` is bits 31:20 of the word, below 4,096.
    Fence {
        high: u16,
        rs1: Reg,
        rd: Reg,
    },
    /// `number` is the CSR's, below 4,096.
    Csr {
        op: CsrOp,
        number: u16,
        from: CsrFrom,
        rd: Reg,
    },
    Ecall,
    Ebreak,
    Sret,
    Wfi,
    SfenceVma {
        rs1: Reg,
        rs2: Reg,
    },
    Bastion(Secure),
}
