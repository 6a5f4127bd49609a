//! The words of the CSR instructions.
ghost use Rattle.bn_model.specs.Encoding.{Encodes};
ghost use Rattle.bn_model.specs.InsnRanges.{IsInRange};

use crate::encoding::formats::word_number;
use crate::opcodes::SYSTEM;
use bn_types::{CsrFrom, CsrOp, Insn, Reg};

fn csr_by_register(op: CsrOp, number: u16, from: Reg, rd: Reg) -> u32
    requires { IsInRange (Insn.Csr op number (CsrFrom.Register from) rd) }
    ensures { Encodes result (Insn.Csr op number (CsrFrom.Register from) rd) }
{
    match op {
        CsrOp::Write => word_number(SYSTEM, 0b001, rd, from, number),
        CsrOp::Set => word_number(SYSTEM, 0b010, rd, from, number),
        CsrOp::Clear => word_number(SYSTEM, 0b011, rd, from, number),
    }
}

fn csr_by_number(op: CsrOp, number: u16, from: u8, rd: Reg) -> u32
    requires { IsInRange (Insn.Csr op number (CsrFrom.Number from) rd) }
    ensures { Encodes result (Insn.Csr op number (CsrFrom.Number from) rd) }
{
    match op {
        CsrOp::Write => word_number(SYSTEM, 0b101, rd, Reg(from), number),
        CsrOp::Set => word_number(SYSTEM, 0b110, rd, Reg(from), number),
        CsrOp::Clear => word_number(SYSTEM, 0b111, rd, Reg(from), number),
    }
}

pub fn csr(op: CsrOp, number: u16, from: CsrFrom, rd: Reg) -> u32
    requires { IsInRange (Insn.Csr op number from rd) }
    ensures { Encodes result (Insn.Csr op number from rd) }
{
    match from {
        CsrFrom::Register(register) => csr_by_register(op, number, register, rd),
        CsrFrom::Number(operand) => csr_by_number(op, number, operand, rd),
    }
}
