//! From an instruction to its word.
ghost use Rattle.std.specs.Prelude.{◌≡◌, ℕ, ◌^◌, ◌<◌};
ghost use Rattle.bn_model.specs.Decoding.{insn_of};
ghost use Rattle.bn_model.specs.Encoding.{Encodes};
ghost use Rattle.bn_model.specs.InsnRanges.{IsInRange};

use crate::encoding::arithmetic::{imm, reg2, reg2_w, shift, shift_w};
use crate::encoding::control::branch;
use crate::encoding::formats::{word_i, word_j, word_number, word_r, word_u};
use crate::encoding::memory::{load, store};
use crate::encoding::secure_words::secure;
use crate::encoding::system::csr;
use crate::opcodes::{AUIPC, JAL, JALR, LUI, MISC_MEM, OP_IMM_32, SYSTEM};
use bn_types::{Insn, Reg};

mod arithmetic;
mod control;
mod formats;
mod immediates;
mod memory;
mod secure_words;
mod system;

fn by_insn(insn: &Insn) -> u32
    requires { IsInRange insn.now }
    ensures { Encodes result insn.now }
{
    match *insn {
        Insn::Lui { rd, imm } => word_u(LUI, rd, imm),
        Insn::Auipc { rd, imm } => word_u(AUIPC, rd, imm),
        Insn::Jal { rd, offset } => word_j(JAL, rd, offset),
        Insn::Jalr { rd, base, offset } => word_i(JALR, 0b000, rd, base, offset),
        Insn::Branch {
            test,
            left,
            right,
            offset,
        } => branch(test, left, right, offset),
        Insn::Load {
            width,
            signed,
            rd,
            base,
            offset,
        } => load(width, signed, rd, base, offset),
        Insn::Store {
            width,
            base,
            value,
            offset,
        } => store(width, base, value, offset),
        Insn::Imm {
            op,
            rd,
            left,
            imm: immediate,
        } => imm(op, rd, left, immediate),
        Insn::Shift {
            op,
            rd,
            left,
            amount,
        } => shift(op, rd, left, amount),
        Insn::Reg2 {
            op,
            rd,
            left,
            right,
        } => reg2(op, rd, left, right),
        Insn::AddiW { rd, left, imm } => word_i(OP_IMM_32, 0b000, rd, left, imm),
        Insn::ShiftW {
            op,
            rd,
            left,
            amount,
        } => shift_w(op, rd, left, amount),
        Insn::Reg2W {
            op,
            rd,
            left,
            right,
        } => reg2_w(op, rd, left, right),
        Insn::Fence { high, rs1, rd } => word_number(MISC_MEM, 0b000, rd, rs1, high),
        Insn::Csr {
            op,
            number,
            from,
            rd,
        } => csr(op, number, from, rd),
        Insn::Ecall => 0x0000_0073,
        Insn::Ebreak => 0x0010_0073,
        Insn::Sret => 0x1020_0073,
        Insn::Wfi => 0x1050_0073,
        Insn::SfenceVma { rs1, rs2 } => word_r(SYSTEM, 0b000, 0b0001001, Reg(0), rs1, rs2),
        Insn::Bastion(instruction) => secure(instruction),
    }
}

/// The word of an instruction (Unprivileged ISA, "RV32/64G Instruction Set Listings"; Privileged
/// ISA, "RISC-V Privileged Instruction Set Listings"), whose fields must be in the ranges that
/// `Insn` names.
///
/// `decode` gives that instruction for this word, and for no other.
pub fn encode(insn: &Insn) -> u32
    requires { IsInRange insn.now }
    ensures fits { result < 2 ^ 32 }
    ensures listed { Encodes result insn.now }
    ensures decoded { insn_of result ≡ Some insn.now }
    ensures only { (word : ℕ) → word < 2 ^ 32 → Encodes word insn.now → result ≡ word }
    ensures back { (word : ℕ) → word < 2 ^ 32 → insn_of word ≡ Some insn.now → result ≡ word }
{
    by_insn(insn)
}
