//! The words of sums, shifts, comparisons and the bitwise operations.
ghost use Rattle.bn_model.specs.Encoding.{Encodes};
ghost use Rattle.bn_model.specs.InsnRanges.{IsInRange};

use crate::encoding::formats::{word_i, word_r, word_shift, word_shift_w};
use crate::opcodes::{OP, OP_32, OP_IMM, OP_IMM_32};
use bn_types::{ImmOp, Insn, Op, Reg, ShiftOp, WordOp};

pub fn imm(op: ImmOp, rd: Reg, left: Reg, immediate: i32) -> u32
    requires { IsInRange (Insn.Imm op rd left immediate) }
    ensures { Encodes result (Insn.Imm op rd left immediate) }
{
    match op {
        ImmOp::Add => word_i(OP_IMM, 0b000, rd, left, immediate),
        ImmOp::Slt => word_i(OP_IMM, 0b010, rd, left, immediate),
        ImmOp::Sltu => word_i(OP_IMM, 0b011, rd, left, immediate),
        ImmOp::Xor => word_i(OP_IMM, 0b100, rd, left, immediate),
        ImmOp::Or => word_i(OP_IMM, 0b110, rd, left, immediate),
        ImmOp::And => word_i(OP_IMM, 0b111, rd, left, immediate),
    }
}

pub fn shift(op: ShiftOp, rd: Reg, left: Reg, amount: u8) -> u32
    requires { IsInRange (Insn.Shift op rd left amount) }
    ensures { Encodes result (Insn.Shift op rd left amount) }
{
    match op {
        ShiftOp::Left => word_shift(OP_IMM, 0b001, 0b000000, rd, left, amount),
        ShiftOp::Right => word_shift(OP_IMM, 0b101, 0b000000, rd, left, amount),
        ShiftOp::RightSigned => word_shift(OP_IMM, 0b101, 0b010000, rd, left, amount),
    }
}

pub fn reg2(op: Op, rd: Reg, left: Reg, right: Reg) -> u32
    requires { IsInRange (Insn.Reg2 op rd left right) }
    ensures { Encodes result (Insn.Reg2 op rd left right) }
{
    match op {
        Op::Add => word_r(OP, 0b000, 0b0000000, rd, left, right),
        Op::Sub => word_r(OP, 0b000, 0b0100000, rd, left, right),
        Op::Sll => word_r(OP, 0b001, 0b0000000, rd, left, right),
        Op::Slt => word_r(OP, 0b010, 0b0000000, rd, left, right),
        Op::Sltu => word_r(OP, 0b011, 0b0000000, rd, left, right),
        Op::Xor => word_r(OP, 0b100, 0b0000000, rd, left, right),
        Op::Srl => word_r(OP, 0b101, 0b0000000, rd, left, right),
        Op::Sra => word_r(OP, 0b101, 0b0100000, rd, left, right),
        Op::Or => word_r(OP, 0b110, 0b0000000, rd, left, right),
        Op::And => word_r(OP, 0b111, 0b0000000, rd, left, right),
    }
}

pub fn shift_w(op: ShiftOp, rd: Reg, left: Reg, amount: u8) -> u32
    requires { IsInRange (Insn.ShiftW op rd left amount) }
    ensures { Encodes result (Insn.ShiftW op rd left amount) }
{
    match op {
        ShiftOp::Left => word_shift_w(OP_IMM_32, 0b001, 0b0000000, rd, left, amount),
        ShiftOp::Right => word_shift_w(OP_IMM_32, 0b101, 0b0000000, rd, left, amount),
        ShiftOp::RightSigned => word_shift_w(OP_IMM_32, 0b101, 0b0100000, rd, left, amount),
    }
}

pub fn reg2_w(op: WordOp, rd: Reg, left: Reg, right: Reg) -> u32
    requires { IsInRange (Insn.Reg2W op rd left right) }
    ensures { Encodes result (Insn.Reg2W op rd left right) }
{
    match op {
        WordOp::Add => word_r(OP_32, 0b000, 0b0000000, rd, left, right),
        WordOp::Sub => word_r(OP_32, 0b000, 0b0100000, rd, left, right),
        WordOp::Sll => word_r(OP_32, 0b001, 0b0000000, rd, left, right),
        WordOp::Srl => word_r(OP_32, 0b101, 0b0000000, rd, left, right),
        WordOp::Sra => word_r(OP_32, 0b101, 0b0100000, rd, left, right),
    }
}
