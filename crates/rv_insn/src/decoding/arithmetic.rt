//! Sums, shifts, comparisons and the bitwise operations, of 64 bits and of 32.
ghost use Rattle.std.specs.Prelude.{◌≡◌};
ghost use Rattle.bn_model.specs.Decoding as decoded;

use crate::decoding::fields::{funct3, funct6, funct7, rd, rs1, rs2, shamt5, shamt6};
use crate::decoding::immediates::i_immediate;
use bn_types::{ImmOp, Insn, Op, ShiftOp, WordOp};

fn imm_of(op: ImmOp, word: u32) -> Insn
    ensures { result ≡ decoded.imm_of op word }
{
    Insn::Imm {
        op,
        rd: rd(word),
        left: rs1(word),
        imm: i_immediate(word),
    }
}

fn shift_of(op: ShiftOp, word: u32) -> Insn
    ensures { result ≡ decoded.shift_of op word }
{
    Insn::Shift {
        op,
        rd: rd(word),
        left: rs1(word),
        amount: shamt6(word),
    }
}

fn shift_left(word: u32) -> Option<Insn>
    ensures { result ≡ decoded.shift_left word }
{
    match funct6(word) {
        0b000000 => Some(shift_of(ShiftOp::Left, word)),
        _ => None,
    }
}

fn shift_right(word: u32) -> Option<Insn>
    ensures { result ≡ decoded.shift_right word }
{
    match funct6(word) {
        0b000000 => Some(shift_of(ShiftOp::Right, word)),
        0b010000 => Some(shift_of(ShiftOp::RightSigned, word)),
        _ => None,
    }
}

#[tactic(auto, unfolding(bn_model::specs::Decoding::op_imm))]
pub fn op_imm(word: u32) -> Option<Insn>
    ensures { result ≡ decoded.op_imm word }
{
    match funct3(word) {
        0b000 => Some(imm_of(ImmOp::Add, word)),
        0b001 => shift_left(word),
        0b010 => Some(imm_of(ImmOp::Slt, word)),
        0b011 => Some(imm_of(ImmOp::Sltu, word)),
        0b100 => Some(imm_of(ImmOp::Xor, word)),
        0b101 => shift_right(word),
        0b110 => Some(imm_of(ImmOp::Or, word)),
        0b111 => Some(imm_of(ImmOp::And, word)),
        _ => None,
    }
}

fn plain_op_of(funct3: u32) -> Option<Op>
    ensures { result ≡ decoded.plain_op_of funct3 }
{
    match funct3 {
        0b000 => Some(Op::Add),
        0b001 => Some(Op::Sll),
        0b010 => Some(Op::Slt),
        0b011 => Some(Op::Sltu),
        0b100 => Some(Op::Xor),
        0b101 => Some(Op::Srl),
        0b110 => Some(Op::Or),
        0b111 => Some(Op::And),
        _ => None,
    }
}

fn other_op_of(funct3: u32) -> Option<Op>
    ensures { result ≡ decoded.other_op_of funct3 }
{
    match funct3 {
        0b000 => Some(Op::Sub),
        0b101 => Some(Op::Sra),
        _ => None,
    }
}

fn op_of(funct7: u32, funct3: u32) -> Option<Op>
    ensures { result ≡ decoded.op_of funct7 funct3 }
{
    match funct7 {
        0b0000000 => plain_op_of(funct3),
        0b0100000 => other_op_of(funct3),
        _ => None,
    }
}

#[tactic(auto, unfolding(bn_model::specs::Decoding::op_reg))]
pub fn op_reg(word: u32) -> Option<Insn>
    ensures { result ≡ decoded.op_reg word }
{
    match op_of(funct7(word), funct3(word)) {
        Some(op) => Some(Insn::Reg2 {
            op,
            rd: rd(word),
            left: rs1(word),
            right: rs2(word),
        }),
        None => None,
    }
}

fn shift_word_of(op: ShiftOp, word: u32) -> Insn
    ensures { result ≡ decoded.shift_word_of op word }
{
    Insn::ShiftW {
        op,
        rd: rd(word),
        left: rs1(word),
        amount: shamt5(word),
    }
}

fn shift_word_left(word: u32) -> Option<Insn>
    ensures { result ≡ decoded.shift_word_left word }
{
    match funct7(word) {
        0b0000000 => Some(shift_word_of(ShiftOp::Left, word)),
        _ => None,
    }
}

fn shift_word_right(word: u32) -> Option<Insn>
    ensures { result ≡ decoded.shift_word_right word }
{
    match funct7(word) {
        0b0000000 => Some(shift_word_of(ShiftOp::Right, word)),
        0b0100000 => Some(shift_word_of(ShiftOp::RightSigned, word)),
        _ => None,
    }
}

#[tactic(auto, unfolding(bn_model::specs::Decoding::op_imm_32))]
pub fn op_imm_32(word: u32) -> Option<Insn>
    ensures { result ≡ decoded.op_imm_32 word }
{
    match funct3(word) {
        0b000 => Some(Insn::AddiW {
            rd: rd(word),
            left: rs1(word),
            imm: i_immediate(word),
        }),
        0b001 => shift_word_left(word),
        0b101 => shift_word_right(word),
        _ => None,
    }
}

fn plain_word_op_of(funct3: u32) -> Option<WordOp>
    ensures { result ≡ decoded.plain_word_op_of funct3 }
{
    match funct3 {
        0b000 => Some(WordOp::Add),
        0b001 => Some(WordOp::Sll),
        0b101 => Some(WordOp::Srl),
        _ => None,
    }
}

fn other_word_op_of(funct3: u32) -> Option<WordOp>
    ensures { result ≡ decoded.other_word_op_of funct3 }
{
    match funct3 {
        0b000 => Some(WordOp::Sub),
        0b101 => Some(WordOp::Sra),
        _ => None,
    }
}

fn word_op_of(funct7: u32, funct3: u32) -> Option<WordOp>
    ensures { result ≡ decoded.word_op_of funct7 funct3 }
{
    match funct7 {
        0b0000000 => plain_word_op_of(funct3),
        0b0100000 => other_word_op_of(funct3),
        _ => None,
    }
}

#[tactic(auto, unfolding(bn_model::specs::Decoding::op_reg_32))]
pub fn op_reg_32(word: u32) -> Option<Insn>
    ensures { result ≡ decoded.op_reg_32 word }
{
    match word_op_of(funct7(word), funct3(word)) {
        Some(op) => Some(Insn::Reg2W {
            op,
            rd: rd(word),
            left: rs1(word),
            right: rs2(word),
        }),
        None => None,
    }
}
