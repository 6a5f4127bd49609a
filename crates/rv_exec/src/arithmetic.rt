ghost use Rattle.std.specs.Prelude.{◌≡◌, ◌<◌};
ghost use Rattle.bn_model.specs.Acting.{immediate_value, one_if_less, one_if_less_unsigned};
ghost use Rattle.bn_model.specs.Acting.{plus_immediate, register_value, shift_value};
ghost use Rattle.bn_model.specs.Acting.{word_shift_value, word_value};

use crate::extending::{extend_word, in_64_bits};
use bn_types::{ImmOp, Op, ShiftOp, WordOp};

/// The sum of a number and an immediate, which wraps.
pub fn add_immediate(number: u64, imm: i32) -> u64
    ensures { result ≡ plus_immediate number imm }
{
    number.wrapping_add(in_64_bits(i64::from(imm)))
}

fn set_less(left: u64, right: u64) -> u64
    ensures { result ≡ one_if_less left right }
{
    u64::from(left.cast_signed() < right.cast_signed())
}

fn set_less_unsigned(left: u64, right: u64) -> u64
    ensures { result ≡ one_if_less_unsigned left right }
{
    u64::from(left < right)
}

/// A shift of 64 bits by an amount below 64.
pub fn shift(op: ShiftOp, left: u64, amount: u8) -> u64
    requires { amount < 64 }
    ensures { result ≡ shift_value op left amount }
{
    match op {
        ShiftOp::Left => left << amount,
        ShiftOp::Right => left >> amount,
        ShiftOp::RightSigned => in_64_bits(left.cast_signed() >> amount),
    }
}

/// A shift of the low 32 bits by an amount below 32, extended by the sign of its result.
pub fn shift_word(op: ShiftOp, left: u64, amount: u8) -> u64
    requires { amount < 32 }
    ensures { result ≡ word_shift_value op left amount }
{
    let word = (left & 0xffff_ffff) as u32;
    match op {
        ShiftOp::Left => extend_word(left << amount),
        ShiftOp::Right => extend_word(u64::from(word >> amount)),
        ShiftOp::RightSigned => in_64_bits(i64::from(word.cast_signed() >> amount)),
    }
}

/// The value of an instruction of a register and an immediate, which is given in 64 bits.
pub fn value_of_immediate(op: ImmOp, left: u64, right: u64) -> u64
    ensures { result ≡ immediate_value op left right }
{
    match op {
        ImmOp::Add => left.wrapping_add(right),
        ImmOp::Slt => set_less(left, right),
        ImmOp::Sltu => set_less_unsigned(left, right),
        ImmOp::Xor => left ^ right,
        ImmOp::Or => left | right,
        ImmOp::And => left & right,
    }
}

/// The value of an instruction of two registers.
pub fn value_of_registers(op: Op, left: u64, right: u64) -> u64
    ensures { result ≡ register_value op left right }
{
    let amount = (right & 0x3f) as u8;
    match op {
        Op::Add => left.wrapping_add(right),
        Op::Sub => left.wrapping_sub(right),
        Op::Sll => shift(ShiftOp::Left, left, amount),
        Op::Slt => set_less(left, right),
        Op::Sltu => set_less_unsigned(left, right),
        Op::Xor => left ^ right,
        Op::Srl => shift(ShiftOp::Right, left, amount),
        Op::Sra => shift(ShiftOp::RightSigned, left, amount),
        Op::Or => left | right,
        Op::And => left & right,
    }
}

/// The value of an instruction of the low 32 bits of two registers.
pub fn value_of_words(op: WordOp, left: u64, right: u64) -> u64
    ensures { result ≡ word_value op left right }
{
    let amount = (right & 0x1f) as u8;
    match op {
        WordOp::Add => extend_word(left.wrapping_add(right)),
        WordOp::Sub => extend_word(left.wrapping_sub(right)),
        WordOp::Sll => shift_word(ShiftOp::Left, left, amount),
        WordOp::Srl => shift_word(ShiftOp::Right, left, amount),
        WordOp::Sra => shift_word(ShiftOp::RightSigned, left, amount),
    }
}
