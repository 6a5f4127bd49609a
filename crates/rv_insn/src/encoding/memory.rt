//! The words of loads and stores.
ghost use Rattle.std.specs.Prelude.{true, false};
ghost use Rattle.bn_model.specs.Encoding.{Encodes};
ghost use Rattle.bn_model.specs.InsnRanges.{IsInRange};

use crate::encoding::formats::{word_i, word_s};
use crate::opcodes::{LOAD, STORE};
use bn_types::{Insn, Reg, Width};

fn signed_load(width: Width, rd: Reg, base: Reg, offset: i32) -> u32
    requires { IsInRange (Insn.Load width true rd base offset) }
    ensures { Encodes result (Insn.Load width true rd base offset) }
{
    match width {
        Width::B1 => word_i(LOAD, 0b000, rd, base, offset),
        Width::B2 => word_i(LOAD, 0b001, rd, base, offset),
        Width::B4 => word_i(LOAD, 0b010, rd, base, offset),
        Width::B8 => word_i(LOAD, 0b011, rd, base, offset),
    }
}

fn unsigned_load(width: Width, rd: Reg, base: Reg, offset: i32) -> u32
    requires { IsInRange (Insn.Load width false rd base offset) }
    ensures { Encodes result (Insn.Load width false rd base offset) }
{
    match width {
        Width::B1 => word_i(LOAD, 0b100, rd, base, offset),
        Width::B2 => word_i(LOAD, 0b101, rd, base, offset),
        Width::B4 => word_i(LOAD, 0b110, rd, base, offset),
        Width::B8 => unreachable!(),
    }
}

pub fn load(width: Width, signed: bool, rd: Reg, base: Reg, offset: i32) -> u32
    requires { IsInRange (Insn.Load width signed rd base offset) }
    ensures { Encodes result (Insn.Load width signed rd base offset) }
{
    if signed {
        signed_load(width, rd, base, offset)
    } else {
        unsigned_load(width, rd, base, offset)
    }
}

pub fn store(width: Width, base: Reg, value: Reg, offset: i32) -> u32
    requires { IsInRange (Insn.Store width base value offset) }
    ensures { Encodes result (Insn.Store width base value offset) }
{
    match width {
        Width::B1 => word_s(STORE, 0b000, base, value, offset),
        Width::B2 => word_s(STORE, 0b001, base, value, offset),
        Width::B4 => word_s(STORE, 0b010, base, value, offset),
        Width::B8 => word_s(STORE, 0b011, base, value, offset),
    }
}
