//! Instructions by the names of the listings.
ghost use Rattle.std.specs.Prelude.{◌≡◌, ◌<◌, neg_ℤ, pos, ◌<ℤ◌, ◌≤ℤ◌};
ghost use Rattle.bn_model.specs.Generating as flat;
ghost use Rattle.bn_model.specs.InsnRanges.{FitsBits, IsInRange};

use bn_types::{CsrFrom, CsrOp, ImmOp, Insn, Reg, Width};

pub const SSTATUS: u16 = 0x100;

pub const SIE: u16 = 0x104;

pub const STVEC: u16 = 0x105;

pub const SSCRATCH: u16 = 0x140;

pub const TIME: u16 = 0xc01;

/// The address of a place so many pages ahead.
pub fn auipc(rd: u8, pages: u32) -> Insn
    requires register { rd < 32 }
    requires near { pages < 64 }
    ensures listed { result ≡ flat.auipc rd pages }
    ensures range { IsInRange result }
{
    Insn::Auipc {
        rd: Reg(rd),
        imm: (4096 * pages) as i32,
    }
}

pub fn addi(rd: u8, left: u8, imm: i32) -> Insn
    requires register { rd < 32 }
    requires operand { left < 32 }
    requires small { FitsBits 12 imm }
    ensures listed { result ≡ flat.addi rd left imm }
    ensures range { IsInRange result }
{
    Insn::Imm {
        op: ImmOp::Add,
        rd: Reg(rd),
        left: Reg(left),
        imm,
    }
}

pub fn ld(rd: u8, base: u8, offset: u16) -> Insn
    requires register { rd < 32 }
    requires operand { base < 32 }
    requires small { offset < 2048 }
    ensures listed { result ≡ flat.ld rd base offset }
    ensures range { IsInRange result }
{
    Insn::Load {
        width: Width::B8,
        signed: true,
        rd: Reg(rd),
        base: Reg(base),
        offset: i32::from(offset),
    }
}

pub fn sd(value: u8, base: u8, offset: u16) -> Insn
    requires register { value < 32 }
    requires operand { base < 32 }
    requires small { offset < 2048 }
    ensures listed { result ≡ flat.sd value base offset }
    ensures range { IsInRange result }
{
    Insn::Store {
        width: Width::B8,
        base: Reg(base),
        value: Reg(value),
        offset: i32::from(offset),
    }
}

pub fn csrrw(rd: u8, number: u16, rs1: u8) -> Insn
    requires register { rd < 32 }
    requires csr { number < 4096 }
    requires operand { rs1 < 32 }
    ensures listed { result ≡ flat.csrrw rd number rs1 }
    ensures range { IsInRange result }
{
    Insn::Csr {
        op: CsrOp::Write,
        number,
        from: CsrFrom::Register(Reg(rs1)),
        rd: Reg(rd),
    }
}

pub fn csrrs(rd: u8, number: u16, rs1: u8) -> Insn
    requires register { rd < 32 }
    requires csr { number < 4096 }
    requires operand { rs1 < 32 }
    ensures listed { result ≡ flat.csrrs rd number rs1 }
    ensures range { IsInRange result }
{
    Insn::Csr {
        op: CsrOp::Set,
        number,
        from: CsrFrom::Register(Reg(rs1)),
        rd: Reg(rd),
    }
}

pub fn csrrsi(rd: u8, number: u16, operand: u8) -> Insn
    requires register { rd < 32 }
    requires csr { number < 4096 }
    requires small { operand < 32 }
    ensures listed { result ≡ flat.csrrsi rd number operand }
    ensures range { IsInRange result }
{
    Insn::Csr {
        op: CsrOp::Set,
        number,
        from: CsrFrom::Number(operand),
        rd: Reg(rd),
    }
}
