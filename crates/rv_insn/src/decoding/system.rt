//! The instructions of the environment and of the CSRs.
ghost use Rattle.std.specs.Prelude.{◌≡◌};
ghost use Rattle.bn_model.specs.Decoding as decoded;

use crate::decoding::fields::{funct3, funct7, funct12, is_x0, rd, rs1, rs2};
use bn_types::{CsrFrom, CsrOp, Insn, Reg};

fn fence_of_tables(word: u32) -> Option<Insn>
    ensures { result ≡ decoded.fence_of_tables word }
{
    if is_x0(rd(word)) {
        Some(Insn::SfenceVma {
            rs1: rs1(word),
            rs2: rs2(word),
        })
    } else {
        None
    }
}

fn whole_word(word: u32) -> Option<Insn>
    ensures { result ≡ decoded.whole_word word }
{
    match word {
        0x0000_0073 => Some(Insn::Ecall),
        0x0010_0073 => Some(Insn::Ebreak),
        0x1020_0073 => Some(Insn::Sret),
        0x1050_0073 => Some(Insn::Wfi),
        _ => None,
    }
}

#[tactic(auto, unfolding(bn_model::specs::Decoding::environment))]
fn environment(word: u32) -> Option<Insn>
    ensures { result ≡ decoded.environment word }
{
    match funct7(word) {
        0b0001001 => fence_of_tables(word),
        _ => whole_word(word),
    }
}

fn csr_by_register(op: CsrOp, word: u32) -> Insn
    ensures { result ≡ decoded.csr_by_register op word }
{
    Insn::Csr {
        op,
        number: funct12(word),
        from: CsrFrom::Register(rs1(word)),
        rd: rd(word),
    }
}

fn csr_by_number(op: CsrOp, word: u32) -> Insn
    ensures { result ≡ decoded.csr_by_number op word }
{
    let Reg(number) = rs1(word);
    Insn::Csr {
        op,
        number: funct12(word),
        from: CsrFrom::Number(number),
        rd: rd(word),
    }
}

#[tactic(auto, unfolding(bn_model::specs::Decoding::system))]
pub fn system(word: u32) -> Option<Insn>
    ensures { result ≡ decoded.system word }
{
    match funct3(word) {
        0b000 => environment(word),
        0b001 => Some(csr_by_register(CsrOp::Write, word)),
        0b010 => Some(csr_by_register(CsrOp::Set, word)),
        0b011 => Some(csr_by_register(CsrOp::Clear, word)),
        0b101 => Some(csr_by_number(CsrOp::Write, word)),
        0b110 => Some(csr_by_number(CsrOp::Set, word)),
        0b111 => Some(csr_by_number(CsrOp::Clear, word)),
        _ => None,
    }
}
