//! JALR and the branches.
ghost use Rattle.std.specs.Prelude.{◌≡◌};
ghost use Rattle.bn_model.specs.Decoding as decoded;

use crate::decoding::fields::{funct3, rd, rs1, rs2};
use crate::decoding::immediates::{b_immediate, i_immediate};
use bn_types::{Insn, Test};

#[tactic(auto, unfolding(bn_model::specs::Decoding::jalr))]
pub fn jalr(word: u32) -> Option<Insn>
    ensures { result ≡ decoded.jalr word }
{
    match funct3(word) {
        0b000 => Some(Insn::Jalr {
            rd: rd(word),
            base: rs1(word),
            offset: i_immediate(word),
        }),
        _ => None,
    }
}

fn test_of(funct3: u32) -> Option<Test>
    ensures { result ≡ decoded.test_of funct3 }
{
    match funct3 {
        0b000 => Some(Test::Eq),
        0b001 => Some(Test::Ne),
        0b100 => Some(Test::Lt),
        0b101 => Some(Test::Ge),
        0b110 => Some(Test::Ltu),
        0b111 => Some(Test::Geu),
        _ => None,
    }
}

#[tactic(auto, unfolding(bn_model::specs::Decoding::branch))]
pub fn branch(word: u32) -> Option<Insn>
    ensures { result ≡ decoded.branch word }
{
    match test_of(funct3(word)) {
        Some(test) => Some(Insn::Branch {
            test,
            left: rs1(word),
            right: rs2(word),
            offset: b_immediate(word),
        }),
        None => None,
    }
}
