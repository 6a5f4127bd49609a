//! From a word to its instruction.
ghost use Rattle.std.specs.Prelude.{◌≡◌, ◌↔◌, IfSome, IsNone};
ghost use Rattle.bn_types.specs.declared.insn.Insn.{Insn};
ghost use Rattle.bn_model.specs.Decoding.{insn_of};
ghost use Rattle.bn_model.specs.Encoding.{Encodes};
ghost use Rattle.bn_model.specs.InsnRanges.{IsInRange};

use crate::decoding::arithmetic::{op_imm, op_imm_32, op_reg, op_reg_32};
use crate::decoding::control::{branch, jalr};
use crate::decoding::fields::{opcode, rd};
use crate::decoding::immediates::{j_immediate, u_immediate};
use crate::decoding::memory::{fence, load, store};
use crate::decoding::secure_words::secure;
use crate::decoding::system::system;
use crate::opcodes::{
    AUIPC, BRANCH, CUSTOM_0, JAL, JALR, LOAD, LUI, MISC_MEM, OP, OP_32, OP_IMM, OP_IMM_32, STORE,
    SYSTEM,
};
use bn_types::Insn;

mod arithmetic;
mod control;
mod fields;
mod immediates;
mod memory;
mod secure_words;
mod system;

#[tactic(auto, unfolding(bn_model::specs::Decoding::insn_of))]
fn by_opcode(word: u32) -> Option<Insn>
    ensures { result ≡ insn_of word }
{
    match opcode(word) {
        LUI => Some(Insn::Lui {
            rd: rd(word),
            imm: u_immediate(word),
        }),
        AUIPC => Some(Insn::Auipc {
            rd: rd(word),
            imm: u_immediate(word),
        }),
        JAL => Some(Insn::Jal {
            rd: rd(word),
            offset: j_immediate(word),
        }),
        JALR => jalr(word),
        BRANCH => branch(word),
        LOAD => load(word),
        STORE => store(word),
        OP_IMM => op_imm(word),
        OP => op_reg(word),
        OP_IMM_32 => op_imm_32(word),
        OP_32 => op_reg_32(word),
        MISC_MEM => fence(word),
        SYSTEM => system(word),
        CUSTOM_0 => secure(word),
        _ => None,
    }
}

/// The instruction of a word (Unprivileged ISA, "RV32/64G Instruction Set Listings"; Privileged
/// ISA, "RISC-V Privileged Instruction Set Listings").
///
/// None exactly where the word is no instruction of RV64I, Zicsr, the supervisor level or the
/// secure extension. Each instruction has one word alone: bits that the manuals reserve must be
/// zero, but those of FENCE, which are kept in its fields. The fields of the result are in the
/// ranges that `Insn` names.
pub fn decode(word: u32) -> Option<Insn>
    ensures exact { result ≡ insn_of word }
    ensures listed { IfSome result (Encodes word) }
    ensures in_range { IfSome result IsInRange }
    ensures complete { (insn : Insn) → Encodes word insn → result ≡ Some insn }
    ensures unlisted { IsNone result ↔ ((insn : Insn) → ¬ Encodes word insn) }
{
    by_opcode(word)
}
