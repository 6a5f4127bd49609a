//! The words of the secure instructions, of opcode custom-0. A field that isn't named is zero.
ghost use Rattle.bn_model.specs.Encoding.{Encodes};
ghost use Rattle.bn_model.specs.InsnRanges.{IsInRange};

use crate::encoding::formats::word_r;
use crate::opcodes::CUSTOM_0;
use bn_types::{Insn, Reg, Secure};

const X0: Reg = Reg(0);

pub fn secure(instruction: Secure) -> u32
    requires { IsInRange (Insn.Bastion instruction) }
    ensures { Encodes result (Insn.Bastion instruction) }
{
    match instruction {
        Secure::Launch { rd, at } => word_r(CUSTOM_0, 0b000, 0, rd, at, X0),
        Secure::Call { rd, id, entry } => word_r(CUSTOM_0, 0b001, 0, rd, id, entry),
        Secure::Ret => word_r(CUSTOM_0, 0b010, 0, X0, X0, X0),
        Secure::Evict { rd, id } => word_r(CUSTOM_0, 0b011, 0, rd, id, X0),
        Secure::Ident { rd, id, word } => word_r(CUSTOM_0, 0b100, 0, rd, id, word),
        Secure::Caller { rd } => word_r(CUSTOM_0, 0b101, 0, rd, X0, X0),
        Secure::Offerer { rd, at } => word_r(CUSTOM_0, 0b110, 0, rd, at, X0),
        Secure::Sget { rd, index } => word_r(CUSTOM_0, 0b111, 0, rd, index, X0),
        Secure::Sset { rd, index, value } => word_r(CUSTOM_0, 0b000, 1, rd, index, value),
    }
}
