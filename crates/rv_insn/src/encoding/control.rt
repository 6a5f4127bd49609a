//! The words of the branches.
ghost use Rattle.bn_model.specs.Encoding.{Encodes};
ghost use Rattle.bn_model.specs.InsnRanges.{IsInRange};

use crate::encoding::formats::word_b;
use crate::opcodes::BRANCH;
use bn_types::{Insn, Reg, Test};

pub fn branch(test: Test, left: Reg, right: Reg, offset: i32) -> u32
    requires { IsInRange (Insn.Branch test left right offset) }
    ensures { Encodes result (Insn.Branch test left right offset) }
{
    match test {
        Test::Eq => word_b(BRANCH, 0b000, left, right, offset),
        Test::Ne => word_b(BRANCH, 0b001, left, right, offset),
        Test::Lt => word_b(BRANCH, 0b100, left, right, offset),
        Test::Ge => word_b(BRANCH, 0b101, left, right, offset),
        Test::Ltu => word_b(BRANCH, 0b110, left, right, offset),
        Test::Geu => word_b(BRANCH, 0b111, left, right, offset),
    }
}
