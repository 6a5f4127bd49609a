ghost use Rattle.std.specs.Prelude.{◌≡◌};
ghost use Rattle.bn_model.specs.Acting.{branch_if, holds, jump, without_bit_0};

use bn_types::{Act, Cause, Reg, Test};

/// A jump at pc, or the trap on a target that isn't a multiple of 4.
pub fn jump_to(target: u64, rd: Reg, pc: u64) -> Act
    ensures { result ≡ jump target rd pc }
{
    if target % 4 == 0 {
        Act::Jump {
            target,
            rd,
            link: pc.wrapping_add(4),
        }
    } else {
        Act::Trap {
            cause: Cause(0),
            value: target,
        }
    }
}

/// A branch at pc that is taken or isn't.
pub fn branch(taken: bool, target: u64, pc: u64) -> Act
    ensures { result ≡ branch_if taken target pc }
{
    if taken {
        jump_to(target, Reg(0), pc)
    } else {
        Act::Next
    }
}

/// The number with bit 0 cleared.
pub fn clear_bit_0(number: u64) -> u64
    ensures { result ≡ without_bit_0 number }
{
    number - number % 2
}

/// Whether a branch's test holds.
pub fn is_taken(test: Test, left: u64, right: u64) -> bool
    ensures { result ≡ holds test left right }
{
    match test {
        Test::Eq => left == right,
        Test::Ne => left != right,
        Test::Lt => left.cast_signed() < right.cast_signed(),
        Test::Ge => left.cast_signed() >= right.cast_signed(),
        Test::Ltu => left < right,
        Test::Geu => left >= right,
    }
}
