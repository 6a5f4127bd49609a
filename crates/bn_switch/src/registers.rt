ghost use Rattle.std.specs.Prelude.{◌≡◌, ◌<◌};
ghost use Rattle.bn_model.specs.State.{answer_registers, argument_registers, with_register};

use bn_types::{Reg, Regs};

/// The registers with rd 0.
pub fn with_zero(regs: &Regs, rd: Reg) -> Regs
    requires { rd.0 < 32 }
    ensures { result ≡ with_register regs.now rd 0 }
{
    let mut regs = *regs;
    if rd.0 != 0 {
        regs.x[rd.0 as usize] = 0;
    }
    regs
}

/// What a callee gets: a0 to a7, all other registers 0.
#[tactic(auto, unfolding(bn_model::specs::State::argument_registers))]
pub fn arguments(regs: &Regs) -> Regs
    ensures { result ≡ argument_registers regs.now }
{
    let mut x = [0; 32];
    x[10..18].copy_from_slice(&regs.x[10..18]);
    Regs { x }
}

/// What a caller gets back: its own registers, but a0 and a1 of the answer.
#[tactic(auto, unfolding(bn_model::specs::State::answer_registers))]
pub fn with_answer(regs: &Regs, answer: &Regs) -> Regs
    ensures { result ≡ answer_registers regs.now answer.now }
{
    let mut regs = *regs;
    regs.x[10] = answer.x[10];
    regs.x[11] = answer.x[11];
    regs
}
