//! The fields of a word (Unprivileged ISA, "Base Instruction Formats").
ghost use Rattle.std.specs.Prelude.{◌≡◌};
ghost use Rattle.bn_model.specs.Decoding as decoded;
ghost use Rattle.bn_model.specs.Fields as field;

use bn_types::Reg;

#[tactic(auto, unfolding(bn_model::specs::Fields::opcode))]
pub fn opcode(word: u32) -> u32
    ensures { result ≡ field.opcode word }
{
    word & 0x7f
}

#[tactic(auto, unfolding(bn_model::specs::Fields::funct3))]
pub fn funct3(word: u32) -> u32
    ensures { result ≡ field.funct3 word }
{
    (word >> 12) & 7
}

#[tactic(auto, unfolding(bn_model::specs::Fields::funct6))]
pub fn funct6(word: u32) -> u32
    ensures { result ≡ field.funct6 word }
{
    word >> 26
}

#[tactic(auto, unfolding(bn_model::specs::Fields::funct7))]
pub fn funct7(word: u32) -> u32
    ensures { result ≡ field.funct7 word }
{
    word >> 25
}

#[tactic(auto, unfolding(bn_model::specs::Fields::funct12))]
pub fn funct12(word: u32) -> u16
    ensures { result ≡ field.funct12 word }
{
    (word >> 20) as u16
}

#[tactic(auto, unfolding(bn_model::specs::Fields::shamt5))]
pub fn shamt5(word: u32) -> u8
    ensures { result ≡ field.shamt5 word }
{
    ((word >> 20) & 0x1f) as u8
}

#[tactic(auto, unfolding(bn_model::specs::Fields::shamt6))]
pub fn shamt6(word: u32) -> u8
    ensures { result ≡ field.shamt6 word }
{
    ((word >> 20) & 0x3f) as u8
}

#[tactic(auto, unfolding(bn_model::specs::Fields::rd))]
pub fn rd(word: u32) -> Reg
    ensures { result ≡ field.rd word }
{
    Reg(((word >> 7) & 0x1f) as u8)
}

#[tactic(auto, unfolding(bn_model::specs::Fields::rs1))]
pub fn rs1(word: u32) -> Reg
    ensures { result ≡ field.rs1 word }
{
    Reg(((word >> 15) & 0x1f) as u8)
}

#[tactic(auto, unfolding(bn_model::specs::Fields::rs2))]
pub fn rs2(word: u32) -> Reg
    ensures { result ≡ field.rs2 word }
{
    Reg(((word >> 20) & 0x1f) as u8)
}

pub fn is_x0(register: Reg) -> bool
    ensures { result ≡ decoded.is_x0 register }
{
    register.0 == 0
}
