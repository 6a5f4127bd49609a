//! Loads, stores and FENCE.
ghost use Rattle.std.specs.Prelude.{◌≡◌};
ghost use Rattle.bn_model.specs.Decoding as decoded;

use crate::decoding::fields::{funct3, funct12, rd, rs1, rs2};
use crate::decoding::immediates::{i_immediate, s_immediate};
use bn_types::{Insn, Width};

fn load_of(width: Width, signed: bool, word: u32) -> Insn
    ensures { result ≡ decoded.load_of width signed word }
{
    Insn::Load {
        width,
        signed,
        rd: rd(word),
        base: rs1(word),
        offset: i_immediate(word),
    }
}

#[tactic(auto, unfolding(bn_model::specs::Decoding::load))]
pub fn load(word: u32) -> Option<Insn>
    ensures { result ≡ decoded.load word }
{
    match funct3(word) {
        0b000 => Some(load_of(Width::B1, true, word)),
        0b001 => Some(load_of(Width::B2, true, word)),
        0b010 => Some(load_of(Width::B4, true, word)),
        0b011 => Some(load_of(Width::B8, true, word)),
        0b100 => Some(load_of(Width::B1, false, word)),
        0b101 => Some(load_of(Width::B2, false, word)),
        0b110 => Some(load_of(Width::B4, false, word)),
        _ => None,
    }
}

fn store_width_of(funct3: u32) -> Option<Width>
    ensures { result ≡ decoded.store_width_of funct3 }
{
    match funct3 {
        0b000 => Some(Width::B1),
        0b001 => Some(Width::B2),
        0b010 => Some(Width::B4),
        0b011 => Some(Width::B8),
        _ => None,
    }
}

#[tactic(auto, unfolding(bn_model::specs::Decoding::store))]
pub fn store(word: u32) -> Option<Insn>
    ensures { result ≡ decoded.store word }
{
    match store_width_of(funct3(word)) {
        Some(width) => Some(Insn::Store {
            width,
            base: rs1(word),
            value: rs2(word),
            offset: s_immediate(word),
        }),
        None => None,
    }
}

#[tactic(auto, unfolding(bn_model::specs::Decoding::fence))]
pub fn fence(word: u32) -> Option<Insn>
    ensures { result ≡ decoded.fence word }
{
    match funct3(word) {
        0b000 => Some(Insn::Fence {
            high: funct12(word),
            rs1: rs1(word),
            rd: rd(word),
        }),
        _ => None,
    }
}
