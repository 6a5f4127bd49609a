//! The secure instructions, of opcode custom-0.
ghost use Rattle.std.specs.Prelude.{◌≡◌};
ghost use Rattle.bn_model.specs.Decoding as decoded;

use crate::decoding::fields::{funct3, funct7, is_x0, rd, rs1, rs2};
use bn_types::{Insn, Secure};

fn launch(word: u32) -> Option<Secure>
    ensures { result ≡ decoded.launch word }
{
    if is_x0(rs2(word)) {
        Some(Secure::Launch {
            rd: rd(word),
            at: rs1(word),
        })
    } else {
        None
    }
}

fn ret(word: u32) -> Option<Secure>
    ensures { result ≡ decoded.ret word }
{
    if is_x0(rd(word)) && is_x0(rs1(word)) && is_x0(rs2(word)) {
        Some(Secure::Ret)
    } else {
        None
    }
}

fn evict(word: u32) -> Option<Secure>
    ensures { result ≡ decoded.evict word }
{
    if is_x0(rs2(word)) {
        Some(Secure::Evict {
            rd: rd(word),
            id: rs1(word),
        })
    } else {
        None
    }
}

fn caller(word: u32) -> Option<Secure>
    ensures { result ≡ decoded.caller word }
{
    if is_x0(rs1(word)) && is_x0(rs2(word)) {
        Some(Secure::Caller { rd: rd(word) })
    } else {
        None
    }
}

fn offerer(word: u32) -> Option<Secure>
    ensures { result ≡ decoded.offerer word }
{
    if is_x0(rs2(word)) {
        Some(Secure::Offerer {
            rd: rd(word),
            at: rs1(word),
        })
    } else {
        None
    }
}

fn sget(word: u32) -> Option<Secure>
    ensures { result ≡ decoded.sget word }
{
    if is_x0(rs2(word)) {
        Some(Secure::Sget {
            rd: rd(word),
            index: rs1(word),
        })
    } else {
        None
    }
}

fn first_secure_of(word: u32) -> Option<Secure>
    ensures { result ≡ decoded.first_secure_of word }
{
    match funct3(word) {
        0b000 => launch(word),
        0b001 => Some(Secure::Call {
            rd: rd(word),
            id: rs1(word),
            entry: rs2(word),
        }),
        0b010 => ret(word),
        0b011 => evict(word),
        0b100 => Some(Secure::Ident {
            rd: rd(word),
            id: rs1(word),
            word: rs2(word),
        }),
        0b101 => caller(word),
        0b110 => offerer(word),
        0b111 => sget(word),
        _ => None,
    }
}

fn sset(word: u32) -> Option<Secure>
    ensures { result ≡ decoded.sset word }
{
    match funct3(word) {
        0b000 => Some(Secure::Sset {
            rd: rd(word),
            index: rs1(word),
            value: rs2(word),
        }),
        _ => None,
    }
}

#[tactic(auto, unfolding(bn_model::specs::Decoding::secure_of))]
fn secure_of(word: u32) -> Option<Secure>
    ensures { result ≡ decoded.secure_of word }
{
    match funct7(word) {
        0b0000000 => first_secure_of(word),
        0b0000001 => sset(word),
        _ => None,
    }
}

pub fn secure(word: u32) -> Option<Insn>
    ensures { result ≡ decoded.secure_by (decoded.secure_of word) }
{
    match secure_of(word) {
        Some(secure) => Some(Insn::Bastion(secure)),
        None => None,
    }
}
