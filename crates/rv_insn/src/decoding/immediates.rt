//! The immediates of a word (Unprivileged ISA, "Immediate Encoding Variants").
ghost use Rattle.std.specs.Prelude.{◌≡◌, ◌^◌, ◌<◌};
ghost use Rattle.bn_model.specs.Fields as field;
ghost use Rattle.bn_model.specs.TwosComplement.{signed_of};

/// The number of 12 bits as a two's complement.
fn signed12(number: u32) -> i32
    requires { number < 2 ^ 12 }
    ensures { result ≡ signed_of 12 number }
{
    if number < 0x800 {
        number as i32
    } else {
        number as i32 - 0x1000
    }
}

/// `imm[11:0]` from bits 31:20.
#[tactic(auto, unfolding(bn_model::specs::Fields::i_immediate))]
pub fn i_immediate(word: u32) -> i32
    ensures { result ≡ field.i_immediate word }
{
    signed12(word >> 20)
}

/// `imm[11:5]` from bits 31:25, `imm[4:0]` from bits 11:7.
#[tactic(auto, unfolding(bn_model::specs::Fields::s_immediate))]
pub fn s_immediate(word: u32) -> i32
    ensures { result ≡ field.s_immediate word }
{
    signed12((word >> 25) * 0x20 + ((word >> 7) & 0x1f))
}

/// `imm[12]` from bit 31, `imm[11]` from bit 7, `imm[10:5]` from bits 30:25, `imm[4:1]` from bits
/// 11:8.
#[tactic(auto, unfolding(bn_model::specs::Fields::b_immediate))]
pub fn b_immediate(word: u32) -> i32
    ensures { result ≡ field.b_immediate word }
{
    let low = ((word >> 7) & 1) * 0x800 + ((word >> 25) & 0x3f) * 0x20 + ((word >> 8) & 0xf) * 2;
    if word >> 31 == 0 {
        low as i32
    } else {
        low as i32 - 0x1000
    }
}

/// `imm[31:12]` from bits 31:12; the low 12 bits are 0.
#[tactic(auto, unfolding(bn_model::specs::Fields::u_immediate))]
pub fn u_immediate(word: u32) -> i32
    ensures { result ≡ field.u_immediate word }
{
    let high = word >> 12;
    let upper = if high < 0x80000 {
        high as i32
    } else {
        high as i32 - 0x100000
    };
    upper * 0x1000
}

/// `imm[20]` from bit 31, `imm[19:12]` from bits 19:12, `imm[11]` from bit 20, `imm[10:1]` from
/// bits 30:21.
#[tactic(auto, unfolding(bn_model::specs::Fields::j_immediate))]
pub fn j_immediate(word: u32) -> i32
    ensures { result ≡ field.j_immediate word }
{
    let low = ((word >> 12) & 0xff) * 0x1000
        + ((word >> 20) & 1) * 0x800
        + ((word >> 21) & 0x3ff) * 2;
    if word >> 31 == 0 {
        low as i32
    } else {
        low as i32 - 0x100000
    }
}
