ghost use Rattle.std.specs.Prelude.{◌≡◌, true, false};
ghost use Rattle.bn_model.specs.Acting.{load_value};
ghost use Rattle.bn_model.specs.TwosComplement.{in_64_bits, sign_extension};

use bn_types::Width;

/// What a load sets: the low bytes of the width that were read from memory, extended by their sign
/// where
/// the load is signed, by zeros where it isn't (Unprivileged ISA, "Load and Store Instructions").
/// Bits of
/// `raw` above the width are ignored.
pub fn extend(width: Width, signed: bool, raw: u64) -> u64
    ensures { result ≡ load_value width signed raw }
{
    if signed {
        extend_sign(width, raw)
    } else {
        low_bytes(width, raw)
    }
}

fn extend_sign(width: Width, raw: u64) -> u64
    ensures { result ≡ load_value width true raw }
{
    match width {
        Width::B1 => in_64_bits(i64::from(((raw & 0xff) as u8).cast_signed())),
        Width::B2 => in_64_bits(i64::from(((raw & 0xffff) as u16).cast_signed())),
        Width::B4 => extend_word(raw),
        Width::B8 => raw,
    }
}

fn low_bytes(width: Width, raw: u64) -> u64
    ensures { result ≡ load_value width false raw }
{
    match width {
        Width::B1 => raw & 0xff,
        Width::B2 => raw & 0xffff,
        Width::B4 => raw & 0xffff_ffff,
        Width::B8 => raw,
    }
}

/// A signed number in two's complement.
pub fn in_64_bits(number: i64) -> u64
    ensures { result ≡ in_64_bits number }
{
    number.cast_unsigned()
}

/// The low 32 bits, extended by their sign.
pub fn extend_word(number: u64) -> u64
    ensures { result ≡ sign_extension 32 number }
{
    in_64_bits(i64::from(((number & 0xffff_ffff) as u32).cast_signed()))
}
