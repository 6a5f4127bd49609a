//! The fields of a script's line. A rest of a line begins with the space before its next field, or
//! is empty.
ghost use Rattle.std.specs.Prelude.{◌≡◌, ◌<◌, IfSome, option_map};
ghost use Rattle.bn_types.specs.Splitting.{pieces_after};
ghost use Rattle.bn_model.specs.Scripts as flat;
ghost use Rattle.bn_script.specs.Lines.{field_and_more};

use bn_types::{ScriptSort, read_numeral, split_first};

/// The next field, and the rest after it. None where there is none.
fn next_field(rest: &[u8]) -> Option<(&[u8], &[u8])>
    ensures { pieces_after 32 rest.now
        ≡ field_and_more (option_map (λ x. (x.0.now, x.1.now)) result) }
{
    if rest.is_empty() {
        return None;
    }
    Some(split_first(&rest[1..], b' '))
}

/// The one field of a rest. None where there are none, or more.
pub fn one_field(rest: &[u8]) -> Option<&[u8]>
    ensures { flat.one_of (pieces_after 32 rest.now) ≡ option_map (λ x. x.now) result }
{
    let (first, rest) = next_field(rest)?;
    match next_field(rest) {
        Some(_) => None,
        None => Some(first),
    }
}

/// The two fields of a rest. None where there are fewer, or more.
pub fn two_fields(rest: &[u8]) -> Option<(&[u8], &[u8])>
    ensures { flat.two_of (pieces_after 32 rest.now) ≡ option_map (λ x. (x.0.now, x.1.now)) result }
{
    let (first, rest) = next_field(rest)?;
    let (second, rest) = next_field(rest)?;
    match next_field(rest) {
        Some(_) => None,
        None => Some((first, second)),
    }
}

/// The three fields of a rest. None where there are fewer, or more.
pub fn three_fields(rest: &[u8]) -> Option<(&[u8], &[u8], &[u8])>
    ensures { flat.three_of (pieces_after 32 rest.now)
        ≡ option_map (λ x. (x.0.now, x.1.now, x.2.now)) result }
{
    let (first, rest) = next_field(rest)?;
    let (second, rest) = next_field(rest)?;
    let (third, rest) = next_field(rest)?;
    match next_field(rest) {
        Some(_) => None,
        None => Some((first, second, third)),
    }
}

/// A number, of ten digits at most.
#[tactic(auto, unfolding(bn_model::specs::Scripts::number_in))]
pub fn number(field: &[u8]) -> Result<u64, ScriptSort>
    ensures { result ≡ flat.number_in field.now }
{
    if 10 < field.len() {
        return Err(ScriptSort::Number);
    }
    match read_numeral(field) {
        Some(n) => Ok(n),
        None => Err(ScriptSort::Number),
    }
}

/// A byte, of two hexadecimal digits.
#[tactic(auto, unfolding(bn_model::specs::Scripts::byte_in))]
pub fn byte(field: &[u8]) -> Result<u8, ScriptSort>
    ensures { result ≡ flat.byte_in field.now }
{
    match spelled_byte(field) {
        Some(byte) => Ok(byte),
        None => Err(ScriptSort::Number),
    }
}

fn spelled_byte(field: &[u8]) -> Option<u8>
    ensures { result ≡ flat.byte_spelled field.now }
{
    let [high, low] = field else {
        return None;
    };
    let high = hex_digit(*high)?;
    let low = hex_digit(*low)?;
    Some(16 * high + low)
}

fn hex_digit(digit: u8) -> Option<u8>
    ensures exact { result ≡ flat.hex_digit digit }
    ensures range { IfSome result (λ value. value < 16) }
{
    match digit {
        b'0'..=b'9' => Some(digit - b'0'),
        b'a'..=b'f' => Some(digit - b'a' + 10),
        _ => None,
    }
}
