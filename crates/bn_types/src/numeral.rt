//! Decimal numbers.
ghost use Rattle.std.specs.Prelude.{◌≡◌, ◌^◌};
ghost use Rattle.bn_types.specs.Numerals as flat;

/// The number that a word spells in decimal, without leading zeros. None exactly where it spells
/// none below 2^64.
#[tactic(auto, unfolding(crate::specs::Numerals::numeral_below))]
pub fn read_numeral(word: &[u8]) -> Option<u64>
    ensures { result ≡ flat.numeral_below (2 ^ 64) word.now }
{
    if word.is_empty() || (1 < word.len() && word[0] == b'0') {
        return None;
    }
    read_digits(word)
}

fn read_digits(digits: &[u8]) -> Option<u64>
    ensures { result ≡ flat.digits_below (2 ^ 64) 0 digits.now }
{
    let mut number: u64 = 0;
    for digit in digits {
        number = with_digit(number, *digit)?;
    }
    Some(number)
}

/// The number with one more digit. None where that is no digit, or the number isn't below 2^64.
fn with_digit(number: u64, digit: u8) -> Option<u64>
    ensures { result ≡ flat.with_digit (2 ^ 64) number digit }
{
    if !digit.is_ascii_digit() {
        return None;
    }
    number.checked_mul(10)?.checked_add(u64::from(digit - b'0'))
}
