//! Numbers among the words.
ghost use Rattle.std.specs.Prelude.{◌≡◌, ◌≤◌, IfSome};
ghost use Rattle.bn_model.specs.CommandLines as flat;

use bn_types::read_numeral;

/// The number of a word, where it is from least to most. None exactly where the word isn't the
/// decimal spelling of such a number, without leading zeros.
pub fn number_between(word: &[u8], least: u64, most: u64) -> Option<u64>
    ensures exact { result ≡ flat.number_between least most word.now }
    ensures range { IfSome result (λ n. (least ≤ n) × (n ≤ most)) }
{
    let number = read_numeral(word)?;
    if is_between(number, least, most) {
        Some(number)
    } else {
        None
    }
}

fn is_between(number: u64, least: u64, most: u64) -> bool
    ensures { result ≡ flat.is_between least most number }
{
    least <= number && number <= most
}
