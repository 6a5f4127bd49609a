//! What is said of each option, and of the plain word.
ghost use Rattle.std.specs.Prelude.{◌≡◌, ◌≤◌, IfSome, None, Some, false, option_map};
ghost use Rattle.bn_types.specs.Splitting.{split_by};
ghost use Rattle.bn_model.specs.CommandLines as flat;
ghost use Rattle.bn_model.specs.Scripts as scripts;
ghost use Rattle.bn_front.specs.Commands.{word_id};
ghost use Rattle.bn_front.specs.Items.{lone, name_meant, texts_under};
ghost use Rattle.bn_front.specs.Meant.{CanBlind, blind_meant};

use crate::command::WORD;
use crate::number::number_between;
use crate::option_name::OptionName;
use bn_types::{ModId, split_first};
use clap::ArgMatches;

/// The text under this id: Some(None) where there is none, None where there are several.
fn lone_text<'a>(matches: &ArgMatches<'a>, id: &str) -> Option<Option<&'a str>>
    ensures { option_map (λ found. option_map (λ text. text.now) found) result
        ≡ lone (texts_under id.now matches.now) }
{
    match matches.get_raw(id) {
        None | Some([]) => Some(None),
        Some([text]) => Some(Some(*text)),
        Some(_) => None,
    }
}

/// The one plain word. None where there are none, or several.
pub fn lone_word<'a>(matches: &ArgMatches<'a>) -> Option<&'a str>
    ensures { option_map (λ word. word.now) result
        ≡ flat.only_one (texts_under word_id matches.now) }
{
    lone_text(matches, WORD)?
}

/// An option's number, from least to most, or another where it isn't given. None where it is given
/// twice, or its value is no such number.
pub fn number_given(
    matches: &ArgMatches<'_>,
    option: OptionName,
    absent: u64,
    least: u64,
    most: u64,
) -> Option<u64>
    requires least { least ≤ absent }
    requires most { absent ≤ most }
    ensures exact { result ≡ flat.at_most_one absent (flat.number_between least most)
        (texts_under (flat.name_text (name_meant option)) matches.now) }
    ensures range { IfSome result (λ n. (least ≤ n) × (n ≤ most)) }
{
    match lone_text(matches, option.text())? {
        Some(text) => number_between(text.as_bytes(), least, most),
        None => Some(absent),
    }
}

/// The script's file, where it is given. None where it is given twice.
pub fn script_given<'a>(matches: &ArgMatches<'a>) -> Option<Option<&'a str>>
    ensures { option_map (λ found. option_map (λ text. text.now) found) result
        ≡ flat.at_most_one None flat.file_of
        (texts_under (flat.name_text flat.ScriptFile) matches.now) }
{
    lone_text(matches, OptionName::Script.text())
}

/// Whether the store is asked for. None where it is twice.
pub fn store_given(matches: &ArgMatches<'_>) -> Option<bool>
    ensures { result
        ≡ flat.at_most_one false flat.flag_of
        (texts_under (flat.name_text flat.Store) matches.now) }
{
    match lone_text(matches, OptionName::Store.text())? {
        Some(_) => Some(true),
        None => Some(false),
    }
}

/// The module to be blinded, with the event, where they are given. None where they are given twice,
/// or not as `M@K`.
pub fn blind_given(matches: &ArgMatches<'_>) -> Option<Option<(ModId, u64)>>
    ensures exact { option_map (λ blind. option_map (λ x. blind_meant x) blind) result
        ≡ flat.at_most_one None flat.blind_of
        (texts_under (flat.name_text flat.Blinding) matches.now) }
    ensures range { IfSome result (λ found. IfSome found (λ x. CanBlind (blind_meant x))) }
{
    match lone_text(matches, OptionName::Blind.text())? {
        Some(text) => match read_blind(text.as_bytes()) {
            Some(blind) => Some(Some(blind)),
            None => None,
        },
        None => Some(None),
    }
}

/// `M@K`: a module from 1 to 65,535 and an event from 0 to 1,000,000,000.
#[tactic(auto, unfolding(bn_model::specs::CommandLines::blind_of))]
fn read_blind(value: &[u8]) -> Option<(ModId, u64)>
    ensures exact { option_map (λ blind. Some (blind_meant blind)) result
        ≡ flat.blind_of value.now }
    ensures range { IfSome result (λ blind. CanBlind (blind_meant blind)) }
{
    let (module, event) = halves(value)?;
    let module = number_between(module, 1, 65_535)?;
    let event = number_between(event, 0, 1_000_000_000)?;
    Some((ModId(module as u16), event))
}

/// What stands before the one `@` and after it. None where there is none, or more.
fn halves(value: &[u8]) -> Option<(&[u8], &[u8])>
    ensures { option_map (λ x. (x.0.now, x.1.now)) result ≡ scripts.two_of (split_by 64 value.now) }
{
    let (first, rest) = split_first(value, b'@');
    if rest.is_empty() {
        return None;
    }
    let (second, rest) = split_first(&rest[1..], b'@');
    if rest.is_empty() {
        Some((first, second))
    } else {
        None
    }
}
