//! Lines read back.
ghost use Rattle.std.specs.Prelude.{◌≡◌, IfOk};
ghost use Rattle.bn_types.specs.Splitting.{split_by};
ghost use Rattle.bn_model.specs.LineReading as flat;
ghost use Rattle.bn_trace.specs.Laws.{IsSpelled};

use crate::readers::read_rest;
use bn_model::Head;
use bn_types::{Line, LineFault, split_first};

/// The line that a text begins with, and its length, the line feed included. An error tells where
/// the text stops being one: where the first wrong or surplus field begins; at the line feed, where
/// a field is missing; at the text's end, where there is no line feed.
#[tactic(auto, unfolding(bn_model::specs::LineReading::read_of))]
pub fn read_line(text: &[u8]) -> Result<(Line, usize), LineFault>
    ensures exact { result ≡ flat.read_of text.now }
    ensures spelled { IfOk result (λ read. IsSpelled text.now read.0 read.1) }
{
    let (line, more) = split_first(text, b'\n');
    if more.is_empty() {
        return Err(LineFault { at: text.len() });
    }
    match read_pieces(line) {
        Ok(read) => Ok((read, line.len() + 1)),
        Err(left) => Err(LineFault {
            at: line.len().saturating_sub(left),
        }),
    }
}

fn read_pieces(line: &[u8]) -> Result<Line, usize>
    ensures { result ≡ flat.line_in (split_by 32 line.now) }
{
    let (word, rest) = split_first(line, b' ');
    match head_of(word) {
        Some(head) => read_rest(head, rest),
        None => Err(line.len()),
    }
}

#[tactic(auto, unfolding(bn_model::specs::LineReading::head_named))]
fn head_of(word: &[u8]) -> Option<Head>
    ensures { result ≡ flat.head_named word.now }
{
    if word == b"out".as_slice() {
        Some(Head::Out)
    } else if word == b"deny".as_slice() {
        Some(Head::Deny)
    } else if word == b"stop".as_slice() {
        Some(Head::Stop)
    } else if word == b"trap".as_slice() {
        Some(Head::Trap)
    } else if word == b"launch".as_slice() {
        Some(Head::Launch)
    } else if word == b"call".as_slice() {
        Some(Head::Call)
    } else if word == b"ret".as_slice() {
        Some(Head::Ret)
    } else if word == b"resume".as_slice() {
        Some(Head::Resume)
    } else if word == b"evict".as_slice() {
        Some(Head::Evict)
    } else if word == b"sset".as_slice() {
        Some(Head::Sset)
    } else if word == b"refuse".as_slice() {
        Some(Head::Refuse)
    } else if word == b"start".as_slice() {
        Some(Head::Start)
    } else if word == b"key".as_slice() {
        Some(Head::Key)
    } else if word == b"nokey".as_slice() {
        Some(Head::Nokey)
    } else if word == b"poke".as_slice() {
        Some(Head::Poke)
    } else if word == b"nopoke".as_slice() {
        Some(Head::Nopoke)
    } else if word == b"peek".as_slice() {
        Some(Head::Peek)
    } else if word == b"nopeek".as_slice() {
        Some(Head::Nopeek)
    } else if word == b"end".as_slice() {
        Some(Head::End)
    } else {
        None
    }
}
