ghost use Rattle.std.specs.Prelude.{◌≡◌, ℕ, ◌+◌, ◌*◌, ◌≤◌, None, Err, IfOk, OnErr, length, drop};
ghost use Rattle.std.specs.Prelude.{vec_capacity};
ghost use Rattle.std.specs.Int.{from_le_bytes, w64};
ghost use Rattle.std.specs.Ordering.{is_lt};
ghost use Rattle.bn_model.specs.Records.{identity_order};
ghost use Rattle.bn_model.specs.StoredImages.{after_magic, store_magic, magic_fault, head_fault};
ghost use Rattle.bn_model.specs.StoredImages.{order_fault, count_in, record_of, records_in};
ghost use Rattle.bn_model.specs.StoredImages.{words_in};

use crate::ImageError;
use bn_types::{Digest, Record};
use std::alloc::Global;
use std::cmp::Ordering;

const MAGIC: &[u8; 8] = b"BNSTORE1";

/// The most identities that have words.
pub const MOST_RECORDS: usize = 64;

/// The first place where a text's magic, count or length is wrong.
pub fn find_head_fault(text: &[u8]) -> Option<usize>
    ensures { result ≡ head_fault text.now }
{
    if text.len() < 16 {
        return Some(text.len());
    }
    match find_magic_fault(MAGIC, text) {
        Some(at) => Some(at),
        None => find_count_fault(text),
    }
}

fn find_magic_fault(magic: &[u8], text: &[u8]) -> Option<usize>
    requires { length magic.now ≤ length text.now }
    ensures { result ≡ magic_fault 0 magic.now text.now }
{
    for at in 0..magic.len() {
        if text[at] != magic[at] {
            return Some(at);
        }
    }
    None
}

fn find_count_fault(text: &[u8]) -> Option<usize>
    requires { 16 ≤ length text.now }
    ensures { result ≡ after_magic None text.now }
{
    let count = word_at(text, 8);
    if count > 64 {
        return Some(8);
    }
    let wanted = 16 + 288 * count as usize;
    if text.len() != wanted {
        return Some(text.len().min(wanted));
    }
    None
}

/// How many records a text tells.
pub fn count_of(text: &[u8]) -> u64
    requires { 16 ≤ length text.now }
    ensures { result ≡ count_in text.now }
{
    word_at(text, 8)
}

fn word_at(text: &[u8], at: usize) -> u64
    requires { at + 8 ≤ length text.now }
    ensures word { result ≡ from_le_bytes w64 (drop at text.now) }
{
    u64::from_le_bytes([
        text[at],
        text[at + 1],
        text[at + 2],
        text[at + 3],
        text[at + 4],
        text[at + 5],
        text[at + 6],
        text[at + 7],
    ])
}

/// The records of a text, in a vector with room for 64.
pub fn read_records(alloc: Global, text: &[u8], count: usize) -> Result<Vec<Record>, ImageError>
    requires few { count ≤ 64 }
    requires inside { 16 + 288 * count ≤ length text.now }
    ensures ok { IfOk result (λ records.
        (records.items ≡ records_in count (drop 16 text.now)) × (64 ≤ vec_capacity records)) }
    ensures err { OnErr result (result ≡ Err ImageError.Memory) }
{
    let Ok(mut records) = Vec::with_capacity(alloc, MOST_RECORDS) else {
        return Err(ImageError::Memory);
    };
    for number in 0..count {
        match records.push(record_at(text, 16 + 288 * number)) {
            Ok(()) => {}
            Err(_) => return Err(ImageError::Memory),
        }
    }
    Ok(records)
}

#[tactic(auto, unfolding(bn_model::specs::StoredImages::record_of))]
fn record_at(text: &[u8], at: usize) -> Record
    requires { at + 288 ≤ length text.now }
    ensures { result ≡ record_of 32 32 (drop at text.now) }
{
    let mut who = [0; 32];
    who.copy_from_slice(&text[at..at + 32]);
    let mut words = [0; 32];
    read_words(text, at + 32, &mut words);
    Record {
        who: Digest(who),
        words,
    }
}

/// Fills the words with those that stand in the text from a place on.
fn read_words(text: &[u8], at: usize, words: &mut [u64])
    requires { at + 8 * length words.old ≤ length text.now }
    ensures { words.new ≡ words_in (length words.old) (drop at text.now) }
{
    for number in 0..words.len() {
        words[number] = word_at(text, at + 8 * number);
    }
}

/// The place of the first identity that isn't above the one before.
pub fn find_order_fault(records: &[Record]) -> Option<usize>
    requires { length records.now ≤ 64 }
    ensures { result ≡ order_fault records.now }
{
    for number in 1..records.len() {
        let above = is_above(&records[number - 1], &records[number]);
        if !above {
            return Some(16 + 288 * number);
        }
    }
    None
}

fn is_above(low: &Record, high: &Record) -> bool
    ensures { result ≡ is_lt (identity_order low.now.who high.now.who) }
{
    low.who.0.cmp(&high.who.0) == Ordering::Less
}
