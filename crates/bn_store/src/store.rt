ghost use Rattle.std.specs.Prelude.{◌≡◌, ◌<◌, ◌≤◌, List, [], IfOk, IfErr, OnOk, OnErr, length};
ghost use Rattle.std.specs.Prelude.{take, vec_capacity, slice_index_or};
ghost use Rattle.std.specs.List.Sorted.{IsBinarySearchResult, IsSearchInRange};
ghost use Rattle.bn_types.specs.declared.record.Record.{Record as Kept};
ghost use Rattle.bn_model.specs.Records.{identity_order, AreRecords, get_word, set_word};
ghost use Rattle.bn_model.specs.Records.{set_refusal, new_record};
ghost use Rattle.bn_model.specs.StoredImages.{image_of, image_size, stored, Stored};
ghost use Rattle.bn_store.specs.Answers.{refusal_of, IsImageFault};

use crate::reading::{MOST_RECORDS, count_of, find_head_fault, find_order_fault, read_records};
use crate::writing::write_image;
use crate::{ImageError, SetRefused};
use bn_types::{Digest, NoMemory, Record};
use std::alloc::Global;
use std::marker::Model;

/// 32 words of 64 bits for each of at most 64 identities.
#[derive(Debug, Drop)]
pub struct Store {
    records: Vec<Record>,
}

impl Model for Store {
    ghost Value = { List Kept };

    ghost view = { λ s. s.records.items };

    ghost invariant = { λ s. AreRecords s.records.items × (64 ≤ vec_capacity s.records) };
}

impl Store {
    /// What holds of every store: at most 64 identities, which ascend strictly, with 32 words of 64
    /// bits for each. It does nothing.
    pub fn facts(&self)
        ensures { AreRecords self.now }
    {
        // For the prover: reading a field tells what the invariant says of it.
        let _records = &self.records;
    }

    /// A store without words, with room for all.
    pub fn empty(alloc: Global) -> Result<Store, NoMemory>
        ensures { IfOk result (λ store. store ≡ []) }
    {
        match Vec::with_capacity(alloc, MOST_RECORDS) {
            Ok(records) => Ok(Store { records }),
            Err(_) => Err(NoMemory),
        }
    }

    /// The store that a text spells, with room for all words. Each store has one spelling, and no
    /// other text is accepted.
    ///
    /// `Malformed` tells the first place where the text is wrong: its end where it has fewer than
    /// 16 bytes; a wrong byte of the magic; 8 where the count is above 64; the smaller of its
    /// length and the length that the count asks for where they differ; the place of an identity
    /// that isn't above the one before. `Memory` is free.
    pub fn from_image(alloc: Global, text: &[u8]) -> Result<Store, ImageError>
        ensures ok { IfOk result (λ store. stored text.now ≡ Stored store) }
        ensures err { IfErr result (IsImageFault text.now) }
        ensures spelled { IfOk result (λ store. image_of store ≡ text.now) }
    {
        match find_head_fault(text) {
            Some(at) => return Err(ImageError::Malformed { at }),
            None => {}
        }
        let records = match read_records(alloc, text, count_of(text) as usize) {
            Ok(records) => records,
            Err(fault) => return Err(fault),
        };
        match find_order_fault(&records) {
            Some(at) => Err(ImageError::Malformed { at }),
            None => Ok(Store { records }),
        }
    }

    /// A word of an identity, 0 where the index is above 31 or the identity has no words.
    pub fn get(&self, who: &Digest, index: u64) -> u64
        ensures { result ≡ get_word self.now who.now index }
    {
        match find_place(&self.records, &who.0) {
            Ok(at) => word_or_0(&self.records[at].words, index),
            Err(_) => 0,
        }
    }

    /// Sets a word of an identity, also to 0, and makes its words where it has none.
    ///
    /// `BadIndex`: the index is above 31. `Full`: the identity has no words, and 64 others have.
    /// Both change nothing.
    pub fn set(&mut self, who: &Digest, index: u64, value: u64) -> Result<(), SetRefused>
        ensures refused { refusal_of result ≡ set_refusal self.old who.now index }
        ensures ok { OnOk result (self.new ≡ set_word self.old who.now index value) }
        ensures err { OnErr result (self.new ≡ self.old) }
    {
        if index >= 32 {
            return Err(SetRefused::BadIndex);
        }
        match find_place(&self.records, &who.0) {
            Ok(at) => {
                self.records[at].words[index as usize] = value;
                Ok(())
            }
            Err(at) => {
                if self.records.len() >= MOST_RECORDS {
                    return Err(SetRefused::Full);
                }
                match self
                    .records
                    .insert(at, record_of(who, index as usize, value))
                {
                    Ok(()) => Ok(()),
                    Err(_) => unreachable!(),
                }
            }
        }
    }

    /// Writes the stored image, the one spelling, to the front of the text, and says how many bytes
    /// that are.
    pub fn image(&self, text: &mut [u8; 18448]) -> usize
        ensures image { take result text.new ≡ image_of self.now }
        ensures size { result ≡ image_size (length self.now) }
        ensures few { result ≤ 18448 }
        ensures read_back { stored (image_of self.now) ≡ Stored self.now }
    {
        write_image(&self.records, text)
    }
}

/// Where an identity's record stands, or where it would stand.
fn find_place(records: &[Record], who: &[u8; 32]) -> Result<usize, usize>
    ensures bound { IsSearchInRange result (length records.now) }
    ensures position { IsBinarySearchResult (λ r. identity_order r.who (record { 0 = who.now }))
        records.now result }
    ensures sized { length who.now ≡ 32 }
{
    records.binary_search_by_key(
        who,
        |one: &Record| -> [u8; 32]
            ensures { result ≡ one.now.who.0 }
        { one.who.0 },
    )
}

/// A word, 0 where the index is above 31.
#[tactic(auto, using(std::proofs::lemmas::List::get_or_past))]
fn word_or_0(words: &[u64; 32], index: u64) -> u64
    ensures { result ≡ slice_index_or words.now index 0 }
{
    if index < 32 { words[index as usize] } else { 0 }
}

/// The record of an identity that had no words.
fn record_of(who: &Digest, index: usize, value: u64) -> Record
    requires { index < 32 }
    ensures { result ≡ new_record who.now index value }
{
    let mut words = [0; 32];
    words[index] = value;
    Record { who: *who, words }
}
