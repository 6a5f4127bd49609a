//! The words as texts.
ghost use Rattle.std.specs.Prelude.{◌≡◌, MatchOption, false, true};
ghost use Rattle.bn_model.specs.CommandLines as flat;
ghost use Rattle.bn_front.specs.Meant.{bytes_of_words, reads_texts};

use crate::WordsError;
use std::alloc::Global;
use std::str::from_utf8;

/// The words as texts. Words where one is empty or isn't UTF-8; Memory is want of memory.
pub fn read_texts(alloc: Global, words: &[Vec<u8>]) -> Result<Vec<&str>, WordsError>
    ensures { reads_texts (bytes_of_words words.now) result }
{
    let mut texts = Vec::new(alloc);
    for word in words {
        match read_text(word) {
            Some(text) => match texts.push(text) {
                Ok(()) => {}
                Err(_) => return Err(WordsError::Memory),
            },
            None => return Err(WordsError::Words),
        }
    }
    Ok(texts)
}

/// A word as a text. None where it is empty or isn't UTF-8.
fn read_text(word: &[u8]) -> Option<&str>
    ensures { MatchOption result
        (flat.is_some_text word.now ≡ false)
        (λ text. (flat.is_some_text word.now ≡ true) × (text.now ≡ word.now)) }
{
    if word.is_empty() {
        return None;
    }
    match from_utf8(word) {
        Ok(text) => Some(text),
        Err(_) => None,
    }
}
