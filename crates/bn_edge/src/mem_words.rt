ghost use Rattle.std.specs.Prelude.{◌≡◌, ℕ, ◌≤◌, List, Option, Some, IfOk, length, map};
ghost use Rattle.bn_edge.specs.CommandLine.{IsCopy, bytes_of_words};

use crate::{WordFault, Words};
use std::marker::Model;

/// Words in memory. They are told.
#[derive(Debug, Drop)]
pub struct MemWords {
    words: Vec<Vec<u8>>,
}

impl Model for MemWords {
    ghost use Rattle.std.specs.Prelude.{ℕ, List};
    ghost use Rattle.bn_edge.specs.CommandLine.{bytes_of_words};

    ghost Value = { List (List ℕ) };

    ghost view = { λ w. bytes_of_words w.words.items };
}

impl MemWords {
    /// These words.
    pub fn of(words: Vec<Vec<u8>>) -> MemWords
        ensures { result ≡ bytes_of_words words.items }
    {
        MemWords { words }
    }
}

impl Words for MemWords {
    ghost words = { λ w. Some w };

    fn word(&self, number: usize, room: &mut [u8]) -> Result<usize, WordFault> {
        match self.words.get(number) {
            Some(word) => copy_into(room, word),
            None => Err(WordFault::Past),
        }
    }
}

/// Copies a word to the start of the room, where it fits.
fn copy_into(room: &mut [u8], word: &[u8]) -> Result<usize, WordFault>
    ensures size { length room.new ≡ length room.old }
    ensures copied { IsCopy word.now result room.new }
{
    if word.len() > room.len() {
        return Err(WordFault::Long);
    }
    room[..word.len()].copy_from_slice(word);
    Ok(word.len())
}
