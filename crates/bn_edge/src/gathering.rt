ghost use Rattle.std.specs.Prelude.{◌≡◌, ◌++◌, ◌∷◌, [], IfOk, IfSome, OnOk};
ghost use Rattle.bn_edge.specs.CommandLine.{AreTold, IsFoundIn, bytes_of_words};

use crate::{WordFault, Words};
use bn_types::NoMemory;
use std::alloc::Global;

/// More words than a process can be given: Linux gives the words, with a pointer of 8 bytes to
/// each, at most 6 MiB.
const MOST_WORDS: usize = 1 << 20;

/// How often the room for a word is doubled: up to 512 KiB, where Linux gives a word at most 128
/// KiB.
const DOUBLINGS: u32 = 13;

const FIRST_ROOM: usize = 128;

/// All words of a command line, whatever their bytes. Want of memory comes also where there are
/// more words, or longer ones, than a process can be given.
pub fn gather_words<W: Words>(alloc: Global, line: &W) -> Result<Vec<Vec<u8>>, NoMemory>
    ensures { IfOk result (λ words. AreTold (W.words line.now) (bytes_of_words words.items)) }
{
    let mut room = roomy(alloc, FIRST_ROOM)?;
    let mut words = Vec::new(alloc);
    for number in 0..MOST_WORDS {
        match find_word(alloc, line, number, &mut room)? {
            Some(word) => push_word(&mut words, word)?,
            None => return Ok(words),
        }
    }
    Err(NoMemory)
}

/// The word with this number, by way of a room that grows until it fits.
fn find_word<W: Words>(
    alloc: Global,
    line: &W,
    number: usize,
    room: &mut Vec<u8>,
) -> Result<Option<Vec<u8>>, NoMemory>
    ensures { IfOk result (λ word.
        IfSome (W.words line.now) (λ words. IsFoundIn words number word)) }
{
    for _doubling in 0..DOUBLINGS {
        match line.word(number, room.as_mut_slice()) {
            Ok(count) => return Ok(Some(copy(alloc, &room.as_slice()[..count])?)),
            Err(WordFault::Past) => return Ok(None),
            Err(WordFault::Long) => *room = roomy(alloc, room.len().saturating_mul(2))?,
        }
    }
    Err(NoMemory)
}

fn copy(alloc: Global, bytes: &[u8]) -> Result<Vec<u8>, NoMemory>
    ensures { IfOk result (λ word. word.items ≡ bytes.now) }
{
    match Vec::from_slice(alloc, bytes) {
        Ok(word) => Ok(word),
        Err(_) => Err(NoMemory),
    }
}

fn push_word(words: &mut Vec<Vec<u8>>, word: Vec<u8>) -> Result<(), NoMemory>
    ensures { OnOk result (words.new.items ≡ words.old.items ++ word ∷ []) }
{
    match words.push(word) {
        Ok(()) => Ok(()),
        Err(_) => Err(NoMemory),
    }
}

/// Room of so many bytes.
fn roomy(alloc: Global, size: usize) -> Result<Vec<u8>, NoMemory> {
    match vec![in alloc; 0; size] {
        Ok(room) => Ok(room),
        Err(_) => Err(NoMemory),
    }
}
