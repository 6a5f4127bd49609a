use crate::{HostWords, MemWords, WordFault, Words, gather_words};
use std::alloc::{AllocError, Global};
use std::env::{Env, FillError};
use std::test::Fail;

fn words(alloc: Global) -> Result<Vec<Vec<u8>>, AllocError> {
    let mut words = Vec::new(alloc);
    words.push(Vec::from_slice(alloc, b"run")?)?;
    words.push(Vec::from_slice(alloc, b"")?)?;
    words.push(vec![in alloc; b'x'; 600]?)?;
    words.push(Vec::from_slice(alloc, &[0xFF, 0xFE])?)?;
    Ok(words)
}

#[test]
fn a_word_is_copied_where_it_fits(rt: HostRuntime) -> Result<(), Fail> {
    let line = MemWords::of(words(rt.alloc())?);
    let mut room = [7; 4];
    for (number, want) in [
        (0, Ok(3)),
        (1, Ok(0)),
        (2, Err(WordFault::Long)),
        (3, Ok(2)),
        (4, Err(WordFault::Past)),
    ] {
        assert_eq!(rt; line.word(number, &mut room), want, "of word {number}");
    }
    assert!(rt; room == [0xFF, 0xFE, b'n', 7]);
    Ok(())
}

#[test]
fn all_words_are_gathered(rt: HostRuntime) -> Result<(), Fail> {
    let line = MemWords::of(words(rt.alloc())?);
    let given = gather_words(rt.alloc(), &line).ok().ok_or("no memory")?;
    let wanted = words(rt.alloc())?;
    assert!(rt; given.as_slice() == wanted.as_slice());
    Ok(())
}

/// An environment of a name and one word.
struct Process;

impl Env for Process {
    fn arg(&self, number: usize, room: &mut [u8]) -> Result<usize, FillError> {
        match number {
            0 if room.len() >= 7 => {
                room[..7].copy_from_slice(b"bastion");
                Ok(7)
            }
            1 if room.len() >= 3 => {
                room[..3].copy_from_slice(b"run");
                Ok(3)
            }
            0 | 1 => Err(FillError::TooLong),
            _ => Err(FillError::NotPresent),
        }
    }

    fn var(&self, _name: &str, _room: &mut [u8]) -> Result<usize, FillError> {
        Err(FillError::NotPresent)
    }

    fn var_at(&self, _number: usize, _room: &mut [u8]) -> Result<usize, FillError> {
        Err(FillError::NotPresent)
    }
}

#[test]
fn the_name_of_the_program_is_no_word(rt: HostRuntime) -> Result<(), Fail> {
    let line = HostWords::of(&Process);
    let mut room = [0; 4];
    assert!(rt; line.word(0, &mut room[..2]) == Err(WordFault::Long));
    assert!(rt; line.word(0, &mut room) == Ok(3));
    assert!(rt; room == *b"run\0");
    assert!(rt; line.word(1, &mut room) == Err(WordFault::Past));
    Ok(())
}
