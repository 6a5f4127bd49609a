ghost use Rattle.std.specs.Prelude.{None};

use crate::{WordFault, Words};
use std::env::FillError;
use std::rt::Env;

/// The words of the process. It tells nothing of them.
#[derive(Drop)]
pub struct HostWords<'a, R: Env> {
    rt: &'a R,
}

impl<'a, R: Env> HostWords<'a, R> {
    /// The words that the runtime has after the program's name.
    pub fn of(rt: &'a R) -> HostWords<'a, R> {
        HostWords { rt }
    }
}

impl<R: Env> Words for HostWords<'_, R> {
    ghost words = { λ _. None };

    fn word(&self, number: usize, room: &mut [u8]) -> Result<usize, WordFault> {
        match self.rt.arg(number.saturating_add(1), room) {
            Ok(count) => Ok(count),
            Err(FillError::NotPresent) => Err(WordFault::Past),
            Err(FillError::TooLong) => Err(WordFault::Long),
        }
    }
}
