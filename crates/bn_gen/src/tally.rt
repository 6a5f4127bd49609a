ghost use Rattle.std.specs.Prelude.{◌≡◌, ◌-◌, ◌^◌, ◌<◌, ◌++◌, [], IfOk, List, drop, length};
ghost use Rattle.bn_types.specs.declared.line.Line.{Line};
ghost use Rattle.bn_model.specs.Reporting.{public_digest};
ghost use Rattle.bn_model.specs.Running.{Course};
ghost use Rattle.bn_model.specs.Spelling.{text_of};
ghost use Rattle.bn_model.specs.Summaries.{summary};
ghost use Rattle.bn_model.specs.WholeRuns.{finish_of};
ghost use Rattle.bn_gen.specs.Tallies.{CountsFirst, CountsLines, CountsWord, after_one};
ghost use Rattle.bn_gen.specs.Tallies.{first_lines, kind_lines, last_line, tally_of};

use crate::kinds::{KINDS, word_of_kind};
use crate::summary::{put_counts, put_first_lines, put_last_line};
use bn_types::{Digest, Finish, NoMemory, split_first};
use std::alloc::{AllocError, Global};
use std::marker::Model;

/// How often each kind of line that an event gives came.
#[derive(Debug, Drop)]
pub struct Tally {
    counts: [u64; 18],
}

impl Model for Tally {
    ghost use Rattle.std.specs.Prelude.{ℕ, List};

    ghost Value = { List ℕ };

    ghost view = { λ t. t.counts };
}

impl Tally {
    /// No line came.
    #[tactic(auto, unfolding(crate::specs::Tallies::tally_of))]
    pub fn new() -> Tally
        ensures { result ≡ tally_of [] }
    {
        Tally { counts: [0; 18] }
    }

    /// Counts the lines of a text, each by its first word, where fewer than 2^64 come in all.
    pub fn count(&mut self, text: &[u8])
        ensures { (told lines : List Line) → length (told ++ lines) < 2 ^ 64
            → self.old ≡ tally_of told → text.now ≡ text_of lines
            → self.new ≡ tally_of (told ++ lines) }
    {
        count_lines(&mut self.counts, text);
    }

    /// The summary of a run whose lines these are: the number that its image and script were made
    /// of, how many events were made, how often each kind of line came, how the run ended, and the
    /// digest of the pages that no module owns. NoMemory is want of memory.
    pub fn summary(
        &self,
        alloc: Global,
        number: u64,
        events: u64,
        finish: Finish,
        digest: &Digest,
    ) -> Result<Vec<u8>, NoMemory>
        ensures { (run : Course) → self.now ≡ tally_of run.told → events ≡ run.last.clock
            → finish ≡ finish_of run → digest.now ≡ public_digest run.last
            → IfOk result (λ text. text.items ≡ summary number run) }
    {
        match write_summary(alloc, &self.counts, number, events, finish, digest) {
            Ok(text) => Ok(text),
            Err(_) => Err(NoMemory),
        }
    }
}

fn write_summary(
    alloc: Global,
    counts: &[u64],
    number: u64,
    events: u64,
    finish: Finish,
    digest: &Digest,
) -> Result<Vec<u8>, AllocError>
    requires { length counts.now ≡ 18 }
    ensures { IfOk result (λ text. text.items
        ≡ first_lines number events ++ kind_lines counts.now 0 18 ++ last_line finish digest.now) }
{
    let mut text = Vec::new(alloc);
    put_first_lines(&mut text, number, events)?;
    put_counts(&mut text, counts)?;
    put_last_line(&mut text, finish, digest)?;
    Ok(text)
}

fn count_lines(counts: &mut [u64], text: &[u8])
    requires { length counts.old ≡ 18 }
    ensures { CountsLines text.now counts.old counts.new }
{
    let mut rest = text;
    'lines: while !rest.is_empty() {
        rest = count_first(counts, rest);
    }
}

/// Counts the first line of a text, and gives what stands after it.
fn count_first<'a>(counts: &mut [u64], text: &'a [u8]) -> &'a [u8]
    requires { length counts.old ≡ 18 }
    ensures counted { CountsFirst text.now result.now counts.old counts.new }
    ensures shorter { 0 < length text.now → length result.now < length text.now }
{
    let (line, more) = split_first(text, b'\n');
    let (word, _fields) = split_first(line, b' ');
    count_word(counts, word);
    after_mark(more)
}

fn after_mark(text: &[u8]) -> &[u8]
    ensures { result.now ≡ drop 1 text.now }
{
    match text {
        [] => text,
        [_, rest @ ..] => rest,
    }
}

/// Counts the kind of line that begins with a word.
fn count_word(counts: &mut [u64], word: &[u8])
    requires { length counts.old ≡ 18 }
    ensures { CountsWord word.now counts.old counts.new }
{
    for (i, count) in counts.iter_mut().enumerate() {
        let is_told = word_of_kind(KINDS[i]) == word;
        *count = counted(*count, is_told);
    }
}

fn counted(count: u64, is_told: bool) -> u64
    ensures { count < 2 ^ 64 - 1 → result ≡ after_one is_told count }
{
    if is_told {
        count.saturating_add(1)
    } else {
        count
    }
}
