//! The text that tells of a run, from the counts of its lines.
ghost use Rattle.std.specs.Prelude.{◌≡◌, ◌++◌, IfOk, OnOk, length};
ghost use Rattle.bn_model.specs.Spelling.{finish_word};
ghost use Rattle.bn_gen.specs.Tallies.{first_lines, kind_line, kind_lines, last_line};

use crate::kinds::{KINDS, word_of_kind};
use crate::text::{put_digest, put_number};
use bn_model::Head;
use bn_types::{Digest, Finish};
use std::alloc::AllocError;

/// Appends the number that all was made of, and how many events were made.
#[tactic(auto, unfolding(crate::specs::Tallies::first_lines))]
pub fn put_first_lines(text: &mut Vec<u8>, number: u64, events: u64) -> Result<(), AllocError>
    ensures { OnOk result (text.new.items ≡ text.old.items ++ first_lines number events) }
{
    text.extend_from_slice(b"gen ")?;
    put_number(text, number)?;
    text.extend_from_slice(b"\nevents ")?;
    put_number(text, events)?;
    text.extend_from_slice(b"\n")
}

/// Appends how often each kind of line came.
pub fn put_counts(text: &mut Vec<u8>, counts: &[u64]) -> Result<(), AllocError>
    requires { length counts.now ≡ 18 }
    ensures { OnOk result (text.new.items ≡ text.old.items ++ kind_lines counts.now 0 18) }
{
    for i in 0..KINDS.len() {
        put_count(text, KINDS[i], counts[i])?;
    }
    Ok(())
}

#[tactic(auto, unfolding(crate::specs::Tallies::kind_line))]
fn put_count(text: &mut Vec<u8>, kind: Head, count: u64) -> Result<(), AllocError>
    ensures { OnOk result (text.new.items ≡ text.old.items ++ kind_line kind count) }
{
    text.extend_from_slice(word_of_kind(kind))?;
    text.extend_from_slice(b" ")?;
    put_number(text, count)?;
    text.extend_from_slice(b"\n")
}

/// Appends how the run ended, and the digest after it.
#[tactic(auto, unfolding(crate::specs::Tallies::last_line))]
pub fn put_last_line(text: &mut Vec<u8>, finish: Finish, digest: &Digest) -> Result<(), AllocError>
    ensures { OnOk result (text.new.items ≡ text.old.items ++ last_line finish digest.now) }
{
    text.extend_from_slice(b"end ")?;
    text.extend_from_slice(word_of_finish(finish))?;
    text.extend_from_slice(b" ")?;
    put_digest(text, digest)?;
    text.extend_from_slice(b"\n")
}

fn word_of_finish(finish: Finish) -> &'static [u8]
    ensures { result.now ≡ finish_word finish }
{
    match finish {
        Finish::Shutdown => b"shutdown",
        Finish::Limit => b"limit",
    }
}
