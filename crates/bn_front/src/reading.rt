//! The whole command line.
ghost use Rattle.std.specs.Prelude.{◌≡◌, IfOk, option_map, true};
ghost use Rattle.std.specs.List.{list_all};
ghost use Rattle.bn_model.specs.CommandLines as flat;
ghost use Rattle.bn_front.specs.Commands.{word_id};
ghost use Rattle.bn_front.specs.Items.{gen_by, texts_under};
ghost use Rattle.bn_front.specs.Meant.{Answers, AreInRange, bytes_of_texts, bytes_of_words};
ghost use Rattle.bn_front.specs.Meant.{order_meant};

use crate::command::find_words;
use crate::number::number_between;
use crate::running::{own, run_of};
use crate::texts::read_texts;
use crate::tool::{Tool, tool_named};
use crate::values::lone_word;
use crate::{Order, WordsError};
use clap::ArgMatches;
use std::alloc::Global;

/// What the words after the program's name order: `run`, one image and options, or `gen` and a
/// number. Words exactly where they are no such command line; Memory is want of memory, which may
/// come in place of any other answer.
#[tactic(auto, unfolding(bn_model::specs::CommandLines::order_among))]
pub fn read_words(alloc: Global, words: &[Vec<u8>]) -> Result<Order, WordsError>
    ensures read { Answers (λ order. order_meant order)
        (flat.order_among flat.still_names (bytes_of_words words.now)) result }
    ensures range { IfOk result (λ order. AreInRange (order_meant order)) }
{
    let texts = read_texts(alloc, words)?;
    read_line(alloc, texts.as_slice())
}

fn read_line(alloc: Global, words: &[&str]) -> Result<Order, WordsError>
    requires { list_all flat.is_some_text (bytes_of_texts words.now) ≡ true }
    ensures read { Answers (λ order. order_meant order)
        (flat.order_if true flat.still_names (bytes_of_texts words.now)) result }
    ensures range { IfOk result (λ order. AreInRange (order_meant order)) }
{
    let [name, words @ ..] = words else {
        return Err(WordsError::Words);
    };
    match tool_named(name) {
        Some(Tool::Run) => read_run(alloc, words),
        Some(Tool::Gen) => read_gen(alloc, words),
        None => Err(WordsError::Words),
    }
}

fn read_run(alloc: Global, words: &[&str]) -> Result<Order, WordsError>
    requires { list_all flat.is_some_text (bytes_of_texts words.now) ≡ true }
    ensures read { Answers (λ order. order_meant order)
        (flat.order_by flat.still_names flat.Running (bytes_of_texts words.now)) result }
    ensures range { IfOk result (λ order. AreInRange (order_meant order)) }
{
    let matches = find_words(alloc, Tool::Run, words)?;
    match run_of(&matches) {
        Some(run) => match own(alloc, run) {
            Ok(run) => Ok(Order::Run(run)),
            Err(_) => Err(WordsError::Memory),
        },
        None => Err(WordsError::Words),
    }
}

fn read_gen(alloc: Global, words: &[&str]) -> Result<Order, WordsError>
    requires { list_all flat.is_some_text (bytes_of_texts words.now) ≡ true }
    ensures read { Answers (λ order. order_meant order)
        (flat.order_by flat.still_names flat.Generating (bytes_of_texts words.now)) result }
    ensures range { IfOk result (λ order. AreInRange (order_meant order)) }
{
    let matches = find_words(alloc, Tool::Gen, words)?;
    match number_of(&matches) {
        Some(number) => Ok(Order::Gen(number)),
        None => Err(WordsError::Words),
    }
}

/// The number of the one plain word, below 2^64. None where there is no such word, or number.
fn number_of(matches: &ArgMatches<'_>) -> Option<u64>
    ensures { option_map (λ number. flat.Gen number) result
        ≡ gen_by (texts_under word_id matches.now) }
{
    number_between(lone_word(matches)?.as_bytes(), 0, u64::MAX)
}
