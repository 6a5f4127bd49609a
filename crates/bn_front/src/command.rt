//! The words after the first, as clap reads them.
ghost use Rattle.std.specs.Prelude.{◌≡◌, IfOk, false, true, map};
ghost use Rattle.std.specs.List.{list_all};
ghost use Rattle.clap.specs.Words.{app_of, rule_of};
ghost use Rattle.clap.specs.Simple.{with_rule};
ghost use Rattle.bn_model.specs.CommandLines as flat;
ghost use Rattle.bn_front.specs.Commands.{app_of_names, bare_app, option_rule, with_options};
ghost use Rattle.bn_front.specs.Commands.{word_rule};
ghost use Rattle.bn_front.specs.Items.{Explains, Finds, name_meant, names_of};
ghost use Rattle.bn_front.specs.Meant.{bytes_of_texts};

use crate::WordsError;
use crate::option_name::OptionName;
use crate::tool::Tool;
use clap::builder::ValueParser;
use clap::error::ErrorKind;
use clap::{Arg, ArgAction, ArgMatches, Command, Error};
use std::alloc::{AllocError, Global};

/// How the plain words are found among the matches.
pub const WORD: &str = "word";

/// What the words after a tool's name give: the values of each option, and the plain words. Words
/// where a word may not come where it stands, or an option's value is missing; Memory is want of
/// memory.
pub fn find_words<'a>(
    alloc: Global,
    tool: Tool,
    words: &'a [&'a str],
) -> Result<ArgMatches<'a>, WordsError>
    requires { list_all flat.is_some_text (bytes_of_texts words.now) ≡ true }
    ensures { Finds (flat.items_from (names_of tool) flat.Free (bytes_of_texts words.now)) result }
{
    let command = match command_of(alloc, tool) {
        Ok(command) => command,
        Err(_) => return Err(WordsError::Memory),
    };
    match command.try_get_matches_from(words) {
        Ok(matches) => Ok(matches),
        Err(error) => Err(reason(&error)),
    }
}

fn reason(error: &Error) -> WordsError
    ensures { Explains error.now result }
{
    match error.kind() {
        ErrorKind::OutOfMemory => WordsError::Memory,
        _ => WordsError::Words,
    }
}

/// The command that reads a tool's words.
#[tactic(auto, unfolding(crate::specs::Commands::app_of_names))]
fn command_of<'a>(alloc: Global, tool: Tool) -> Result<Command<'a>, AllocError>
    ensures { IfOk result (λ command. app_of command ≡ app_of_names (names_of tool)) }
{
    let command = with_options(alloc, bare(alloc), tool.options())?;
    with_argument(command, word(alloc))
}

/// A command of one program's words, that answers to no `--help` and no `--version`.
fn bare<'a>(alloc: Global) -> Command<'a>
    ensures { app_of result ≡ bare_app }
{
    Command::new(alloc, "bastion")
        .no_binary_name(true)
        .disable_help_flag(true)
        .disable_version_flag(true)
}

fn with_options<'a>(
    alloc: Global,
    command: Command<'a>,
    options: &[OptionName],
) -> Result<Command<'a>, AllocError>
    ensures { IfOk result (λ new.
        app_of new ≡ with_options (app_of command.entry) (map name_meant options.now)) }
{
    let mut command = command;
    for option in options {
        command = with_argument(command, argument(alloc, *option))?;
    }
    Ok(command)
}

fn with_argument<'a>(command: Command<'a>, arg: Arg<'a>) -> Result<Command<'a>, AllocError>
    requires { arg.global ≡ false }
    ensures { IfOk result (λ new.
        app_of new ≡ with_rule (app_of command.entry) (rule_of arg.entry)) }
{
    command.arg(arg)
}

/// An option's argument. Every use of it is kept, so that a second one is seen: its value, which
/// isn't empty, or an empty text where it takes none.
fn argument<'a>(alloc: Global, option: OptionName) -> Arg<'a>
    ensures rule { rule_of result ≡ option_rule (name_meant option) }
    ensures local { result.global ≡ false }
{
    let name = option.text();
    let arg = Arg::new(alloc, name).long(name).action(ArgAction::Append);
    if option.takes_value() {
        arg.value_parser(ValueParser::NonEmptyString)
    } else {
        arg.num_args(0).default_missing_value("")
    }
}

/// The argument of the plain words.
fn word<'a>(alloc: Global) -> Arg<'a>
    ensures rule { rule_of result ≡ word_rule }
    ensures local { result.global ≡ false }
{
    Arg::new(alloc, WORD).action(ArgAction::Append)
}
