//! Scripts read whole.
ghost use Rattle.std.specs.Prelude.{◌≡◌, ◌+◌, ◌++◌, ◌≤◌, IfErr, IfOk, OnOk, length};
ghost use Rattle.std.specs.Bool.{OnTrue};
ghost use Rattle.bn_types.specs.Splitting.{split_by};
ghost use Rattle.bn_model.specs.Scripts as flat;
ghost use Rattle.bn_script.specs.Drawing.{OrdersEvents};
ghost use Rattle.bn_script.specs.Lines.{commands_in, reads, refuses, refuses_line, with_ordered};

use crate::commands::read_command;
use crate::{Script, ScriptError};
use bn_model::Command;
use bn_types::{ScriptFault, ScriptSort, split_first};
use std::alloc::Global;

/// A script has at most so many bytes.
const MOST_SCRIPT_BYTES: usize = 1_048_576;

/// The script of a text, on a machine of 1 to 4 harts. Lines end with a line feed, which the last
/// may lack; an empty line and one that begins with `#` order nothing. Fault tells the first bad
/// line and what is wrong there, or that the text is too long; Memory is want of memory.
#[tactic(auto, unfolding(bn_model::specs::Scripts::script_in))]
pub fn read(alloc: Global, text: &[u8], harts: u8) -> Result<Script, ScriptError>
    requires some { 1 ≤ harts }
    requires few { harts ≤ 4 }
    ensures { reads (flat.script_in harts text.now) result }
{
    let commands = read_commands(alloc, text, harts)?;
    Ok(Script::of(commands, harts))
}

#[tactic(auto, unfolding(bn_model::specs::Scripts::commands_of))]
fn read_commands(alloc: Global, text: &[u8], harts: u8) -> Result<Vec<Command>, ScriptError>
    requires { 1 ≤ harts }
    ensures read { IfOk result (λ commands. flat.commands_of harts text.now ≡ Ok commands.items) }
    ensures refused { IfErr result (λ error. refuses (flat.commands_of harts text.now) error) }
    ensures orders { IfOk result (λ commands. OrdersEvents harts commands.items) }
{
    if MOST_SCRIPT_BYTES < text.len() {
        return Err(ScriptError::Fault(ScriptFault {
            line: 0,
            sort: ScriptSort::Long,
        }));
    }
    read_lines(alloc, text, harts)
}

fn read_lines(alloc: Global, text: &[u8], harts: u8) -> Result<Vec<Command>, ScriptError>
    requires some { 1 ≤ harts }
    requires short { length text.now ≤ 1048576 }
    ensures read { IfOk result
        (λ commands. flat.commands_from harts 1 (split_by 10 text.now) ≡ Ok commands.items) }
    ensures refused { IfErr result
        (λ error. refuses (flat.commands_from harts 1 (split_by 10 text.now)) error) }
    ensures orders { IfOk result (λ commands. OrdersEvents harts commands.items) }
{
    let mut commands = Vec::new(alloc);
    let mut rest = text;
    let mut number: u32 = 1;
    'lines: loop {
        let (line, more) = split_first(rest, b'\n');
        match read_line(&mut commands, line, harts, number) {
            Ok(()) => {}
            Err(error) => return Err(error),
        }
        if more.is_empty() {
            return Ok(commands);
        }
        rest = &more[1..];
        number += 1;
    }
}

/// Reads the line of that number, and appends the command that it orders.
#[tactic(auto, using(crate::proofs::LineLemmas::orders_added))]
fn read_line(
    commands: &mut Vec<Command>,
    line: &[u8],
    harts: u8,
    number: u32,
) -> Result<(), ScriptError>
    requires { 1 ≤ harts }
    ensures added { OnOk result
        (with_ordered commands.old.items (flat.ordered_by harts line.now) ≡ Ok commands.new.items) }
    ensures refused { IfErr result
        (λ error. refuses_line number (flat.ordered_by harts line.now) error) }
    ensures orders { OnOk result
        (OrdersEvents harts commands.old.items → OrdersEvents harts commands.new.items) }
{
    match read_command(line, harts) {
        Ok(said) => {
            if add(commands, said) {
                Ok(())
            } else {
                Err(ScriptError::Memory)
            }
        }
        Err(sort) => Err(ScriptError::Fault(ScriptFault { line: number, sort })),
    }
}

/// Appends a command, if there is one. False where there is no memory.
fn add(commands: &mut Vec<Command>, said: Option<Command>) -> bool
    ensures { OnTrue result (commands.new.items ≡ commands.old.items ++ commands_in said) }
{
    match said {
        Some(command) => commands.push(command).is_ok(),
        None => true,
    }
}
