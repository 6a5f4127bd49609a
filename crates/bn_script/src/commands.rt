//! The commands of a script, line by line.
ghost use Rattle.std.specs.Prelude.{◌≡◌, ◌≤◌, IfOk, IfSome};
ghost use Rattle.bn_types.specs.Splitting.{pieces_after, split_by};
ghost use Rattle.bn_model.specs.Scripts as flat;
ghost use Rattle.bn_script.specs.Lines.{count_of, ordered};

use crate::fields::{byte, number, one_field, three_fields, two_fields};
use bn_model::Command;
use bn_types::{Gpn, ScriptSort, split_first};

/// What a line orders on a machine of so many harts: nothing or a command.
#[tactic(auto, unfolding(bn_model::specs::Scripts::ordered_by))]
pub fn read_command(line: &[u8], harts: u8) -> Result<Option<Command>, ScriptSort>
    ensures exact { flat.ordered_by harts line.now ≡ ordered result }
    ensures counts { IfOk result (λ o. IfSome o (λ command. 1 ≤ count_of command)) }
{
    if is_silent(line) {
        return Ok(None);
    }
    match spelled_command(line, harts) {
        Ok(command) => Ok(Some(command)),
        Err(sort) => Err(sort),
    }
}

fn is_silent(line: &[u8]) -> bool
    ensures { result ≡ flat.is_silent line.now }
{
    match line {
        [] => true,
        [first, ..] => *first == b'#',
    }
}

fn spelled_command(line: &[u8], harts: u8) -> Result<Command, ScriptSort>
    ensures exact { result ≡ flat.command_of harts (split_by 32 line.now) }
    ensures counts { IfOk result (λ command. 1 ≤ count_of command) }
{
    let (word, rest) = split_first(line, b' ');
    if word == b"turn".as_slice() {
        turn_of(rest, harts)
    } else if word == b"go".as_slice() {
        go_of(rest)
    } else if word == b"key".as_slice() {
        key_of(rest)
    } else if word == b"poke".as_slice() {
        poke_of(rest)
    } else if word == b"peek".as_slice() {
        peek_of(rest)
    } else {
        Err(ScriptSort::Word)
    }
}

#[tactic(auto, unfolding(bn_model::specs::Scripts::turn_of))]
fn turn_of(rest: &[u8], harts: u8) -> Result<Command, ScriptSort>
    ensures exact { result ≡ flat.turn_of harts (pieces_after 32 rest.now) }
    ensures counts { IfOk result (λ command. 1 ≤ count_of command) }
{
    let Some((hart, count)) = two_fields(rest) else {
        return Err(ScriptSort::Fields);
    };
    let hart = number(hart)?;
    let count = number(count)?;
    if hart < u64::from(harts) && is_count(count) {
        Ok(Command::Turn(hart as u8, count as u32))
    } else {
        Err(ScriptSort::Range)
    }
}

#[tactic(auto, unfolding(bn_model::specs::Scripts::go_of))]
fn go_of(rest: &[u8]) -> Result<Command, ScriptSort>
    ensures exact { result ≡ flat.go_of (pieces_after 32 rest.now) }
    ensures counts { IfOk result (λ command. 1 ≤ count_of command) }
{
    let Some(count) = one_field(rest) else {
        return Err(ScriptSort::Fields);
    };
    let count = number(count)?;
    if is_count(count) {
        Ok(Command::Go(count as u32))
    } else {
        Err(ScriptSort::Range)
    }
}

#[tactic(auto, unfolding(bn_model::specs::Scripts::key_of))]
fn key_of(rest: &[u8]) -> Result<Command, ScriptSort>
    ensures exact { result ≡ flat.key_of (pieces_after 32 rest.now) }
    ensures counts { IfOk result (λ command. 1 ≤ count_of command) }
{
    let Some(field) = one_field(rest) else {
        return Err(ScriptSort::Fields);
    };
    let key = byte(field)?;
    Ok(Command::Key(key))
}

#[tactic(auto, unfolding(bn_model::specs::Scripts::poke_of))]
fn poke_of(rest: &[u8]) -> Result<Command, ScriptSort>
    ensures exact { result ≡ flat.poke_of (pieces_after 32 rest.now) }
    ensures counts { IfOk result (λ command. 1 ≤ count_of command) }
{
    let Some((page, offset, value)) = three_fields(rest) else {
        return Err(ScriptSort::Fields);
    };
    let page = number(page)?;
    let offset = number(offset)?;
    let value = byte(value)?;
    if is_place(page, offset) {
        Ok(Command::Poke(Gpn(page as u32), offset as u16, value))
    } else {
        Err(ScriptSort::Range)
    }
}

#[tactic(auto, unfolding(bn_model::specs::Scripts::peek_of))]
fn peek_of(rest: &[u8]) -> Result<Command, ScriptSort>
    ensures exact { result ≡ flat.peek_of (pieces_after 32 rest.now) }
    ensures counts { IfOk result (λ command. 1 ≤ count_of command) }
{
    let Some((page, offset)) = two_fields(rest) else {
        return Err(ScriptSort::Fields);
    };
    let page = number(page)?;
    let offset = number(offset)?;
    if is_place(page, offset) {
        Ok(Command::Peek(Gpn(page as u32), offset as u16))
    } else {
        Err(ScriptSort::Range)
    }
}

/// A count of turns is from 1 to 1,000,000,000.
fn is_count(count: u64) -> bool
    ensures { result ≡ flat.is_count count }
{
    1 <= count && count <= 1_000_000_000
}

/// A page is below 2^32, and an offset below 4,096.
fn is_place(page: u64, offset: u64) -> bool
    ensures { result ≡ flat.is_place page offset }
{
    page < 0x1_0000_0000 && offset < 4096
}
