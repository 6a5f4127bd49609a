//! The script: turns, and a key or a device's byte after each some.
ghost use Rattle.std.specs.Prelude.{◌≡◌, ◌++◌, OnOk, codes, decimal};
ghost use Rattle.bn_model.specs.Generating as flat;
ghost use Rattle.bn_gen.specs.Parts as parts;

use crate::stream::Stream;
use crate::text::{put_byte, put_number};
use bn_model::Command;
use bn_types::Gpn;
use std::alloc::AllocError;

/// How many times turns and a key or a device come.
const ROUNDS: u8 = 64;

/// Appends the lines of the script.
pub fn put_rounds(script: &mut Vec<u8>, stream: &mut Stream) -> Result<(), AllocError>
    ensures lines { OnOk result (script.new.items
        ≡ script.old.items ++ parts.round_lines (parts.rounds 64 stream.old).value) }
    ensures state { OnOk result (stream.new ≡ (parts.rounds 64 stream.old).state) }
{
    for _round in 0..ROUNDS {
        put_round(script, stream)?;
    }
    Ok(())
}

fn put_round(script: &mut Vec<u8>, stream: &mut Stream) -> Result<(), AllocError>
    ensures lines { OnOk result (script.new.items
        ≡ script.old.items ++ parts.command_lines (flat.commands_drawn stream.old).value) }
    ensures state { OnOk result (stream.new ≡ (flat.commands_drawn stream.old).state) }
{
    let turns = 100 + stream.below(2000) as u32;
    let device = draw_device(stream);
    put_line(script, Command::Go(turns))?;
    put_line(script, device)
}

#[tactic(auto, unfolding(crate::specs::Parts::device))]
fn draw_device(stream: &mut Stream) -> Command
    ensures value { result ≡ (parts.device stream.old).value }
    ensures state { stream.new ≡ (parts.device stream.old).state }
{
    let number = stream.below(3);
    device_by(number, stream)
}

fn device_by(number: u64, stream: &mut Stream) -> Command
    ensures value { result ≡ (flat.device_by number stream.old).value }
    ensures state { stream.new ≡ (flat.device_by number stream.old).state }
{
    match number {
        0 => Command::Key(stream.below(256) as u8),
        1 => draw_poke(stream),
        _ => draw_peek(stream),
    }
}

/// A byte written to a page of the modules or behind them.
fn draw_poke(stream: &mut Stream) -> Command
    ensures value { result ≡ (flat.poke_drawn stream.old).value }
    ensures state { stream.new ≡ (flat.poke_drawn stream.old).state }
{
    let page = 16 + stream.below(48) as u32;
    let offset = stream.below(4096) as u16;
    let byte = stream.below(256) as u8;
    Command::Poke(Gpn(page), offset, byte)
}

fn draw_peek(stream: &mut Stream) -> Command
    ensures value { result ≡ (flat.peek_drawn stream.old).value }
    ensures state { stream.new ≡ (flat.peek_drawn stream.old).state }
{
    let page = stream.below(64) as u32;
    let offset = stream.below(4096) as u16;
    Command::Peek(Gpn(page), offset)
}

/// Appends the line of a command.
fn put_line(script: &mut Vec<u8>, command: Command) -> Result<(), AllocError>
    ensures { OnOk result (script.new.items ≡ script.old.items ++ flat.command_line command) }
{
    match command {
        Command::Turn(hart, count) => put_turn(script, hart, count),
        Command::Go(count) => put_go(script, count),
        Command::Key(byte) => put_key(script, byte),
        Command::Poke(page, offset, byte) => put_poke(script, page, offset, byte),
        Command::Peek(page, offset) => put_peek(script, page, offset),
    }
}

fn put_turn(script: &mut Vec<u8>, hart: u8, count: u32) -> Result<(), AllocError>
    ensures { OnOk result (script.new.items
        ≡ script.old.items ++ flat.command_line (Command.Turn hart count)) }
{
    script.extend_from_slice(b"turn ")?;
    put_number(script, u64::from(hart))?;
    script.extend_from_slice(b" ")?;
    put_number(script, u64::from(count))?;
    script.extend_from_slice(b"\n")
}

fn put_go(script: &mut Vec<u8>, count: u32) -> Result<(), AllocError>
    ensures { OnOk result (script.new.items
        ≡ script.old.items ++ flat.command_line (Command.Go count)) }
{
    script.extend_from_slice(b"go ")?;
    put_number(script, u64::from(count))?;
    script.extend_from_slice(b"\n")
}

fn put_key(script: &mut Vec<u8>, byte: u8) -> Result<(), AllocError>
    ensures { OnOk result (script.new.items
        ≡ script.old.items ++ flat.command_line (Command.Key byte)) }
{
    script.extend_from_slice(b"key ")?;
    put_byte(script, byte)?;
    script.extend_from_slice(b"\n")
}

fn put_poke(script: &mut Vec<u8>, page: Gpn, offset: u16, byte: u8) -> Result<(), AllocError>
    ensures { OnOk result (script.new.items
        ≡ script.old.items ++ flat.command_line (Command.Poke page offset byte)) }
{
    script.extend_from_slice(b"poke ")?;
    put_place(script, page, offset)?;
    script.extend_from_slice(b" ")?;
    put_byte(script, byte)?;
    script.extend_from_slice(b"\n")
}

fn put_peek(script: &mut Vec<u8>, page: Gpn, offset: u16) -> Result<(), AllocError>
    ensures { OnOk result (script.new.items
        ≡ script.old.items ++ flat.command_line (Command.Peek page offset)) }
{
    script.extend_from_slice(b"peek ")?;
    put_place(script, page, offset)?;
    script.extend_from_slice(b"\n")
}

/// A page, and an offset in it.
fn put_place(script: &mut Vec<u8>, page: Gpn, offset: u16) -> Result<(), AllocError>
    ensures { OnOk result (script.new.items
        ≡ script.old.items ++ decimal page.0 ++ codes " " ++ decimal offset) }
{
    put_number(script, u64::from(page.0))?;
    script.extend_from_slice(b" ")?;
    put_number(script, u64::from(offset))
}
