ghost use Rattle.std.specs.Prelude.{◌≡◌, ◌+◌, ◌%◌, ◌<◌, ◌≤◌, slice_get};
ghost use Rattle.bn_model.specs.Scripts as flat;
ghost use Rattle.bn_script.specs.Drawing as drawing;
ghost use Rattle.bn_script.specs.Lines as lines;

use bn_model::Command;
use bn_types::Event;
use std::marker::Model;

/// A script, as far as its events aren't drawn. It takes memory for its commands alone, however
/// many events they order.
#[derive(Debug, Drop)]
pub struct Script {
    commands: Vec<Command>,
    harts: u8,
    /// The next command.
    at: usize,
    /// How many of its events are drawn; past the last command, the hart whose turn comes.
    done: u32,
}

impl Model for Script {
    ghost use Rattle.bn_model.specs.Scripts.{Script};
    ghost use Rattle.bn_script.specs.Drawing.{CanBeDrawn, script_at};

    ghost Value = { Script };

    ghost view = { λ s. script_at s.harts s.commands.items s.at s.done };

    ghost invariant = { λ s. CanBeDrawn s.harts s.commands.items s.at s.done };
}

impl Script {
    /// The script of these commands, on a machine of so many harts.
    pub(crate) fn of(commands: Vec<Command>, harts: u8) -> Script
        requires some { 1 ≤ harts }
        requires few { harts ≤ 4 }
        requires orders { drawing.OrdersEvents harts commands.items }
        requires orderly { flat.IsOrderly (flat.script_of harts commands.items) }
        ensures { result ≡ flat.script_of harts commands.items }
    {
        Script {
            commands,
            harts,
            at: 0,
            done: 0,
        }
    }

    /// Each event fits a machine of the script's harts. It does nothing.
    pub fn facts(&self)
        ensures { flat.IsOrderly self.now }
    {
        // For the prover: reading a field tells what the invariant says of it.
        let _harts = self.harts;
    }

    /// Whether the turns of the machine's only hart are all that is left.
    #[inline(always)]
    pub fn is_lone(&self) -> bool
        ensures { result ≡ drawing.is_lone self.now }
    {
        match command_at(self.commands.as_slice(), self.at) {
            Some(_) => false,
            None => self.harts == 1,
        }
    }

    /// Draws the next event. It never ends: after the events of the commands the harts take turns,
    /// from hart 0 on.
    #[tactic(auto, using(crate::proofs::DrawingLemmas::drawn_on))]
    pub fn next_event(&mut self) -> Event
        ensures event { result ≡ flat.next_event self.old }
        ensures rest { self.new ≡ flat.after_event self.old }
    {
        let drawn = draw(self.commands.as_slice(), self.harts, self.at, self.done);
        self.at = drawn.at;
        self.done = drawn.done;
        drawn.event
    }
}

/// An event, and the place after it.
#[derive(Clone, Copy)]
struct Drawn {
    event: Event,
    at: usize,
    done: u32,
}

fn draw(commands: &[Command], harts: u8, at: usize, done: u32) -> Drawn
    requires { drawing.GoesOn harts commands.now at done }
    ensures event { result.event ≡ flat.next_event (drawing.script_at harts commands.now at done) }
    ensures rest { drawing.script_at harts commands.now result.at result.done
        ≡ flat.after_event (drawing.script_at harts commands.now at done) }
    ensures on { drawing.GoesOn harts commands.now result.at result.done }
{
    match command_at(commands, at) {
        Some(command) => {
            let event = event_of(command, done, harts);
            let count = count_of(command);
            let more = done + 1 < count;
            if more {
                Drawn {
                    event,
                    at,
                    done: done + 1,
                }
            } else {
                Drawn {
                    event,
                    at: at + 1,
                    done: 0,
                }
            }
        }
        None => Drawn {
            event: Event::Turn(done as u8),
            at,
            done: hart_after(done, u32::from(harts)),
        },
    }
}

/// The hart whose turn comes after this one's.
#[tactic(auto, using(crate::proofs::DrawingLemmas::hart_more, crate::proofs::DrawingLemmas::first_hart))]
fn hart_after(hart: u32, harts: u32) -> u32
    requires { hart < harts }
    ensures { result ≡ (hart + 1) % harts }
{
    if hart + 1 < harts { hart + 1 } else { 0 }
}

#[tactic(auto, using(crate::proofs::DrawingLemmas::got, crate::proofs::DrawingLemmas::not_got))]
fn command_at(commands: &[Command], at: usize) -> Option<Command>
    ensures { result ≡ slice_get commands.now at }
{
    match commands.get(at) {
        Some(command) => Some(*command),
        None => None,
    }
}

/// How many events a command orders.
fn count_of(command: Command) -> u32
    ensures { result ≡ lines.count_of command }
{
    match command {
        Command::Turn(_, count) => count,
        Command::Go(count) => count,
        Command::Key(_) => 1,
        Command::Poke(_, _, _) => 1,
        Command::Peek(_, _) => 1,
    }
}

/// The event of a command that comes after so many of it.
fn event_of(command: Command, done: u32, harts: u8) -> Event
    requires { 1 ≤ harts }
    ensures { result ≡ drawing.event_of harts command done }
{
    match command {
        Command::Turn(hart, _) => Event::Turn(hart),
        Command::Go(_) => Event::Turn((done % u32::from(harts)) as u8),
        Command::Key(byte) => Event::Key(byte),
        Command::Poke(page, offset, byte) => Event::Poke(page, offset, byte),
        Command::Peek(page, offset) => Event::Peek(page, offset),
    }
}
