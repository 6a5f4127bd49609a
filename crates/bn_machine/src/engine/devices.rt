//! Devices: keys, and bytes of pages that no module owns.
ghost use Rattle.std.specs.Prelude.{◌≡◌, ◌+◌, ◌-◌, ◌^◌, ◌<◌, ◌≤◌, []};
ghost use Rattle.bn_types.specs.declared.event.Event.TheVariants as event;
ghost use Rattle.bn_model.specs.Soundness.{IsSound};
ghost use Rattle.bn_model.specs.Spelling.{text_of};
ghost use Rattle.bn_model.specs.Stepping as flat;
ghost use Rattle.bn_machine.specs.Making.{IsOfDevice, after_write};
ghost use Rattle.bn_unit.specs.Memory.{is_seen};

use crate::LineBuf;
use crate::engine::Engine;
use bn_types::{Event, Gpn, Line, Steps};
use std::sync::ledger::Ledger;

impl Engine {
    /// A device's event, which leaves its line.
    #[inline(always)]
    #[tactic(auto, using(crate::proofs::Turns::sound_event), unfolding(bn_model::specs::Stepping::step, bn_model::specs::Stepping::lines))]
    pub(crate) fn serve_device<L: Ledger>(
        &mut self,
        event: Event,
        lines: &mut LineBuf,
        steps: &mut Steps<L>,
    )
        requires sound { IsSound self.old.state }
        requires device { IsOfDevice event }
        requires fits { flat.Fits self.old.state event }
        requires clock { self.old.state.clock < 2 ^ 64 - 1 }
        requires empty { lines.old ≡ [] }
        ensures stepped { self.new.state ≡ flat.step self.old.state event }
        ensures told { lines.new ≡ text_of (flat.lines self.old.state event) }
        ensures sound { IsSound self.new.state }
        ensures few { steps.new ≤ steps.old + 3 }
    {
        match event {
            Event::Turn(_) => unreachable!(),
            Event::Key(key) => self.press(key, lines),
            Event::Poke(page, offset, byte) => self.poke(page, offset, byte, lines, steps),
            Event::Peek(page, offset) => self.peek(page, offset, lines, steps),
        }
    }

    /// A key waits now, or is lost where 256 wait.
    #[inline(never)]
    #[tactic(auto, unfolding(bn_model::specs::Stepping::step, bn_model::specs::Stepping::lines))]
    fn press(&mut self, key: u8, lines: &mut LineBuf)
        requires clock { self.old.state.clock < 2 ^ 64 - 1 }
        requires empty { lines.old ≡ [] }
        ensures stepped { self.new.state ≡ flat.step self.old.state (event.Key key) }
        ensures told { lines.new ≡ text_of (flat.lines self.old.state (event.Key key)) }
    {
        if self.keys.len() < 256 {
            self.keys.push(key);
            lines.push(&Line::Key {
                n: self.clock,
                b: key,
            });
        } else {
            lines.push(&Line::Nokey {
                n: self.clock,
                b: key,
            });
        }
        self.clock += 1;
    }

    /// A byte is written, where a device reaches the page.
    #[inline(never)]
    #[tactic(auto, unfolding(bn_model::specs::Stepping::step, bn_model::specs::Stepping::lines))]
    fn poke<L: Ledger>(
        &mut self,
        page: Gpn,
        offset: u16,
        byte: u8,
        lines: &mut LineBuf,
        steps: &mut Steps<L>,
    )
        requires offset { offset < 4096 }
        requires clock { self.old.state.clock < 2 ^ 64 - 1 }
        requires empty { lines.old ≡ [] }
        ensures stepped { self.new.state ≡ flat.step self.old.state (event.Poke page offset byte) }
        ensures told { lines.new
            ≡ text_of (flat.lines self.old.state (event.Poke page offset byte)) }
        ensures few { steps.new ≤ steps.old + 3 }
    {
        let n = self.clock;
        let line = if self.write_byte(page, offset, byte, steps) {
            Line::Poke {
                n,
                g: page,
                o: offset,
                b: byte,
            }
        } else {
            Line::Nopoke {
                n,
                g: page,
                o: offset,
            }
        };
        lines.push(&line);
        self.clock += 1;
    }

    /// Writes a byte, where a device reaches the page, and tells whether it does.
    pub(crate) fn write_byte<L: Ledger>(
        &mut self,
        page: Gpn,
        offset: u16,
        byte: u8,
        steps: &mut Steps<L>,
    ) -> bool
        requires { offset < 4096 }
        ensures seen { result ≡ is_seen (flat.seen_page self.old.state page) }
        ensures written { self.new.state ≡ after_write self.old.state page offset byte }
        ensures few { steps.new ≤ steps.old + 3 }
    {
        self.unit.poke(page, offset, byte, steps)
    }

    /// A byte is read, where a device reaches the page.
    #[inline(never)]
    #[tactic(auto, unfolding(bn_model::specs::Stepping::step, bn_model::specs::Stepping::lines))]
    fn peek<L: Ledger>(&mut self, page: Gpn, offset: u16, lines: &mut LineBuf, steps: &mut Steps<L>)
        requires offset { offset < 4096 }
        requires clock { self.old.state.clock < 2 ^ 64 - 1 }
        requires empty { lines.old ≡ [] }
        ensures stepped { self.new.state ≡ flat.step self.old.state (event.Peek page offset) }
        ensures told { lines.new ≡ text_of (flat.lines self.old.state (event.Peek page offset)) }
        ensures few { steps.new ≤ steps.old + 3 }
    {
        let n = self.clock;
        let line = match self.unit.peek(page, offset, steps) {
            Some(byte) => Line::Peek {
                n,
                g: page,
                o: offset,
                b: byte,
            },
            None => Line::Nopeek {
                n,
                g: page,
                o: offset,
            },
        };
        lines.push(&line);
        self.clock += 1;
    }
}
