//! Events.
ghost use Rattle.std.specs.Prelude.{◌≡◌, ◌+◌, ◌-◌, ◌^◌, ◌<◌, [], None, false, length};
ghost use Rattle.bn_types.specs.declared.event.Event.TheVariants as event;
ghost use Rattle.bn_model.specs.Spelling.{text_of};
ghost use Rattle.bn_model.specs.Stepping as flat;
ghost use Rattle.bn_machine.specs.Costs.{CountsEvent};
ghost use Rattle.bn_machine.specs.Keys.{KeepsEvent};
ghost use Rattle.bn_machine.specs.Passing.{Makes, turn_number};
ghost use Rattle.bn_machine.specs.Standing.{IsMachine};

use crate::LineBuf;
use crate::machine::Machine;
use bn_types::{Event, Steps};
use std::sync::ledger::Ledger;

impl Machine {
    /// Makes one event and leaves its lines.
    pub fn turn<L: Ledger>(&mut self, event: Event, lines: &mut LineBuf, steps: &mut Steps<L>)
        requires on { self.old.state.off ≡ false }
        requires fits { flat.Fits self.old.state event }
        requires clock { self.old.state.clock < 2 ^ 64 - 1 }
        ensures stepped { self.new.state ≡ flat.step self.old.state event }
        ensures told { lines.new ≡ text_of (flat.lines self.old.state event) }
        ensures stands { IsMachine self.new }
        ensures few { CountsEvent self.old.state event 30 steps.old steps.new }
        ensures keys { KeepsEvent self.old.state event self.new.cache }
    {
        lines.clear();
        self.make_one(event, lines, steps);
        // For the prover: the parts stand for a state of the flat machine.
        self.engine.stand();
    }

    /// Makes one event, where there are no lines yet.
    #[inline(always)]
    pub(super) fn make_one<L: Ledger>(
        &mut self,
        event: Event,
        lines: &mut LineBuf,
        steps: &mut Steps<L>,
    )
        requires on { self.old.state.off ≡ false }
        requires fits { flat.Fits self.old.state event }
        requires clock { self.old.state.clock < 2 ^ 64 - 1 }
        requires empty { lines.old ≡ [] }
        ensures stepped { self.new.state ≡ flat.step self.old.state event }
        ensures told { lines.new ≡ text_of (flat.lines self.old.state event) }
        ensures few { CountsEvent self.old.state event 30 steps.old steps.new }
        ensures keys { KeepsEvent self.old.state event self.new.cache }
    {
        match event {
            Event::Turn(hart) => {
                self.make_turns(hart, 1, lines, steps);
            }
            _ => self.engine.serve_device(event, lines, steps),
        }
    }

    /// Makes turns of hart h, where there are no lines yet, until one has lines or shuts the
    /// machine down: at least one, and at most so many. It tells how many.
    #[inline(never)]
    pub(super) fn make_turns<L: Ledger>(
        &mut self,
        h: u8,
        most: u64,
        lines: &mut LineBuf,
        steps: &mut Steps<L>,
    ) -> u64
        requires on { self.old.state.off ≡ false }
        requires hart { h < length self.old.state.harts }
        requires some { 0 < most }
        requires clock { self.old.state.clock + most < 2 ^ 64 }
        requires empty { lines.old ≡ [] }
        ensures made { Makes None (turn_number h) most result self.old.state self.new.state
            lines.new }
        ensures few { most ≡ 1
            → CountsEvent self.old.state (event.Turn h) 30 steps.old steps.new }
        ensures keys { most ≡ 1 → KeepsEvent self.old.state (event.Turn h) self.new.cache }
    {
        let mut made = 0;
        'turns: loop {
            self.take_turn(h, lines, steps);
            made += 1;
            if made == most || !lines.bytes().is_empty() || self.is_off() {
                return made;
            }
        }
    }

    /// A turn of hart h.
    #[inline(always)]
    #[tactic(auto, unfolding(bn_model::specs::Stepping::step, bn_model::specs::Stepping::lines))]
    fn take_turn<L: Ledger>(&mut self, h: u8, lines: &mut LineBuf, steps: &mut Steps<L>)
        requires hart { h < length self.old.state.harts }
        requires clock { self.old.state.clock < 2 ^ 64 - 1 }
        requires empty { lines.old ≡ [] }
        ensures stepped { self.new.state ≡ flat.step self.old.state (event.Turn h) }
        ensures told { lines.new ≡ text_of (flat.lines self.old.state (event.Turn h)) }
        ensures few { CountsEvent self.old.state (event.Turn h) 30 steps.old steps.new }
        ensures keys { KeepsEvent self.old.state (event.Turn h) self.new.cache }
    {
        self.engine.take_turn(h, lines, steps);
    }
}
