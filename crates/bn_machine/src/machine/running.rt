//! Runs.
ghost use Rattle.std.specs.Prelude.{◌≡◌, ◌+◌, ◌-◌, ◌^◌, ◌<◌, [], false, length, IfOk, OnErr, OnOk};
ghost use Rattle.bn_edge.specs.Counts.{CountsRefusals};
ghost use Rattle.bn_edge.specs.Written.{Writes, WritesFront};
ghost use Rattle.bn_model.specs.BlankingLaws.{HidesSecrets, TellsNoneOf};
ghost use Rattle.bn_model.specs.Running.{blind_at, course, state_before};
ghost use Rattle.bn_model.specs.Scripts.{IsOrderly, after_events, first_events};
ghost use Rattle.bn_model.specs.Spelling.{text_of};
ghost use Rattle.bn_model.specs.Stepping as flat;
ghost use Rattle.bn_machine.specs.Passing.{Makes, event_number};
ghost use Rattle.bn_machine.specs.Telling.{FinishesRun, IsLeftOf, StopsRun};

use crate::LineBuf;
use crate::machine::Machine;
use bn_edge::{Sink, SinkFailed, write_all};
use bn_script::Script;
use bn_types::{Ending, Event, ModId, Steps};
use std::sync::ledger::Ledger;

impl Machine {
    /// Makes the events of a script, at most `limit`, and writes their lines. Where `blind` is a
    /// module and the number of an event, the module's secrets are zeroed just before this event,
    /// where there is one. The script is for a machine of so many harts. No pages can be moved to
    /// other frames yet, so `moves` is 0.
    ///
    /// Whatever the guest does, a module's secrets make no difference to what is written until the
    /// module runs, nor to the lines of the event in which it starts.
    ///
    /// `SinkFailed` comes exactly where writing failed; the machine then stands after the event
    /// whose lines couldn't all be written.
    pub fn run<O: Sink, L: Ledger>(
        &mut self,
        script: &mut Script,
        limit: u64,
        blind: Option<(ModId, u64)>,
        moves: u64,
        out: &mut O,
        steps: &mut Steps<L>,
    ) -> Result<Ending, SinkFailed>
        requires on { self.old.state.off ≡ false }
        requires harts { script.old.harts ≡ length self.old.state.harts }
        requires clock { self.old.state.clock + limit < 2 ^ 64 }
        requires still { moves ≡ 0 }
        ensures finished { IfOk result (λ ending. FinishesRun
            (course (blind_at blind) self.old.state (first_events limit script.old))
            ending self.new.state (O.account out.old) (O.account out.new)) }
        ensures stopped { OnErr result (StopsRun (blind_at blind) self.old.state self.new.state
            (first_events limit script.old) (O.account out.old) (O.account out.new)) }
        ensures front { OnErr result (WritesFront (O.account out.old) (O.account out.new)
            (text_of (course (blind_at blind) self.old.state
            (first_events limit script.old)).told)) }
        ensures failed { CountsRefusals result
            (O.account out.old).faults (O.account out.new).faults }
        ensures drawn { IsLeftOf limit script.old script.new }
        ensures hidden { HidesSecrets (blind_at blind) self.old.state
            (first_events limit script.old) }
        ensures alike { TellsNoneOf (blind_at blind) self.old.state
            (first_events limit script.old) }
    {
        // For the prover: the script's events fit, and what is written shows no secrets.
        script.facts();
        self.hide_secrets(script, blind, limit);
        let mut lines = LineBuf::new();
        let mut made = 0;
        while made < limit {
            made += self.make_events(script, limit - made, blind, &mut lines, steps);
            write_lines(out, &mut lines)?;
            if self.is_off() {
                return Ok(Ending::Shutdown);
            }
        }
        Ok(Ending::Limit)
    }

    /// A run of so many events shows nothing of a module's secrets while the module rests. It does
    /// nothing.
    fn hide_secrets(&self, script: &Script, blind: Option<(ModId, u64)>, limit: u64)
        requires orderly { IsOrderly script.now }
        requires harts { script.now.harts ≡ length self.now.state.harts }
        ensures hidden { HidesSecrets (blind_at blind) self.now.state
            (first_events limit script.now) }
        ensures alike { TellsNoneOf (blind_at blind) self.now.state
            (first_events limit script.now) }
    {
        // For the prover: reading a field tells what the invariant says of it.
        let _engine = &self.engine;
    }

    /// Makes the next events of a script, where there are no lines yet, until one has lines or
    /// shuts the machine down: at least one, and at most so many. It tells how many.
    #[inline(always)]
    fn make_events<L: Ledger>(
        &mut self,
        script: &mut Script,
        most: u64,
        blind: Option<(ModId, u64)>,
        lines: &mut LineBuf,
        steps: &mut Steps<L>,
    ) -> u64
        requires on { self.old.state.off ≡ false }
        requires harts { script.old.harts ≡ length self.old.state.harts }
        requires some { 0 < most }
        requires clock { self.old.state.clock + most < 2 ^ 64 }
        requires empty { lines.old ≡ [] }
        ensures made { Makes (blind_at blind) (event_number script.old) most result
            self.old.state self.new.state lines.new }
        ensures rest { script.new ≡ after_events result script.old }
    {
        // For the prover: the script's events fit.
        script.facts();
        if blind.is_none() && script.is_lone() {
            return self.make_turns(0, most, lines, steps);
        }
        let event = script.next_event();
        self.make_event(event, blind, lines, steps);
        1
    }

    /// Makes an event, before which the secrets of the module are zeroed where it is the event of
    /// this number. There are no lines yet.
    #[inline(always)]
    fn make_event<L: Ledger>(
        &mut self,
        event: Event,
        blind: Option<(ModId, u64)>,
        lines: &mut LineBuf,
        steps: &mut Steps<L>,
    )
        requires on { self.old.state.off ≡ false }
        requires fits { flat.Fits self.old.state event }
        requires clock { self.old.state.clock < 2 ^ 64 - 1 }
        requires empty { lines.old ≡ [] }
        ensures stepped { self.new.state
            ≡ flat.step (state_before (blind_at blind) self.old.state) event }
        ensures told { lines.new
            ≡ text_of (flat.lines (state_before (blind_at blind) self.old.state) event) }
    {
        self.blank_before_event(blind, steps);
        self.make_one(event, lines, steps);
    }
}

/// Writes the lines, where there are some, and drops them.
fn write_lines<O: Sink>(out: &mut O, lines: &mut LineBuf) -> Result<(), SinkFailed>
    ensures ok { OnOk result (Writes (O.account out.old) (O.account out.new) lines.old) }
    ensures err { OnErr result (WritesFront (O.account out.old) (O.account out.new) lines.old) }
    ensures failed { CountsRefusals result (O.account out.old).faults (O.account out.new).faults }
    ensures empty { OnOk result (lines.new ≡ []) }
{
    if !lines.bytes().is_empty() {
        write_all(out, lines.bytes())?;
        lines.clear();
    }
    Ok(())
}
