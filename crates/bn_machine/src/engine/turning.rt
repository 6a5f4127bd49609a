//! Turns.
ghost use Rattle.std.specs.Prelude.{◌≡◌, ◌-◌, ◌^◌, ◌<◌, [], None, Some, true, IfSome, length};
ghost use Rattle.bn_model.specs.Acting.{act_of};
ghost use Rattle.bn_model.specs.Deciding.{asked_if_started, asked_of, asked_of_fault};
ghost use Rattle.bn_model.specs.Deciding.{asked_of_insn, asked_of_interrupt, asked_of_stopped};
ghost use Rattle.bn_model.specs.Deciding.{decision_of_asked};
ghost use Rattle.bn_model.specs.Decoding.{insn_of};
ghost use Rattle.bn_model.specs.InsnRanges.{IsActInRange, IsInRange};
ghost use Rattle.bn_model.specs.Interrupts.{external_pending, interrupt_of, wires_of};
ghost use Rattle.bn_model.specs.Soundness.{IsSound};
ghost use Rattle.bn_model.specs.State.{hart_at, untrusted};
ghost use Rattle.bn_model.specs.Switching.{stopped_at};
ghost use Rattle.bn_model.specs.Walking.{vpn_of};
ghost use Rattle.bn_machine.specs.Costs.{CountsAsked, CountsTurn};
ghost use Rattle.bn_machine.specs.Keys.{HoldsKey, KeepsAsked, KeepsTurn};
ghost use Rattle.bn_machine.specs.Making.{IsMade, MakesAsked, MakesTurn};
ghost use Rattle.bn_machine.specs.Standing.{MayResume};

use crate::LineBuf;
use crate::engine::Engine;
use bn_types::{Act, Cause, Fault, Gpn, Insn, Kind, ModId, Steps, Vpn};
use rv_csr::Wires;
use rv_exec::act;
use rv_insn::decode;
use std::sync::ledger::Ledger;

/// An illegal instruction.
pub(super) const ILLEGAL_INSTRUCTION: Cause = Cause(2);

impl Engine {
    /// A turn of hart h, which leaves its lines.
    #[inline(always)]
    #[tactic(auto, unfolding(bn_model::specs::Deciding::decision_of, crate::specs::Costs::CountsTurn, crate::specs::Keys::KeepsTurn))]
    pub(crate) fn take_turn<L: Ledger>(&mut self, h: u8, lines: &mut LineBuf, steps: &mut Steps<L>)
        requires sound { IsSound self.old.state }
        requires hart { h < length self.old.state.harts }
        requires clock { self.old.state.clock < 2 ^ 64 - 1 }
        requires empty { lines.old ≡ [] }
        ensures made { MakesTurn self.old.state self.new.state lines.new h }
        ensures sound { IsSound self.new.state }
        ensures few { let s = self.old.state in
            CountsTurn s h (hart_at s h) 30 steps.old steps.new }
        ensures keys { KeepsTurn self.old.state h self.new.cache }
    {
        self.make_turn(h, lines, steps)
    }

    #[inline(always)]
    fn make_turn<L: Ledger>(&mut self, h: u8, lines: &mut LineBuf, steps: &mut Steps<L>)
        requires sound { IsSound self.old.state }
        requires hart { h < length self.old.state.harts }
        requires clock { self.old.state.clock < 2 ^ 64 - 1 }
        requires empty { lines.old ≡ [] }
        ensures made { let s = self.old.state in
            MakesAsked self.old.state self.new.state lines.new h
            (asked_of s h (hart_at s h)) }
        ensures few { let s = self.old.state in
            CountsAsked (asked_of s h (hart_at s h)) 30 steps.old steps.new }
        ensures keys { let s = self.old.state in
            KeepsAsked s h (asked_of s h (hart_at s h)) self.new.cache }
    {
        if self.harts[h as usize].is_started() {
            self.interrupt_or_go_on(h, lines, steps)
        } else {
            self.rest();
        }
    }

    fn interrupt_or_go_on<L: Ledger>(&mut self, h: u8, lines: &mut LineBuf, steps: &mut Steps<L>)
        requires sound { IsSound self.old.state }
        requires hart { h < length self.old.state.harts }
        requires clock { self.old.state.clock < 2 ^ 64 - 1 }
        requires empty { lines.old ≡ [] }
        ensures made { let s = self.old.state in
            MakesAsked self.old.state self.new.state lines.new h
            (asked_if_started true s h (hart_at s h)) }
        ensures few { let s = self.old.state in
            CountsAsked (asked_if_started true s h (hart_at s h)) 30 steps.old steps.new }
        ensures keys { let s = self.old.state in
            KeepsAsked s h (asked_if_started true s h (hart_at s h)) self.new.cache }
    {
        match self.interrupt(h) {
            Some(cause) => self.trap(h, cause, 0, lines),
            None => self.fetch_and_execute(h, lines, steps),
        }
    }

    /// The interrupt that hart h takes before its next instruction.
    fn interrupt(&self, h: u8) -> Option<Cause>
        requires { h < length self.now.state.harts }
        ensures { result ≡ interrupt_of self.now.state h (hart_at self.now.state h) }
    {
        let hart = &self.harts[h as usize];
        hart.csrs().pending(hart.mode(), &self.wires(h))
    }

    /// The interrupts that come to hart h from outside.
    pub(super) fn wires(&self, h: u8) -> Wires
        requires { h < length self.now.state.harts }
        ensures { result ≡ wires_of self.now.state h (hart_at self.now.state h) }
    {
        Wires {
            timer: self.harts[h as usize].timer() <= self.clock,
            external: self.has_key_for(h),
        }
    }

    /// Whether keys wait, which come to hart 0 alone.
    fn has_key_for(&self, h: u8) -> bool
        ensures { result ≡ external_pending self.now.state h }
    {
        h == 0 && !self.keys.is_empty()
    }

    fn fetch_and_execute<L: Ledger>(&mut self, h: u8, lines: &mut LineBuf, steps: &mut Steps<L>)
        requires sound { IsSound self.old.state }
        requires hart { h < length self.old.state.harts }
        requires clock { self.old.state.clock < 2 ^ 64 - 1 }
        requires empty { lines.old ≡ [] }
        ensures made { let s = self.old.state in
            MakesAsked self.old.state self.new.state lines.new h
            (asked_of_interrupt s h (hart_at s h) None) }
        ensures few { let s = self.old.state in
            CountsAsked (asked_of_interrupt s h (hart_at s h) None) 30 steps.old steps.new }
        ensures keys { let s = self.old.state in
            KeepsAsked s h (asked_of_interrupt s h (hart_at s h) None) self.new.cache }
    {
        match self.fetch(h, steps) {
            Ok(word) => self.execute(h, word, lines, steps),
            Err(fault) => self.fail_fetch(h, &fault, lines),
        }
    }

    /// Takes the trap of a fetch that failed, but where a stopped module goes on.
    #[inline(always)]
    fn fail_fetch(&mut self, h: u8, fault: &Fault, lines: &mut LineBuf)
        requires sound { IsSound self.old.state }
        requires hart { h < length self.old.state.harts }
        requires clock { self.old.state.clock < 2 ^ 64 - 1 }
        requires empty { lines.old ≡ [] }
        ensures made { let s = self.old.state in let hart = hart_at s h in
            IsMade self.old.state self.new.state lines.new h
            (decision_of_asked s h hart (asked_of_fault hart.current.0 s.rows hart fault.now)) }
    {
        match self.stopped_module(h, fault) {
            Some(id) => self.resume(h, id, lines),
            None => self.fail(h, Kind::Fetch, fault, lines),
        }
    }

    /// The stopped module that goes on where hart h's fetch was denied.
    #[inline(always)]
    fn stopped_module(&self, h: u8, fault: &Fault) -> Option<ModId>
        requires { h < length self.now.state.harts }
        ensures asked { let s = self.now.state in let hart = hart_at s h in
            asked_of_stopped fault.now result
            ≡ asked_of_fault hart.current.0 s.rows hart fault.now }
        ensures stopped { IfSome result (MayResume self.now.state h) }
    {
        let hart = &self.harts[h as usize];
        if hart.is_inside() {
            return None;
        }
        // For the prover: what holds of every table.
        self.table.facts();
        match fault.denied {
            Some(page) => self.stopped_at(h, page),
            None => None,
        }
    }

    /// The module that was stopped where hart h stands, on this page.
    #[inline(never)]
    #[tactic(auto, using(crate::proofs::Switches::stopped_found))]
    fn stopped_at(&self, h: u8, page: Gpn) -> Option<ModId>
        requires hart { h < length self.now.state.harts }
        requires outside { (hart_at self.now.state h).current ≡ untrusted }
        ensures found { let s = self.now.state in let hart = hart_at s h in result
            ≡ stopped_at s.rows page.0 (vpn_of hart.pc) hart.pc hart.mode }
        ensures stopped { IfSome result (MayResume self.now.state h) }
    {
        // For the prover: what holds of every table.
        self.table.facts();
        let hart = &self.harts[h as usize];
        let pc = hart.pc();
        self.table.stopped_at(page, Vpn(pc / 4096), pc, hart.mode())
    }

    fn execute<L: Ledger>(&mut self, h: u8, word: u32, lines: &mut LineBuf, steps: &mut Steps<L>)
        requires sound { IsSound self.old.state }
        requires hart { h < length self.old.state.harts }
        requires clock { self.old.state.clock < 2 ^ 64 - 1 }
        requires empty { lines.old ≡ [] }
        requires held { let s = self.old.state in
            HoldsKey s h (hart_at s h).pc self.old.cache }
        ensures made { let hart = hart_at self.old.state h in
            MakesAsked self.old.state self.new.state lines.new h
            (asked_of_insn hart (insn_of word)) }
        ensures few { let hart = hart_at self.old.state h in
            CountsAsked (asked_of_insn hart (insn_of word)) 15 steps.old steps.new }
        ensures keys { let s = self.old.state in
            KeepsAsked s h (asked_of_insn (hart_at s h) (insn_of word)) self.new.cache }
    {
        match decode(word) {
            Some(insn) => self.execute_insn(h, &insn, lines, steps),
            None => self.trap(h, ILLEGAL_INSTRUCTION, 0, lines),
        }
    }

    fn execute_insn<L: Ledger>(
        &mut self,
        h: u8,
        insn: &Insn,
        lines: &mut LineBuf,
        steps: &mut Steps<L>,
    )
        requires sound { IsSound self.old.state }
        requires hart { h < length self.old.state.harts }
        requires clock { self.old.state.clock < 2 ^ 64 - 1 }
        requires range { IsInRange insn.now }
        requires empty { lines.old ≡ [] }
        requires held { let s = self.old.state in
            HoldsKey s h (hart_at s h).pc self.old.cache }
        ensures made { let hart = hart_at self.old.state h in
            MakesAsked self.old.state self.new.state lines.new h
            (asked_of_insn hart (Some insn.now)) }
        ensures few { let hart = hart_at self.old.state h in
            CountsAsked (asked_of_insn hart (Some insn.now)) 15 steps.old steps.new }
        ensures keys { let s = self.old.state in
            KeepsAsked s h (asked_of_insn (hart_at s h) (Some insn.now)) self.new.cache }
    {
        let asked = self.asked(h, insn);
        self.carry_out(h, asked, lines, steps)
    }

    /// What an instruction asks hart h for.
    fn asked(&self, h: u8, insn: &Insn) -> Act
        requires hart { h < length self.now.state.harts }
        requires range { IsInRange insn.now }
        ensures exact { let hart = hart_at self.now.state h in result ≡ act_of insn.now
            hart.regs hart.pc }
        ensures range { IsActInRange result }
    {
        let hart = &self.harts[h as usize];
        act(insn, hart.regs(), hart.pc())
    }
}
