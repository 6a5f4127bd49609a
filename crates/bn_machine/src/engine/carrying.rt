//! What instructions ask for, carried out or trapped.
ghost use Rattle.std.specs.Prelude.{◌≡◌, ◌+◌, ◌-◌, ◌^◌, ◌<◌, ◌≤◌, false, [], length};
ghost use Rattle.bn_types.specs.Numbers.{bytes_of};
ghost use Rattle.bn_model.specs.Accessing.{access, answer_of_load};
ghost use Rattle.bn_model.specs.CsrFile.{csr_done};
ghost use Rattle.bn_model.specs.Deciding.{counters_of, decision_of_csr, decision_of_fault};
ghost use Rattle.bn_model.specs.Deciding.{decision_of_load, decision_of_store};
ghost use Rattle.bn_model.specs.Decision as turn;
ghost use Rattle.bn_model.specs.InsnRanges.{IsActInRange};
ghost use Rattle.bn_model.specs.Interrupts.{wires_of};
ghost use Rattle.bn_model.specs.Legality as flat_legality;
ghost use Rattle.bn_model.specs.Soundness.{IsSound};
ghost use Rattle.bn_model.specs.State.{asker, hart_at, memory};
ghost use Rattle.bn_machine.specs.Acts.{IsSystem, decision_outside};
ghost use Rattle.bn_machine.specs.Costs.{CountsAct};
ghost use Rattle.bn_machine.specs.Keys.{HoldsKey, KeepsAct, KeepsLoad};
ghost use Rattle.bn_machine.specs.Making.{IsMade, MakesAct};
ghost use Rattle.rv_csr.specs.Outcomes.{DoesCsr};

use crate::LineBuf;
use crate::engine::Engine;
use crate::engine::turning::ILLEGAL_INSTRUCTION;
use bn_types::{Act, Cause, Fault, Kind, Mode, Reg, Steps, Width};
use rv_csr::{CsrAsked, Csrs, Illegal};
use rv_exec::extend;
use std::sync::ledger::Ledger;

const BREAKPOINT: Cause = Cause(3);

impl Engine {
    /// Carries out what hart h's instruction asks for.
    pub(super) fn carry_out<L: Ledger>(
        &mut self,
        h: u8,
        act: Act,
        lines: &mut LineBuf,
        steps: &mut Steps<L>,
    )
        requires sound { IsSound self.old.state }
        requires hart { h < length self.old.state.harts }
        requires clock { self.old.state.clock < 2 ^ 64 - 1 }
        requires range { IsActInRange act }
        requires empty { lines.old ≡ [] }
        requires held { let s = self.old.state in
            HoldsKey s h (hart_at s h).pc self.old.cache }
        ensures made { MakesAct self.old.state self.new.state lines.new h act }
        ensures few { CountsAct act 15 steps.old steps.new }
        ensures keys { KeepsAct self.old.state h act self.new.cache }
    {
        match act {
            Act::Set { rd, value } => self.set(h, rd, value),
            Act::Jump { target, rd, link } => self.jump(h, target, rd, link),
            Act::Next => self.go_on(h),
            Act::LoadAt {
                va,
                width,
                signed,
                rd,
            } => self.load(h, va, width, signed, rd, lines, steps),
            Act::StoreAt { va, width, value } => self.store(h, va, width, value, lines, steps),
            Act::Bastion(secure) => self.carry_out_secure(h, &secure, lines, steps),
            Act::Trap { cause, value } => self.trap(h, cause, value, lines),
            _ => self.carry_out_system(h, act, lines),
        }
    }

    /// An instruction of opcode SYSTEM, which is illegal in a module.
    #[tactic(auto, using(crate::proofs::Inside::system_inside, crate::proofs::Inside::system_outside))]
    fn carry_out_system(&mut self, h: u8, act: Act, lines: &mut LineBuf)
        requires sound { IsSound self.old.state }
        requires hart { h < length self.old.state.harts }
        requires clock { self.old.state.clock < 2 ^ 64 - 1 }
        requires range { IsActInRange act }
        requires system { IsSystem act }
        requires empty { lines.old ≡ [] }
        ensures made { MakesAct self.old.state self.new.state lines.new h act }
        ensures cache { self.new.cache ≡ self.old.cache }
    {
        if self.harts[h as usize].is_inside() {
            self.trap(h, ILLEGAL_INSTRUCTION, 0, lines);
            return;
        }
        self.carry_out_outside(h, act, lines)
    }

    fn carry_out_outside(&mut self, h: u8, act: Act, lines: &mut LineBuf)
        requires sound { IsSound self.old.state }
        requires hart { h < length self.old.state.harts }
        requires clock { self.old.state.clock < 2 ^ 64 - 1 }
        requires range { IsActInRange act }
        requires system { IsSystem act }
        requires empty { lines.old ≡ [] }
        ensures made { let s = self.old.state in IsMade s self.new.state lines.new h
            (decision_outside s h (hart_at s h) act) }
        ensures cache { self.new.cache ≡ self.old.cache }
    {
        match act {
            Act::Csr {
                op,
                number,
                operand,
                reads,
                writes,
                rd,
            } => {
                let asked = CsrAsked {
                    op,
                    number,
                    operand,
                    reads,
                    writes,
                };
                self.access_csr(h, &asked, rd, lines);
            }
            Act::Ecall => self.call_environment(h, lines),
            Act::Ebreak => self.trap(h, BREAKPOINT, 0, lines),
            Act::Sret => self.return_or_trap(h, lines),
            Act::Wfi | Act::SfenceVma => self.go_on_or_trap(h, lines),
            _ => unreachable!(),
        }
    }

    fn load<L: Ledger>(
        &mut self,
        h: u8,
        va: u64,
        width: Width,
        signed: bool,
        rd: Reg,
        lines: &mut LineBuf,
        steps: &mut Steps<L>,
    )
        requires sound { IsSound self.old.state }
        requires hart { h < length self.old.state.harts }
        requires clock { self.old.state.clock < 2 ^ 64 - 1 }
        requires register { rd.0 < 32 }
        requires empty { lines.old ≡ [] }
        ensures made { let s = self.old.state in
            let reached = access (memory s) (asker h (hart_at s h)) Kind.Load va width in
            IsMade s self.new.state lines.new h
            (decision_of_load width signed rd (answer_of_load s.pages width reached)) }
        ensures few { steps.new ≤ steps.old + 15 }
        ensures keys { let s = self.old.state in
            KeepsLoad s h va (access (memory s) (asker h (hart_at s h)) Kind.Load va width)
            self.new.cache }
    {
        match self.load_held(h, va, width) {
            Some(number) => self.set(h, rd, extend(width, signed, number)),
            None => self.load_anyhow(h, va, width, signed, rd, lines, steps),
        }
    }

    /// A load, whatever the hart holds.
    #[cold]
    #[inline(never)]
    fn load_anyhow<L: Ledger>(
        &mut self,
        h: u8,
        va: u64,
        width: Width,
        signed: bool,
        rd: Reg,
        lines: &mut LineBuf,
        steps: &mut Steps<L>,
    )
        requires sound { IsSound self.old.state }
        requires hart { h < length self.old.state.harts }
        requires clock { self.old.state.clock < 2 ^ 64 - 1 }
        requires register { rd.0 < 32 }
        requires empty { lines.old ≡ [] }
        ensures made { let s = self.old.state in
            let reached = access (memory s) (asker h (hart_at s h)) Kind.Load va width in
            IsMade s self.new.state lines.new h
            (decision_of_load width signed rd (answer_of_load s.pages width reached)) }
        ensures few { steps.new ≤ steps.old + 15 }
        ensures keys { let s = self.old.state in
            KeepsLoad s h va (access (memory s) (asker h (hart_at s h)) Kind.Load va width)
            self.new.cache }
    {
        match self.load_number(h, va, width, steps) {
            Ok(number) => self.set(h, rd, extend(width, signed, number)),
            Err(fault) => self.fail(h, Kind::Load, &fault, lines),
        }
    }

    fn store<L: Ledger>(
        &mut self,
        h: u8,
        va: u64,
        width: Width,
        value: u64,
        lines: &mut LineBuf,
        steps: &mut Steps<L>,
    )
        requires sound { IsSound self.old.state }
        requires hart { h < length self.old.state.harts }
        requires clock { self.old.state.clock < 2 ^ 64 - 1 }
        requires empty { lines.old ≡ [] }
        ensures made { let s = self.old.state in
            let reached = access (memory s) (asker h (hart_at s h)) Kind.Store va width in
            IsMade s self.new.state lines.new h (decision_of_store width value reached) }
        ensures few { steps.new ≤ steps.old + 15 }
    {
        if self.store_held(h, va, width, value) {
            self.go_on(h);
        } else {
            self.store_anyhow(h, va, width, value, lines, steps);
        }
    }

    /// A store, whatever the hart holds.
    #[cold]
    #[inline(never)]
    fn store_anyhow<L: Ledger>(
        &mut self,
        h: u8,
        va: u64,
        width: Width,
        value: u64,
        lines: &mut LineBuf,
        steps: &mut Steps<L>,
    )
        requires sound { IsSound self.old.state }
        requires hart { h < length self.old.state.harts }
        requires clock { self.old.state.clock < 2 ^ 64 - 1 }
        requires empty { lines.old ≡ [] }
        ensures made { let s = self.old.state in
            let reached = access (memory s) (asker h (hart_at s h)) Kind.Store va width in
            IsMade s self.new.state lines.new h (decision_of_store width value reached) }
        ensures few { steps.new ≤ steps.old + 15 }
    {
        match self.store_number(h, va, width, value, steps) {
            Ok(()) => self.go_on(h),
            Err(fault) => self.fail(h, Kind::Store, &fault, lines),
        }
    }

    /// Takes the trap of an access of a kind that failed.
    #[inline(always)]
    pub(super) fn fail(&mut self, h: u8, kind: Kind, fault: &Fault, lines: &mut LineBuf)
        requires sound { IsSound self.old.state }
        requires hart { h < length self.old.state.harts }
        requires clock { self.old.state.clock < 2 ^ 64 - 1 }
        requires empty { lines.old ≡ [] }
        ensures made { IsMade self.old.state self.new.state lines.new h
            (decision_of_fault kind fault.now) }
    {
        match fault.denied {
            None => self.trap(h, fault.cause, fault.va, lines),
            Some(_) => self.deny(h, kind, fault.va, lines),
        }
    }

    #[inline(never)]
    fn access_csr(&mut self, h: u8, asked: &CsrAsked, rd: Reg, lines: &mut LineBuf)
        requires sound { IsSound self.old.state }
        requires hart { h < length self.old.state.harts }
        requires clock { self.old.state.clock < 2 ^ 64 - 1 }
        requires register { rd.0 < 32 }
        requires empty { lines.old ≡ [] }
        ensures made { let s = self.old.state in IsMade s self.new.state lines.new h
            (decision_of_csr s h (hart_at s h) asked.now.op asked.now.number asked.now.operand
            asked.now.reads asked.now.writes rd) }
        ensures cache { self.new.cache ≡ self.old.cache }
    {
        let mut csrs = *self.harts[h as usize].csrs();
        match self.operate(h, &mut csrs, asked) {
            Ok(old) => self.set_csrs(h, rd, old, csrs),
            Err(Illegal) => self.trap(h, ILLEGAL_INSTRUCTION, 0, lines),
        }
    }

    /// A CSR instruction of hart h on a copy of its CSRs.
    fn operate(&self, h: u8, csrs: &mut Csrs, asked: &CsrAsked) -> Result<u64, Illegal>
        requires { h < length self.now.state.harts }
        ensures { let s = self.now.state in let hart = hart_at s h in DoesCsr result csrs.old
            csrs.new
            (csr_done csrs.old asked.now.op asked.now.number asked.now.operand asked.now.reads
            asked.now.writes
            hart.mode (wires_of s h hart) (counters_of s hart)) }
    {
        let hart = &self.harts[h as usize];
        csrs.operate(
            asked,
            hart.mode(),
            &self.wires(h),
            self.clock,
            hart.retired(),
        )
    }

    /// SRET, which mode U may not execute.
    #[inline(never)]
    fn return_or_trap(&mut self, h: u8, lines: &mut LineBuf)
        requires sound { IsSound self.old.state }
        requires hart { h < length self.old.state.harts }
        requires clock { self.old.state.clock < 2 ^ 64 - 1 }
        requires empty { lines.old ≡ [] }
        ensures made { let s = self.old.state in IsMade s self.new.state lines.new h
            (flat_legality.supervisor_only (hart_at s h).mode turn.ReturnFromTrap) }
        ensures cache { self.new.cache ≡ self.old.cache }
    {
        match self.harts[h as usize].mode() {
            Mode::S => self.return_from_trap(h),
            Mode::U => self.trap(h, ILLEGAL_INSTRUCTION, 0, lines),
        }
    }

    /// WFI and SFENCE.VMA, which mode U may not execute.
    #[inline(never)]
    fn go_on_or_trap(&mut self, h: u8, lines: &mut LineBuf)
        requires sound { IsSound self.old.state }
        requires hart { h < length self.old.state.harts }
        requires clock { self.old.state.clock < 2 ^ 64 - 1 }
        requires empty { lines.old ≡ [] }
        ensures made { let s = self.old.state in IsMade s self.new.state lines.new h
            (flat_legality.supervisor_only (hart_at s h).mode turn.Next) }
        ensures cache { self.new.cache ≡ self.old.cache }
    {
        match self.harts[h as usize].mode() {
            Mode::S => self.go_on(h),
            Mode::U => self.trap(h, ILLEGAL_INSTRUCTION, 0, lines),
        }
    }
}
