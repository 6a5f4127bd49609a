//! Launches of modules (after Bastion).
ghost use Rattle.std.specs.Prelude.{◌≡◌, ◌-◌, ◌^◌, ◌<◌, [], IfOk, length};
ghost use Rattle.bn_model.specs.Deciding.{decision_of_launch};
ghost use Rattle.bn_model.specs.Launching.{judgement};
ghost use Rattle.bn_model.specs.Legality as flat_legality;
ghost use Rattle.bn_model.specs.Memory.{visible};
ghost use Rattle.bn_model.specs.Rows.{enclaves};
ghost use Rattle.bn_model.specs.Soundness.{IsSound};
ghost use Rattle.bn_model.specs.State.{hart_at, memory};
ghost use Rattle.bn_machine.specs.Making.{IsMade};
ghost use Rattle.bn_machine.specs.Standing.{HasRoomFor};

use crate::LineBuf;
use crate::engine::Engine;
use crate::engine::turning::ILLEGAL_INSTRUCTION;
use bn_launch::{code_of, judge};
use bn_types::{Judged, LaunchRefused, Mode, Reg, Request, Steps};
use std::sync::ledger::Ledger;

impl Engine {
    /// The launch of the segment text at a virtual address, which mode U may not ask for.
    #[inline(never)]
    pub(super) fn launch_or_trap<L: Ledger>(
        &mut self,
        h: u8,
        rd: Reg,
        at: u64,
        lines: &mut LineBuf,
        steps: &mut Steps<L>,
    )
        requires sound { IsSound self.old.state }
        requires hart { h < length self.old.state.harts }
        requires clock { self.old.state.clock < 2 ^ 64 - 1 }
        requires register { rd.0 < 32 }
        requires empty { lines.old ≡ [] }
        ensures made { let s = self.old.state in let hart = hart_at s h in
            IsMade s self.new.state lines.new h
            (flat_legality.supervisor_only hart.mode
            (decision_of_launch rd
            (judgement (enclaves s.rows) s.next (visible (memory s)) hart.csrs.satp at))) }
    {
        match self.harts[h as usize].mode() {
            Mode::S => self.launch(h, rd, at, lines, steps),
            Mode::U => self.trap(h, ILLEGAL_INSTRUCTION, 0, lines),
        }
    }

    #[tactic(auto, using(crate::proofs::Launches::refusal_code))]
    fn launch<L: Ledger>(
        &mut self,
        h: u8,
        rd: Reg,
        at: u64,
        lines: &mut LineBuf,
        steps: &mut Steps<L>,
    )
        requires sound { IsSound self.old.state }
        requires hart { h < length self.old.state.harts }
        requires clock { self.old.state.clock < 2 ^ 64 - 1 }
        requires register { rd.0 < 32 }
        requires empty { lines.old ≡ [] }
        ensures made { let s = self.old.state in
            IsMade s self.new.state lines.new h
            (decision_of_launch rd
            (judgement (enclaves s.rows) s.next (visible (memory s))
            (hart_at s h).csrs.satp at)) }
    {
        match self.judge(h, at, steps) {
            Ok(judged) => self.launch_module(h, rd, judged, lines),
            Err(refusal) => self.refuse(h, rd, Request::Launch, code_of(&refusal), lines),
        }
    }

    /// What the launch comes to, by hart h's tables.
    #[tactic(auto, using(crate::proofs::Launches::seen_few, crate::proofs::Launches::seen_whole, crate::proofs::Launches::room_known))]
    fn judge<L: Ledger>(
        &self,
        h: u8,
        at: u64,
        steps: &mut Steps<L>,
    ) -> Result<Judged, LaunchRefused>
        requires sound { IsSound self.now.state }
        requires hart { h < length self.now.state.harts }
        ensures judgement { let s = self.now.state in result
            ≡ judgement (enclaves s.rows) s.next (visible (memory s))
            (hart_at s h).csrs.satp at }
        ensures room { IfOk result (λ judged. HasRoomFor self.now.state judged) }
    {
        // For the prover: what holds of every unit.
        self.unit.facts();
        let satp = self.harts[h as usize].csrs().satp();
        judge(&self.table, &self.unit.view(), satp, at, steps)
    }
}
