//! Evictions of modules (this project's own rules).
ghost use Rattle.std.specs.Prelude.{◌≡◌, ◌-◌, ◌^◌, ◌<◌, ℕ, [], IfOk, IsOk, OnErr, OnOk, length};
ghost use Rattle.bn_types.specs.declared.reg.Reg.{Reg};
ghost use Rattle.bn_model.specs.Deciding.{decision_of_evict};
ghost use Rattle.bn_model.specs.Evicting.{evicted_rows};
ghost use Rattle.bn_model.specs.Legality as flat_legality;
ghost use Rattle.bn_model.specs.Rows.{row_of};
ghost use Rattle.bn_model.specs.Soundness.{IsSound};
ghost use Rattle.bn_model.specs.State.{hart_at};
ghost use Rattle.bn_model.specs.Stepping.{after_evict};
ghost use Rattle.bn_machine.specs.Making.{IsMade, decision_by_refusal};

use crate::LineBuf;
use crate::engine::Engine;
use crate::engine::turning::ILLEGAL_INSTRUCTION;
use bn_table::EvictRefused;
use bn_types::{ModId, Mode, Reg, Request, Steps};
use std::sync::ledger::Ledger;

impl Engine {
    /// The eviction of a module, which mode U may not ask for.
    #[inline(never)]
    pub(super) fn evict_or_trap<L: Ledger>(
        &mut self,
        h: u8,
        rd: Reg,
        id: u64,
        lines: &mut LineBuf,
        steps: &mut Steps<L>,
    )
        requires sound { IsSound self.old.state }
        requires hart { h < length self.old.state.harts }
        requires clock { self.old.state.clock < 2 ^ 64 - 1 }
        requires register { rd.0 < 32 }
        requires empty { lines.old ≡ [] }
        ensures made { let s = self.old.state in
            IsMade s self.new.state lines.new h
            (flat_legality.supervisor_only (hart_at s h).mode
            (decision_of_evict rd id (length (evicted_rows s.rows id)) (row_of s.rows id))) }
    {
        match self.harts[h as usize].mode() {
            Mode::S => self.evict(h, rd, id, lines, steps),
            Mode::U => self.trap(h, ILLEGAL_INSTRUCTION, 0, lines),
        }
    }

    fn evict<L: Ledger>(
        &mut self,
        h: u8,
        rd: Reg,
        id: u64,
        lines: &mut LineBuf,
        steps: &mut Steps<L>,
    )
        requires sound { IsSound self.old.state }
        requires hart { h < length self.old.state.harts }
        requires clock { self.old.state.clock < 2 ^ 64 - 1 }
        requires register { rd.0 < 32 }
        requires empty { lines.old ≡ [] }
        ensures made { let s = self.old.state in
            IsMade s self.new.state lines.new h
            (decision_of_evict rd id (length (evicted_rows s.rows id)) (row_of s.rows id)) }
    {
        match self.remove(id, steps) {
            Ok(count) => self.finish_eviction(h, rd, ModId(id as u16), count, lines),
            Err(refusal) => self.refuse(h, rd, Request::Evict, refusal.code(), lines),
        }
    }

    /// Takes out the modules that go with one of any id, and zeroes their pages. It tells how many
    /// they are.
    #[tactic(auto, using(bn_switch::proofs::IdBounds::row_of_large))]
    fn remove<L: Ledger>(&mut self, id: u64, steps: &mut Steps<L>) -> Result<u8, EvictRefused>
        requires { IsSound self.old.state }
        ensures decision { (rd : Reg) (count : ℕ) → decision_by_refusal rd id count result
            ≡ decision_of_evict rd id count (row_of self.old.state.rows id) }
        ensures removed { OnOk result (self.new.state ≡ after_evict self.old.state id) }
        ensures count { IfOk result
            (λ count. count ≡ length (evicted_rows self.old.state.rows id)) }
        ensures small { IsOk result → id < 2 ^ 16 }
        ensures same { OnErr result (self.new.state ≡ self.old.state) }
    {
        // For the prover: what holds of every table.
        self.table.facts();
        if id < 0x10000 {
            self.remove_rows(ModId(id as u16), steps)
        } else {
            Err(EvictRefused::NoModule)
        }
    }

    fn remove_rows<L: Ledger>(
        &mut self,
        id: ModId,
        steps: &mut Steps<L>,
    ) -> Result<u8, EvictRefused>
        requires { IsSound self.old.state }
        ensures decision { (rd : Reg) (count : ℕ) → decision_by_refusal rd id.0 count result
            ≡ decision_of_evict rd id.0 count (row_of self.old.state.rows id.0) }
        ensures removed { OnOk result (self.new.state ≡ after_evict self.old.state id.0) }
        ensures count { IfOk result
            (λ count. count ≡ length (evicted_rows self.old.state.rows id.0)) }
        ensures same { OnErr result (self.new.state ≡ self.old.state) }
    {
        match self.table.evict(id) {
            Ok(gone) => {
                self.unit.release(&gone, steps);
                Ok(gone.len() as u8)
            }
            Err(refusal) => Err(refusal),
        }
    }
}
