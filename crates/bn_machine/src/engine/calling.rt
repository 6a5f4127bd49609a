//! ECALL: traps from mode U, calls to the hypervisor from mode S.
ghost use Rattle.std.specs.Prelude.{◌≡◌, ◌-◌, ◌^◌, ◌<◌, ◌≤◌, [], length, map, take};
ghost use Rattle.bn_model.specs.Deciding.{decision_of_ask, decision_of_ecall, is_started};
ghost use Rattle.bn_model.specs.Hypervisor.{ask_of};
ghost use Rattle.bn_model.specs.Soundness.{IsSound};
ghost use Rattle.bn_model.specs.State.{hart_at, hart_in};
ghost use Rattle.bn_machine.specs.Making.{IsMade};
ghost use Rattle.bn_machine.specs.Standing.{MayBeAsked};

use crate::LineBuf;
use crate::engine::Engine;
use crate::hart::Hart;
use bn_sbi::ask;
use bn_types::{Cause, Mode, SbiAsk};

const USER_CALL: Cause = Cause(8);

impl Engine {
    /// ECALL of hart h, which runs the untrusted world.
    #[inline(never)]
    pub(super) fn call_environment(&mut self, h: u8, lines: &mut LineBuf)
        requires sound { IsSound self.old.state }
        requires hart { h < length self.old.state.harts }
        requires clock { self.old.state.clock < 2 ^ 64 - 1 }
        requires empty { lines.old ≡ [] }
        ensures made { let s = self.old.state in let hart = hart_at s h in
            IsMade self.old.state self.new.state lines.new h
            (decision_of_ecall s hart hart.mode) }
        ensures cache { self.new.cache ≡ self.old.cache }
    {
        match self.harts[h as usize].mode() {
            Mode::U => self.trap(h, USER_CALL, 0, lines),
            Mode::S => self.call_hypervisor(h, lines),
        }
    }

    fn call_hypervisor(&mut self, h: u8, lines: &mut LineBuf)
        requires sound { IsSound self.old.state }
        requires hart { h < length self.old.state.harts }
        requires clock { self.old.state.clock < 2 ^ 64 - 1 }
        requires empty { lines.old ≡ [] }
        ensures made { let s = self.old.state in
            let asked = ask_of (hart_at s h).regs (length s.harts) (map is_started s.harts) in
            IsMade self.old.state self.new.state lines.new h (decision_of_ask asked s.keys) }
        ensures cache { self.new.cache ≡ self.old.cache }
    {
        match self.ask(h) {
            SbiAsk::SetTimer(timer) => self.set_timer(h, timer),
            SbiAsk::Put(byte) => self.put(h, byte, lines),
            SbiAsk::Get => self.take_key(h),
            SbiAsk::Shutdown => self.shut_down(h),
            SbiAsk::Start { hart, pc, opaque } => self.start(h, hart, pc, opaque, lines),
            SbiAsk::Ipi { harts } => self.send(h, harts),
            SbiAsk::Refuse { a0 } => self.answer(h, a0),
        }
    }

    /// What hart h asks the hypervisor for. A hart that is to be started runs no module.
    #[tactic(auto, using(crate::proofs::Harts::asked_starts))]
    fn ask(&self, h: u8) -> SbiAsk
        requires sound { IsSound self.now.state }
        requires hart { h < length self.now.state.harts }
        ensures asked { let s = self.now.state in
            result ≡ ask_of (hart_at s h).regs (length s.harts) (map is_started s.harts) }
        ensures starts { MayBeAsked self.now.state result }
    {
        let started = which_are_started(&self.harts);
        ask(
            self.harts[h as usize].regs(),
            self.harts.len() as u8,
            &started,
        )
    }
}

/// Which of the harts, at most four, are started.
#[tactic(auto, using(crate::proofs::Harts::started_are))]
fn which_are_started(harts: &[Hart]) -> [bool; 4]
    requires { length harts.now ≤ 4 }
    ensures { take (length harts.now) result ≡ map is_started harts.now }
{
    [
        is_started_at(harts, 0),
        is_started_at(harts, 1),
        is_started_at(harts, 2),
        is_started_at(harts, 3),
    ]
}

fn is_started_at(harts: &[Hart], h: usize) -> bool
    ensures { result ≡ is_started (hart_in harts.now h) }
{
    match harts.get(h) {
        Some(hart) => hart.is_started(),
        None => false,
    }
}
