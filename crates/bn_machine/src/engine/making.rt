//! What turns come to, made: each of these ends an event.
ghost use Rattle.std.specs.Prelude.{◌≡◌, ◌≢◌, ◌-◌, ◌^◌, ◌<◌, ◌≤◌, ◌%◌, ◌++◌, ◌∷◌, ℕ, [], length};
ghost use Rattle.bn_types.specs.declared.line.Line.TheVariants as line;
ghost use Rattle.bn_model.specs.Deciding.{decision_of_get};
ghost use Rattle.bn_model.specs.Decision as turn;
ghost use Rattle.bn_model.specs.Refusals.{minus, minus_in_64_bits};
ghost use Rattle.bn_model.specs.Each.{each};
ghost use Rattle.bn_model.specs.Soundness.{IsSound};
ghost use Rattle.bn_model.specs.State.{hart_after_trap, hart_at, with_hart};
ghost use Rattle.bn_model.specs.Spelling.{spelling, text_of};
ghost use Rattle.bn_model.specs.Stepping.{after_launch, after_tick, hart_by_mask};
ghost use Rattle.bn_model.specs.Walking as walking;
ghost use Rattle.bn_machine.specs.Making.{IsRefusalCode, state_after, text_after};
ghost use Rattle.bn_machine.specs.Harts.{raised};
ghost use Rattle.bn_machine.specs.Standing.{HasRoomFor, MayStart};

use crate::LineBuf;
use crate::engine::Engine;
use crate::hart::{A0, Hart};
use bn_types::{Cause, Judged, Kind, Line, ModId, Reg, Request, Vpn};
use rv_csr::Csrs;

impl Engine {
    pub(super) fn rest(&mut self)
        requires { self.old.state.clock < 2 ^ 64 - 1 }
        ensures stepped { self.new.state ≡ state_after self.old.state 0 turn.Rest }
        ensures cache { self.new.cache ≡ self.old.cache }
    {
        self.clock += 1;
    }

    pub(super) fn trap(&mut self, hart: u8, cause: Cause, value: u64, lines: &mut LineBuf)
        requires sound { IsSound self.old.state }
        requires hart { hart < length self.old.state.harts }
        requires clock { self.old.state.clock < 2 ^ 64 - 1 }
        requires empty { lines.old ≡ [] }
        ensures stepped { self.new.state ≡ state_after self.old.state hart (turn.Trap cause value) }
        ensures told { lines.new ≡ text_after self.old.state hart (turn.Trap cause value) }
        ensures cache { self.new.cache ≡ self.old.cache }
    {
        self.take_trap(hart, cause, value, lines);
    }

    /// Takes the trap of an access of a kind that the rule of admission denies.
    #[inline(never)]
    pub(super) fn deny(&mut self, hart: u8, kind: Kind, va: u64, lines: &mut LineBuf)
        requires sound { IsSound self.old.state }
        requires hart { hart < length self.old.state.harts }
        requires clock { self.old.state.clock < 2 ^ 64 - 1 }
        requires empty { lines.old ≡ [] }
        ensures stepped { self.new.state ≡ state_after self.old.state hart (turn.Deny kind va) }
        ensures told { lines.new ≡ text_after self.old.state hart (turn.Deny kind va) }
    {
        lines.push(&Line::Deny {
            n: self.clock,
            h: hart,
            m: self.current(hart),
            w: kind,
            v: Vpn(va / 4096),
        });
        self.take_trap(hart, access_fault(kind), va, lines);
    }

    /// Takes a trap; where a module runs, it is stopped first.
    #[inline(never)]
    fn take_trap(&mut self, hart: u8, cause: Cause, value: u64, lines: &mut LineBuf)
        requires sound { IsSound self.old.state }
        requires hart { hart < length self.old.state.harts }
        requires clock { self.old.state.clock < 2 ^ 64 - 1 }
        requires room { length lines.old ≤ 128 }
        ensures stepped { self.new.state ≡ state_after self.old.state hart (turn.Trap cause value) }
        ensures told { lines.new
            ≡ lines.old ++ text_after self.old.state hart (turn.Trap cause value) }
        ensures cache { self.new.cache ≡ self.old.cache }
    {
        if self.harts[hart as usize].is_inside() {
            self.stop_and_trap(hart, cause, value, lines);
        } else {
            self.trap_outside(hart, cause, value, lines);
        }
    }

    /// The kernel isn't told where in its page a module's access failed.
    fn stop_and_trap(&mut self, hart: u8, cause: Cause, value: u64, lines: &mut LineBuf)
        requires sound { IsSound self.old.state }
        requires hart { hart < length self.old.state.harts }
        requires inside { (hart_at self.old.state hart).current.0 ≢ 0 }
        requires clock { self.old.state.clock < 2 ^ 64 - 1 }
        requires room { length lines.old ≤ 128 }
        ensures stepped { self.new.state ≡ state_after self.old.state hart (turn.Trap cause value) }
        ensures told { lines.new
            ≡ lines.old ++ text_after self.old.state hart (turn.Trap cause value) }
        ensures cache { self.new.cache ≡ self.old.cache }
    {
        let pc = self.pc(hart);
        lines.push(&Line::Stop {
            n: self.clock,
            h: hart,
            m: self.current(hart),
            p: pc,
        });
        self.stop(hart);
        self.enter_trap(hart, pc, cause, value - value % 4096, lines);
    }

    fn trap_outside(&mut self, hart: u8, cause: Cause, value: u64, lines: &mut LineBuf)
        requires sound { IsSound self.old.state }
        requires hart { hart < length self.old.state.harts }
        requires outside { (hart_at self.old.state hart).current.0 ≡ 0 }
        requires clock { self.old.state.clock < 2 ^ 64 - 1 }
        requires room { length lines.old ≤ 128 }
        ensures stepped { self.new.state ≡ state_after self.old.state hart (turn.Trap cause value) }
        ensures told { lines.new
            ≡ lines.old ++ text_after self.old.state hart (turn.Trap cause value) }
        ensures cache { self.new.cache ≡ self.old.cache }
    {
        let pc = self.pc(hart);
        self.enter_trap(hart, pc, cause, value, lines);
    }

    /// The hart goes on at the trap's handler; the trap was taken at the pc.
    fn enter_trap(&mut self, hart: u8, pc: u64, cause: Cause, value: u64, lines: &mut LineBuf)
        requires hart { hart < length self.old.state.harts }
        requires aligned { (hart_at self.old.state hart).pc % 4 ≡ 0 }
        requires clock { self.old.state.clock < 2 ^ 64 - 1 }
        requires room { length lines.old ≤ 256 }
        ensures stepped { let s = self.old.state in self.new.state
            ≡ after_tick (with_hart s hart (hart_after_trap (hart_at s hart) cause value)) }
        ensures told { lines.new
            ≡ lines.old ++ spelling (line.Trap self.old.state.clock hart cause.0 pc) }
        ensures cache { self.new.cache ≡ self.old.cache }
    {
        self.harts[hart as usize].trap(cause, value);
        lines.push(&Line::Trap {
            n: self.clock,
            h: hart,
            c: cause.0,
            p: pc,
        });
        self.clock += 1;
    }

    pub(super) fn go_on(&mut self, hart: u8)
        requires hart { hart < length self.old.state.harts }
        requires clock { self.old.state.clock < 2 ^ 64 - 1 }
        ensures stepped { self.new.state ≡ state_after self.old.state hart turn.Next }
        ensures cache { self.new.cache ≡ self.old.cache }
    {
        self.harts[hart as usize].go_on();
        self.clock += 1;
    }

    pub(super) fn set(&mut self, hart: u8, rd: Reg, value: u64)
        requires hart { hart < length self.old.state.harts }
        requires clock { self.old.state.clock < 2 ^ 64 - 1 }
        requires register { rd.0 < 32 }
        ensures stepped { self.new.state ≡ state_after self.old.state hart (turn.Set rd value) }
        ensures cache { self.new.cache ≡ self.old.cache }
    {
        self.harts[hart as usize].go_on_with(rd, value);
        self.clock += 1;
    }

    pub(super) fn jump(&mut self, hart: u8, target: u64, rd: Reg, link: u64)
        requires hart { hart < length self.old.state.harts }
        requires clock { self.old.state.clock < 2 ^ 64 - 1 }
        requires register { rd.0 < 32 }
        ensures stepped { self.new.state
            ≡ state_after self.old.state hart (turn.Jump target rd link) }
        ensures cache { self.new.cache ≡ self.old.cache }
    {
        self.harts[hart as usize].jump(target, rd, link);
        self.clock += 1;
    }

    pub(super) fn set_csrs(&mut self, hart: u8, rd: Reg, old: u64, csrs: Csrs)
        requires hart { hart < length self.old.state.harts }
        requires clock { self.old.state.clock < 2 ^ 64 - 1 }
        requires register { rd.0 < 32 }
        ensures stepped { self.new.state ≡ state_after self.old.state hart (turn.Csr rd old csrs) }
        ensures cache { self.new.cache ≡ self.old.cache }
    {
        self.harts[hart as usize].set_csrs(rd, old, csrs);
        self.clock += 1;
    }

    /// Sets rd to a refusal's code.
    pub(super) fn refuse(
        &mut self,
        hart: u8,
        rd: Reg,
        request: Request,
        code: i64,
        lines: &mut LineBuf,
    )
        requires hart { hart < length self.old.state.harts }
        requires clock { self.old.state.clock < 2 ^ 64 - 1 }
        requires register { rd.0 < 32 }
        requires code { IsRefusalCode code }
        requires empty { lines.old ≡ [] }
        ensures stepped { (number : ℕ) → code ≡ minus number → self.new.state
            ≡ state_after self.old.state hart (turn.Refuse rd request number) }
        ensures told { (number : ℕ) → code ≡ minus number → lines.new
            ≡ text_after self.old.state hart (turn.Refuse rd request number) }
    {
        lines.push(&Line::Refuse {
            n: self.clock,
            h: hart,
            w: request,
            r: code,
        });
        self.harts[hart as usize].go_on_with(rd, in_64_bits(code));
        self.clock += 1;
    }

    /// Launches a judged module, and sets rd to its id.
    pub(super) fn launch_module(&mut self, hart: u8, rd: Reg, judged: Judged, lines: &mut LineBuf)
        requires hart { hart < length self.old.state.harts }
        requires clock { self.old.state.clock < 2 ^ 64 - 1 }
        requires register { rd.0 < 32 }
        requires room { HasRoomFor self.old.state judged }
        requires empty { lines.old ≡ [] }
        ensures stepped { self.new.state ≡ state_after self.old.state hart (turn.Launch rd judged) }
        ensures told { lines.new ≡ text_after self.old.state hart (turn.Launch rd judged) }
    {
        let digest = judged.digest;
        let id = self.enter(judged);
        lines.push(&Line::Launch {
            n: self.clock,
            h: hart,
            m: id,
            i: digest,
        });
        self.harts[hart as usize].go_on_with(rd, u64::from(id.0));
        self.clock += 1;
    }

    /// Enters a judged module in the table, and its declarations in the index of owners.
    #[tactic(auto, using(crate::proofs::Launches::length_owners, crate::proofs::Launches::row_found, crate::proofs::Launches::owners_more))]
    fn enter(&mut self, judged: Judged) -> ModId
        requires { HasRoomFor self.old.state judged }
        ensures id { result.0 ≡ self.old.state.next }
        ensures entered { self.new.state ≡ after_launch self.old.state judged }
    {
        // For the prover: what holds of every table and every unit.
        self.table.facts();
        self.unit.facts();
        let id = self.table.add(judged);
        match self.table.row(id) {
            Some(row) => self.unit.own(row),
            None => unreachable!(),
        }
        id
    }

    /// Tells of an eviction that was made, and sets rd to 0.
    pub(super) fn finish_eviction(
        &mut self,
        hart: u8,
        rd: Reg,
        id: ModId,
        count: u8,
        lines: &mut LineBuf,
    )
        requires hart { hart < length self.old.state.harts }
        requires clock { self.old.state.clock < 2 ^ 64 - 1 }
        requires register { rd.0 < 32 }
        requires empty { lines.old ≡ [] }
        ensures stepped { self.new.state ≡ state_after self.old.state hart (turn.Tell rd 0) }
        ensures told { lines.new
            ≡ text_of (line.Evict self.old.state.clock hart id count ∷ []) }
    {
        lines.push(&Line::Evict {
            n: self.clock,
            h: hart,
            m: id,
            k: count,
        });
        self.harts[hart as usize].go_on_with(rd, 0);
        self.clock += 1;
    }

    pub(super) fn return_from_trap(&mut self, hart: u8)
        requires hart { hart < length self.old.state.harts }
        requires clock { self.old.state.clock < 2 ^ 64 - 1 }
        ensures stepped { self.new.state ≡ state_after self.old.state hart turn.ReturnFromTrap }
        ensures cache { self.new.cache ≡ self.old.cache }
    {
        self.harts[hart as usize].return_from_trap();
        self.clock += 1;
    }

    pub(super) fn put(&mut self, hart: u8, byte: u8, lines: &mut LineBuf)
        requires hart { hart < length self.old.state.harts }
        requires clock { self.old.state.clock < 2 ^ 64 - 1 }
        requires empty { lines.old ≡ [] }
        ensures stepped { self.new.state ≡ state_after self.old.state hart (turn.Put byte) }
        ensures told { lines.new ≡ text_after self.old.state hart (turn.Put byte) }
        ensures cache { self.new.cache ≡ self.old.cache }
    {
        lines.push(&Line::Out {
            n: self.clock,
            h: hart,
            b: byte,
        });
        self.harts[hart as usize].accept();
        self.clock += 1;
    }

    pub(super) fn answer(&mut self, hart: u8, error: u64)
        requires hart { hart < length self.old.state.harts }
        requires clock { self.old.state.clock < 2 ^ 64 - 1 }
        ensures stepped { self.new.state ≡ state_after self.old.state hart (turn.Answer error) }
        ensures cache { self.new.cache ≡ self.old.cache }
    {
        self.harts[hart as usize].answer(error);
        self.clock += 1;
    }

    pub(super) fn set_timer(&mut self, hart: u8, timer: u64)
        requires hart { hart < length self.old.state.harts }
        requires clock { self.old.state.clock < 2 ^ 64 - 1 }
        ensures stepped { self.new.state ≡ state_after self.old.state hart (turn.SetTimer timer) }
        ensures cache { self.new.cache ≡ self.old.cache }
    {
        self.harts[hart as usize].set_timer(timer);
        self.clock += 1;
    }

    /// a0 is the oldest key that waits, which leaves, or minus 1 where none does.
    pub(super) fn take_key(&mut self, hart: u8)
        requires hart { hart < length self.old.state.harts }
        requires clock { self.old.state.clock < 2 ^ 64 - 1 }
        ensures stepped { self.new.state
            ≡ state_after self.old.state hart (decision_of_get self.old.state.keys) }
        ensures cache { self.new.cache ≡ self.old.cache }
    {
        match self.keys.pop_at(0) {
            Some(key) => self.harts[hart as usize].go_on_with(A0, u64::from(key)),
            None => self.harts[hart as usize].go_on_with(A0, u64::MAX),
        }
        self.clock += 1;
    }

    /// Starts another hart, which runs no module.
    pub(super) fn start(&mut self, hart: u8, target: u8, pc: u64, opaque: u64, lines: &mut LineBuf)
        requires hart { hart < length self.old.state.harts }
        requires target { MayStart self.old.state target }
        requires clock { self.old.state.clock < 2 ^ 64 - 1 }
        requires empty { lines.old ≡ [] }
        ensures stepped { self.new.state
            ≡ state_after self.old.state hart (turn.Start target pc opaque) }
        ensures told { lines.new ≡ text_after self.old.state hart (turn.Start target pc opaque) }
        ensures cache { self.new.cache ≡ self.old.cache }
    {
        lines.push(&Line::Start {
            n: self.clock,
            h: hart,
            t: target,
            p: pc,
        });
        self.harts[hart as usize].answer(0);
        self.harts[target as usize].start(target, pc, opaque);
        self.clock += 1;
    }

    /// A software interrupt comes to each hart of the mask.
    pub(super) fn send(&mut self, hart: u8, mask: u8)
        requires sound { IsSound self.old.state }
        requires hart { hart < length self.old.state.harts }
        requires clock { self.old.state.clock < 2 ^ 64 - 1 }
        ensures stepped { self.new.state ≡ state_after self.old.state hart (turn.Send mask) }
        ensures cache { self.new.cache ≡ self.old.cache }
    {
        self.harts[hart as usize].answer(0);
        raise_all(&mut self.harts, mask);
        self.clock += 1;
    }

    pub(super) fn shut_down(&mut self, hart: u8)
        requires hart { hart < length self.old.state.harts }
        requires clock { self.old.state.clock < 2 ^ 64 - 1 }
        ensures stepped { self.new.state ≡ state_after self.old.state hart turn.ShutDown }
        ensures cache { self.new.cache ≡ self.old.cache }
    {
        self.harts[hart as usize].go_on();
        self.off = true;
        self.clock += 1;
    }
}

/// The access fault of a kind (Privileged ISA, "Supervisor Cause Register").
fn access_fault(kind: Kind) -> Cause
    ensures { result ≡ walking.access_fault kind }
{
    match kind {
        Kind::Fetch => Cause(1),
        Kind::Load => Cause(5),
        Kind::Store => Cause(7),
    }
}

/// A refusal's code in 64 bits.
fn in_64_bits(code: i64) -> u64
    requires { IsRefusalCode code }
    ensures { (number : ℕ) → code ≡ minus number → result ≡ minus_in_64_bits number }
{
    code.unsigned_abs().wrapping_neg()
}

/// A software interrupt comes to each of the harts, at most four, that the mask names.
#[tactic(auto, using(crate::proofs::Harts::raised_are))]
fn raise_all(harts: &mut Vec<Hart>, mask: u8)
    requires { length harts.old.items ≤ 4 }
    ensures raised { harts.new.items ≡ each (hart_by_mask mask) 0 harts.old.items }
    ensures count { length harts.new.items ≡ length harts.old.items }
{
    raise(harts, 0, mask);
    raise(harts, 1, mask);
    raise(harts, 2, mask);
    raise(harts, 3, mask);
}

/// It comes to a hart, where there is one of the number and the mask names it.
fn raise(harts: &mut Vec<Hart>, h: u8, mask: u8)
    requires { h < 8 }
    ensures { harts.new.items ≡ raised mask h harts.old.items }
{
    if (h as usize) < harts.len() && (mask >> h) % 2 == 1 {
        harts[h as usize].raise_software();
    }
}
