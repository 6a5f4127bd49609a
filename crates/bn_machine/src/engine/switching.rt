//! Calls into modules and back, stops and resumptions.
ghost use Rattle.std.specs.Prelude.{◌≡◌, ◌≢◌, ◌-◌, ◌^◌, ◌<◌, ◌∷◌, [], None, Some, IfErr, IfOk};
ghost use Rattle.std.specs.Prelude.{OnErr, OnOk, length};
ghost use Rattle.bn_types.specs.declared.line.Line.TheVariants as line;
ghost use Rattle.bn_types.specs.declared.row_state.RowState.TheVariants.{Stopped};
ghost use Rattle.bn_model.specs.Deciding.{caller_of, decision_of_call, decision_of_return};
ghost use Rattle.bn_model.specs.Decision as turn;
ghost use Rattle.bn_model.specs.Rows.{row_of, saved_of, with_row};
ghost use Rattle.bn_model.specs.Soundness.{IsSound, state_at};
ghost use Rattle.bn_model.specs.Spelling.{text_of};
ghost use Rattle.bn_model.specs.State.{frame_of, hart_after_call, hart_after_resume};
ghost use Rattle.bn_model.specs.State.{hart_after_return, hart_after_stop, hart_at, untrusted};
ghost use Rattle.bn_model.specs.State.{with_hart};
ghost use Rattle.bn_model.specs.Stepping.{frame_of_call};
ghost use Rattle.bn_model.specs.Switching.{frame_of_caller, row_after_resume, row_after_stop};
ghost use Rattle.bn_model.specs.Switching.{rows_after_call, rows_after_return};
ghost use Rattle.bn_switch.specs.Contexts.{HasSeat, IsOfModule, IsSeated, StandsIn, hart_of};
ghost use Rattle.bn_switch.specs.Contexts.{module_in};
ghost use Rattle.bn_switch.specs.Refusals.{decision_by, refusal_of};
ghost use Rattle.bn_machine.specs.Harts.{hart_in_context};
ghost use Rattle.bn_machine.specs.Making.{IsMade, state_after, state_after_stop};
ghost use Rattle.bn_machine.specs.Making.{state_in_context, text_after};
ghost use Rattle.bn_machine.specs.Standing.{MayResume};

use crate::LineBuf;
use crate::engine::Engine;
use bn_switch::{CallRefused, Context, call, code_of, resume, ret, stop};
use bn_types::{Line, ModId, Reg, Request};

impl Engine {
    /// The call of a module at an entry.
    pub(super) fn call(&mut self, h: u8, rd: Reg, id: u64, entry: u64, lines: &mut LineBuf)
        requires sound { IsSound self.old.state }
        requires hart { h < length self.old.state.harts }
        requires clock { self.old.state.clock < 2 ^ 64 - 1 }
        requires register { rd.0 < 32 }
        requires empty { lines.old ≡ [] }
        ensures made { let s = self.old.state in
            IsMade s self.new.state lines.new h
            (decision_of_call (hart_at s h).mode rd id entry (row_of s.rows id)) }
    {
        let caller = self.current(h);
        let here = self.leave(h);
        match self.call_in_table(here, h, rd, id, entry) {
            Ok(callee) => {
                self.tell_call(h, caller, module_of(&callee), entry, lines);
                self.go_on_in(h, callee);
            }
            Err((refusal, here)) => {
                self.settle(h, here);
                self.refuse(h, rd, Request::Call, code_of(&refusal), lines);
            }
        }
    }

    /// The return of the module that hart h runs.
    pub(super) fn ret(&mut self, h: u8, lines: &mut LineBuf)
        requires sound { IsSound self.old.state }
        requires hart { h < length self.old.state.harts }
        requires inside { (hart_at self.old.state h).current.0 ≢ 0 }
        requires clock { self.old.state.clock < 2 ^ 64 - 1 }
        requires empty { lines.old ≡ [] }
        ensures made { let s = self.old.state in let m = (hart_at s h).current in
            IsMade s self.new.state lines.new h
            (decision_of_return s.rows m.0 (caller_of (row_of s.rows m.0))) }
    {
        let returned = self.current(h);
        let here = self.leave(h);
        let back = self.return_in_table(here, h);
        self.tell_return(h, returned, module_of(&back), back.pc, lines);
        self.go_on_in(h, back);
    }

    /// A stopped module goes on on hart h, which executes no instruction.
    #[inline(never)]
    pub(super) fn resume(&mut self, h: u8, id: ModId, lines: &mut LineBuf)
        requires sound { IsSound self.old.state }
        requires hart { h < length self.old.state.harts }
        requires stopped { MayResume self.old.state h id }
        requires clock { self.old.state.clock < 2 ^ 64 - 1 }
        requires empty { lines.old ≡ [] }
        ensures stepped { self.new.state ≡ state_after self.old.state h (turn.Resume id) }
        ensures told { lines.new ≡ text_after self.old.state h (turn.Resume id) }
    {
        lines.push(&Line::Resume {
            n: self.clock,
            h,
            m: id,
            p: self.pc(h),
        });
        let here = self.leave(h);
        let there = self.resume_in_table(here, h, id);
        self.settle(h, there);
        self.clock += 1;
    }

    /// Stops the module that hart h runs.
    pub(super) fn stop(&mut self, h: u8)
        requires sound { IsSound self.old.state }
        requires hart { h < length self.old.state.harts }
        requires inside { (hart_at self.old.state h).current.0 ≢ 0 }
        ensures stepped { self.new.state ≡ state_after_stop self.old.state h }
        ensures cache { self.new.cache ≡ self.old.cache }
    {
        let here = self.leave(h);
        let outside = self.stop_in_table(here);
        self.settle(h, outside);
    }

    // ---- the table alone

    #[tactic(auto, using(crate::proofs::Switches::owners_called))]
    fn call_in_table(
        &mut self,
        here: Context,
        h: u8,
        rd: Reg,
        id: u64,
        entry: u64,
    ) -> Result<Context, (CallRefused, Context)>
        requires register { rd.0 < 32 }
        requires seated { IsSeated self.old.state.rows here.seat }
        ensures decision { decision_by (refusal_of result) rd id entry ≡
            decision_of_call here.mode rd id entry (row_of self.old.state.rows id) }
        ensures context { IfOk result
            (λ callee. StandsIn callee (hart_after_call (hart_of here) id entry)) }
        ensures called { OnOk result (self.new.state ≡ record self.old.state {
          rows =
              rows_after_call (module_in here.seat).0 h id (frame_of_call (hart_of here) rd)
              self.old.state.rows;
        }) }
        ensures same { OnErr result (self.new.state ≡ self.old.state) }
        ensures back { IfErr result (λ refused. refused.1 ≡ here) }
    {
        call(&mut self.table, here, h, rd, id, entry)
    }

    #[tactic(auto, using(crate::proofs::Switches::owners_returned))]
    fn return_in_table(&mut self, here: Context, h: u8) -> Context
        requires { HasSeat self.old.state.rows here.seat }
        ensures context { let rows = self.old.state.rows in let m = module_in here.seat in
            let caller = caller_of (row_of rows m.0) in
            StandsIn result (hart_after_return (hart_of here) caller
            (frame_of_caller caller.0 rows m.0)) }
        ensures returned { let m = module_in here.seat in
            let caller = caller_of (row_of self.old.state.rows m.0) in
            self.new.state ≡ record self.old.state {
              rows =
                  rows_after_return caller.0 h m.0 self.old.state.rows;
            } }
    {
        ret(&mut self.table, here, h)
    }

    #[tactic(auto, using(crate::proofs::Switches::owners_resumed))]
    fn resume_in_table(&mut self, here: Context, h: u8, id: ModId) -> Context
        requires outside { here.seat ≡ None }
        requires stopped { state_at self.old.state.rows id.0 ≡ Some Stopped }
        ensures context { StandsIn result (hart_after_resume (hart_of here) id
            (saved_of (row_of self.old.state.rows id.0))) }
        ensures resumed { self.new.state ≡ record self.old.state {
          rows =
              with_row id.0 (row_after_resume h) self.old.state.rows;
        } }
    {
        resume(&mut self.table, here, h, id)
    }

    #[tactic(auto, using(crate::proofs::Switches::owners_stopped))]
    fn stop_in_table(&mut self, here: Context) -> Context
        requires { HasSeat self.old.state.rows here.seat }
        ensures context { StandsIn result (hart_after_stop (hart_of here)) }
        ensures stopped { self.new.state ≡ record self.old.state {
          rows =
              with_row (module_in here.seat).0 (row_after_stop (frame_of (hart_of here)))
              self.old.state.rows;
        } }
        ensures cache { self.new.cache ≡ self.old.cache }
    {
        stop(&mut self.table, here)
    }

    // ---- the hart alone

    /// What hart h takes with it to other code.
    #[tactic(auto, using(bn_switch::proofs::SeatLemmas::sound_seat))]
    fn leave(&mut self, h: u8) -> Context
        requires sound { IsSound self.old.state }
        requires hart { h < length self.old.state.harts }
        ensures context { StandsIn result (hart_at self.old.state h) }
        ensures seated { IsSeated self.old.state.rows result.seat }
        ensures left { let s = self.old.state in self.new.state
            ≡ with_hart s h (record (hart_at s h) { current = untrusted }) }
        ensures cache { self.new.cache ≡ self.old.cache }
    {
        self.harts[h as usize].leave()
    }

    /// Hart h goes on in a context.
    fn settle(&mut self, h: u8, context: Context)
        requires hart { h < length self.old.state.harts }
        requires outside { (hart_at self.old.state h).current ≡ untrusted }
        requires inside { IsOfModule context.seat }
        ensures stepped { let s = self.old.state in self.new.state
            ≡ with_hart s h (hart_in_context (hart_at s h) context) }
        ensures cache { self.new.cache ≡ self.old.cache }
    {
        self.harts[h as usize].enter(context);
    }

    /// Hart h goes on in a context, with one instruction more completed.
    fn go_on_in(&mut self, h: u8, context: Context)
        requires hart { h < length self.old.state.harts }
        requires outside { (hart_at self.old.state h).current ≡ untrusted }
        requires inside { IsOfModule context.seat }
        requires clock { self.old.state.clock < 2 ^ 64 - 1 }
        ensures { self.new.state ≡ state_in_context self.old.state h context }
    {
        self.harts[h as usize].go_on_in(context);
        self.clock += 1;
    }

    // ---- lines

    fn tell_call(&self, h: u8, caller: ModId, callee: ModId, entry: u64, lines: &mut LineBuf)
        requires { lines.old ≡ [] }
        ensures { lines.new
            ≡ text_of (line.Call self.now.state.clock h caller callee entry ∷ []) }
    {
        lines.push(&Line::Call {
            n: self.clock,
            h,
            f: caller,
            m: callee,
            e: entry,
        });
    }

    fn tell_return(&self, h: u8, returned: ModId, caller: ModId, pc: u64, lines: &mut LineBuf)
        requires { lines.old ≡ [] }
        ensures { lines.new
            ≡ text_of (line.Ret self.now.state.clock h returned caller pc ∷ []) }
    {
        lines.push(&Line::Ret {
            n: self.clock,
            h,
            m: returned,
            f: caller,
            p: pc,
        });
    }
}

/// The module that runs in a context, 0 for the untrusted world.
fn module_of(context: &Context) -> ModId
    ensures { result ≡ module_in context.now.seat }
{
    match &context.seat {
        Some(seat) => seat.id(),
        None => ModId(0),
    }
}
