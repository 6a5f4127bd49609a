ghost use Rattle.std.specs.Prelude.{◌≡◌};
ghost use Rattle.bn_model.specs.Deciding.{caller_of};
ghost use Rattle.bn_model.specs.Rows.{row_of};
ghost use Rattle.bn_model.specs.Soundness.{state_at};
ghost use Rattle.bn_model.specs.State.{hart_after_return};
ghost use Rattle.bn_model.specs.Switching.{frame_of_caller, rows_after_return};
ghost use Rattle.bn_switch.specs.Contexts.{HasSeat, IsOfModule, IsSeated, StandsIn, hart_of};
ghost use Rattle.bn_switch.specs.Contexts.{module_in};
ghost use Rattle.bn_table.specs.Tables.{IsRunning};

use crate::Context;
use crate::registers::with_answer;
use bn_table::{Seat, Table};
use bn_types::SavedFrame;

/// Returns from the module that runs to its caller, on the hart: the module is idle, and the caller
/// goes on with the registers, pc and mode that were kept of it, but with a0 and a1 of the module.
///
/// There is a seat, that of a module that runs.
pub fn ret(table: &mut Table, here: Context, hart: u8) -> Context
    requires { HasSeat table.old.rows here.seat }
    ensures context { let m = module_in here.seat in
        let caller = caller_of (row_of table.old.rows m.0) in
        StandsIn result (hart_after_return (hart_of here) caller
        (frame_of_caller caller.0 table.old.rows m.0)) }
    ensures running { IsSeated table.new.rows result.seat }
    ensures table { let m = module_in here.seat in
        let caller = caller_of (row_of table.old.rows m.0) in
        table.new ≡ record table.old {
          rows =
              rows_after_return caller.0 hart m.0 table.old.rows;
        } }
{
    let Context {
        regs,
        pc: _,
        mode: _,
        seat,
    } = here;
    match seat {
        Some(seat) => {
            let (seat, frame) = give_back(table, seat, hart);
            Context {
                regs: with_answer(&frame.regs, &regs),
                pc: frame.pc,
                mode: frame.mode,
                seat,
            }
        }
        None => unreachable!(),
    }
}

/// The module of the seat is idle, and its caller has its frame and its seat back.
fn give_back(table: &mut Table, seat: Seat, hart: u8) -> (Option<Seat>, SavedFrame)
    requires { IsRunning (state_at table.old.rows seat.0) }
    ensures seat { module_in result.0 ≡ caller_of (row_of table.old.rows seat.0) }
    ensures inside { IsOfModule result.0 }
    ensures frame { let caller = caller_of (row_of table.old.rows seat.0) in
        result.1 ≡ frame_of_caller caller.0 table.old.rows seat.0 }
    ensures running { IsSeated table.new.rows result.0 }
    ensures table { let caller = caller_of (row_of table.old.rows seat.0) in
        table.new ≡ record table.old {
          rows =
              rows_after_return caller.0 hart seat.0 table.old.rows;
        } }
{
    // For the prover: what holds of every table.
    table.facts();
    let left = table.leave(seat);
    if left.caller.0 == 0 {
        (None, left.back)
    } else {
        let (seat, frame) = table.come_back(left.caller, hart);
        (Some(seat), frame)
    }
}
