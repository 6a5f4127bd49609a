ghost use Rattle.std.specs.Prelude.{◌≡◌, ◌<◌, Some};
ghost use Rattle.bn_types.specs.declared.row_state.RowState.TheVariants.{Idle};
ghost use Rattle.bn_model.specs.Soundness.{state_at};
ghost use Rattle.bn_model.specs.State.{hart_after_call};
ghost use Rattle.bn_model.specs.Stepping.{frame_of_call};
ghost use Rattle.bn_model.specs.Switching.{rows_after_call};
ghost use Rattle.bn_switch.specs.Contexts.{IsSeated, StandsIn, hart_of, module_in};
ghost use Rattle.bn_table.specs.Tables.{IsRunning};

use crate::Context;
use crate::registers::{arguments, with_zero};
use bn_table::{Seat, Table};
use bn_types::{ModId, Reg, SavedFrame};

/// An idle module runs on the hart at an entry, and its caller waits for it.
#[tactic(auto, using(crate::proofs::IdBounds::state_at_zero))]
pub fn enter(
    table: &mut Table,
    here: Context,
    hart: u8,
    rd: Reg,
    callee: ModId,
    entry: u64,
) -> Context
    requires register { rd.0 < 32 }
    requires seated { IsSeated table.old.rows here.seat }
    requires idle { state_at table.old.rows callee.0 ≡ Some Idle }
    ensures context { StandsIn result (hart_after_call (hart_of here) callee.0 entry) }
    ensures running { IsSeated table.new.rows result.seat }
    ensures table { table.new ≡ record table.old {
      rows =
          rows_after_call (module_in here.seat).0 hart callee.0 (frame_of_call (hart_of here) rd)
          table.old.rows;
    } }
{
    // For the prover: what holds of every table.
    table.facts();
    let Context {
        regs,
        pc,
        mode,
        seat,
    } = here;
    let frame = SavedFrame {
        regs: with_zero(&regs, rd),
        pc: pc.wrapping_add(4),
        mode,
    };
    let seat = hand_over(table, seat, frame, callee, hart);
    Context {
        regs: arguments(&regs),
        pc: entry,
        mode,
        seat: Some(seat),
    }
}

/// The caller's frame is kept: in the callee's row for the untrusted world, which has no seat, in
/// its own for a module.
fn hand_over(
    table: &mut Table,
    seat: Option<Seat>,
    frame: SavedFrame,
    callee: ModId,
    hart: u8,
) -> Seat
    requires seated { IsSeated table.old.rows seat }
    requires idle { state_at table.old.rows callee.0 ≡ Some Idle }
    ensures seat { result ≡ callee }
    ensures running { IsRunning (state_at table.new.rows result.0) }
    ensures table { table.new ≡ record table.old {
      rows =
          rows_after_call (module_in seat).0 hart callee.0 frame table.old.rows;
    } }
{
    match seat {
        None => table.enter(callee, hart, ModId(0), frame),
        Some(seat) => {
            // For the prover: what holds of every table.
            table.facts();
            let caller = seat.id();
            table.wait(seat, frame, callee);
            table.enter(callee, hart, caller, SavedFrame::zero())
        }
    }
}
