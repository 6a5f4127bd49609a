ghost use Rattle.std.specs.Prelude.{◌≡◌, Some, None};
ghost use Rattle.bn_types.specs.declared.row_state.RowState.TheVariants.{Stopped};
ghost use Rattle.bn_model.specs.Rows.{row_of, saved_of, with_row};
ghost use Rattle.bn_model.specs.Soundness.{state_at};
ghost use Rattle.bn_model.specs.State.{hart_after_resume};
ghost use Rattle.bn_model.specs.Switching.{row_after_resume};
ghost use Rattle.bn_switch.specs.Contexts.{IsSeated, StandsIn, hart_of};

use crate::Context;
use bn_table::Table;
use bn_types::ModId;

/// Goes on with a stopped module on the hart: it gets its registers, pc and mode back.
///
/// There is no seat, and the module is stopped. `Table::stopped_at` finds it by a pc and a mode; it
/// gets those of its own frame here, also where the context has others.
#[tactic(auto, using(crate::proofs::IdBounds::state_at_zero))]
pub fn resume(table: &mut Table, here: Context, hart: u8, id: ModId) -> Context
    requires outside { here.seat ≡ None }
    requires stopped { state_at table.old.rows id.0 ≡ Some Stopped }
    ensures context { StandsIn result
        (hart_after_resume (hart_of here) id (saved_of (row_of table.old.rows id.0))) }
    ensures running { IsSeated table.new.rows result.seat }
    ensures table { table.new ≡ record table.old {
      rows =
          with_row id.0 (row_after_resume hart) table.old.rows;
    } }
{
    // For the prover: what holds of every table.
    table.facts();
    let Context {
        regs: _,
        pc: _,
        mode: _,
        seat,
    } = here;
    match seat {
        None => {}
        Some(_seat) => unreachable!(),
    }
    let (seat, frame) = table.resume(id, hart);
    Context {
        regs: frame.regs,
        pc: frame.pc,
        mode: frame.mode,
        seat: Some(seat),
    }
}
