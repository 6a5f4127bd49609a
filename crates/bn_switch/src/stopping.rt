ghost use Rattle.std.specs.Prelude.{◌≡◌};
ghost use Rattle.bn_model.specs.Rows.{with_row};
ghost use Rattle.bn_model.specs.State.{frame_of, hart_after_stop};
ghost use Rattle.bn_model.specs.Switching.{row_after_stop};
ghost use Rattle.bn_switch.specs.Contexts.{HasSeat, StandsIn, hart_of, module_in};

use crate::Context;
use bn_table::Table;
use bn_types::{Regs, SavedFrame};

/// Stops the module that runs: its registers, pc and mode are kept in its row, and the untrusted
/// world has the hart, with all registers 0. Its pc and mode are still the module's, for the trap
/// that follows.
///
/// There is a seat, that of a module that runs.
pub fn stop(table: &mut Table, here: Context) -> Context
    requires { HasSeat table.old.rows here.seat }
    ensures context { StandsIn result (hart_after_stop (hart_of here)) }
    ensures table { table.new ≡ record table.old {
      rows =
          with_row (module_in here.seat).0 (row_after_stop (frame_of (hart_of here)))
          table.old.rows;
    } }
{
    let Context {
        regs,
        pc,
        mode,
        seat,
    } = here;
    match seat {
        Some(seat) => {
            table.stop(seat, SavedFrame { regs, pc, mode });
            Context {
                regs: Regs::zero(),
                pc,
                mode,
                seat: None,
            }
        }
        None => unreachable!(),
    }
}
