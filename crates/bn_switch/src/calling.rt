ghost use Rattle.std.specs.Prelude.{◌≡◌, ℕ, ◌^◌, ◌<◌, Some, None, IfErr, IfOk, IsSome, OnErr, OnOk};
ghost use Rattle.std.specs.List.{list_any};
ghost use Rattle.std.specs.Option.{option_copied};
ghost use Rattle.bn_types.specs.declared.reg.Reg.{Reg};
ghost use Rattle.bn_types.specs.declared.row_state.RowState.TheVariants.{Idle};
ghost use Rattle.bn_model.specs.Deciding.{decision_of_call, is_entry};
ghost use Rattle.bn_model.specs.Rows.{row_of};
ghost use Rattle.bn_model.specs.Soundness.{state_at};
ghost use Rattle.bn_model.specs.State.{hart_after_call};
ghost use Rattle.bn_model.specs.Stepping.{frame_of_call};
ghost use Rattle.bn_model.specs.Switching.{is_mode, rows_after_call};
ghost use Rattle.bn_switch.specs.Contexts.{IsSeated, StandsIn, hart_of, module_in};
ghost use Rattle.bn_switch.specs.Refusals.{decision_by, refusal_of};

use crate::entering::enter;
use crate::{CallRefused, Context};
use bn_table::Table;
use bn_types::{ModId, Mode, Reg, Row, RowState};

/// Calls the module of an id at one of its entries, on the hart, both as the guest names them.
///
/// The caller, a module or the untrusted world, waits: its registers are kept with rd set to 0, to
/// come back at its next instruction. The callee gets a0 to a7 as they were before, and 0 in all
/// other registers.
///
/// `rd` is below 32, and a seat is that of a module that runs. The error is the first test that the
/// call fails, with the context as it was; then nothing changes.
pub fn call(
    table: &mut Table,
    here: Context,
    hart: u8,
    rd: Reg,
    id: u64,
    entry: u64,
) -> Result<Context, (CallRefused, Context)>
    requires register { rd.0 < 32 }
    requires seated { IsSeated table.old.rows here.seat }
    ensures decision { decision_by (refusal_of result) rd id entry ≡
        decision_of_call here.mode rd id entry (row_of table.old.rows id) }
    ensures context { IfOk result
        (λ callee. StandsIn callee (hart_after_call (hart_of here) id entry)) }
    ensures running { IfOk result (λ callee. IsSeated table.new.rows callee.seat) }
    ensures table { OnOk result (table.new ≡ record table.old {
      rows =
          rows_after_call (module_in here.seat).0 hart id (frame_of_call (hart_of here) rd)
          table.old.rows;
    }) }
    ensures same_context { IfErr result (λ refused. refused.1 ≡ here) }
    ensures same_table { OnErr result (table.new ≡ table.old) }
{
    match refusal(table, here.mode, id, entry) {
        Some(refusal) => Err((refusal, here)),
        None => Ok(enter(table, here, hart, rd, ModId(id as u16), entry)),
    }
}

/// The first test that a call fails.
fn refusal(table: &Table, mode: Mode, id: u64, entry: u64) -> Option<CallRefused>
    ensures decision { (rd : Reg) → decision_by result rd id entry ≡
        decision_of_call mode rd id entry (row_of table.now.rows id) }
    ensures idle { result ≡ None → state_at table.now.rows id ≡ Some Idle }
    ensures small { result ≡ None → id < 2 ^ 16 }
{
    match row_at(table, id) {
        Some(row) => refusal_by(row, mode, entry),
        None => Some(CallRefused::NoModule),
    }
}

/// The row of an id of any size.
#[tactic(auto, using(crate::proofs::IdBounds::row_of_large))]
fn row_at(table: &Table, id: u64) -> Option<&Row>
    ensures row { option_copied result ≡ row_of table.now.rows id }
    ensures small { IsSome result → id < 2 ^ 16 }
{
    // For the prover: what holds of every table.
    table.facts();
    if id < 0x10000 {
        table.row(ModId(id as u16))
    } else {
        None
    }
}

fn refusal_by(row: &Row, mode: Mode, entry: u64) -> Option<CallRefused>
    ensures decision { (rd : Reg) (id : ℕ) → decision_by result rd id entry ≡
        decision_of_call mode rd id entry (Some row.now) }
    ensures idle { result ≡ None → row.now.state ≡ Idle }
{
    if !names_entry(&row.judged.entries, entry) {
        return Some(CallRefused::NotEntry);
    }
    if !is_same_mode(mode, row.judged.mode) {
        return Some(CallRefused::ModeDiffers);
    }
    match row.state {
        RowState::Idle => None,
        RowState::Running { .. } | RowState::Waiting { .. } | RowState::Stopped => {
            Some(CallRefused::Busy)
        }
    }
}

fn names_entry(entries: &[u64], entry: u64) -> bool
    ensures { result ≡ list_any (is_entry entry) entries.now }
{
    entries.iter().any(|other| *other == entry)
}

fn is_same_mode(one: Mode, other: Mode) -> bool
    ensures { result ≡ is_mode one other }
{
    match one {
        Mode::U => match other {
            Mode::U => true,
            Mode::S => false,
        },
        Mode::S => match other {
            Mode::U => false,
            Mode::S => true,
        },
    }
}
