ghost use Rattle.std.specs.Prelude.{◌≡◌};
ghost use Rattle.bn_model.specs.Rows.{change_at, with_row};
ghost use Rattle.bn_table.specs.Tables.{changed};

use arrayvec::ArrayVec;
use bn_types::{ModId, Regs, Row, RowState, SavedFrame};

/// What becomes of a row.
#[derive(Drop)]
pub enum Change {
    /// It is called: it runs on the hart, and keeps what its caller in the untrusted world gets
    /// back.
    Call {
        hart: u8,
        caller: ModId,
        back: SavedFrame,
    },
    /// It waits for the module that it called.
    Wait {
        frame: SavedFrame,
        callee: ModId,
    },
    /// It returns to its caller.
    Return,
    /// It runs again, on the hart.
    Run {
        hart: u8,
    },
    /// It is stopped.
    Stop {
        frame: SavedFrame,
    },
    /// Its saved registers are zeroed.
    Blank,
}

/// Changes the row of the id, where there is one.
pub fn change_row(rows: &mut ArrayVec<Row, 15>, id: ModId, change: &Change)
    ensures { rows.new.items ≡ with_row id.0 (changed change.now) rows.old.items }
{
    change_in(rows.as_mut_slice(), id, change);
}

#[tactic(auto, unfolding(bn_model::specs::Rows::with_row))]
fn change_in(rows: &mut [Row], id: ModId, change: &Change)
    ensures { rows.new ≡ with_row id.0 (changed change.now) rows.old }
{
    for row in rows.iter_mut() {
        change_if(row, id, change);
    }
}

fn change_if(row: &mut Row, id: ModId, change: &Change)
    ensures { row.new ≡ change_at id.0 (changed change.now) row.old }
{
    if row.id.0 == id.0 {
        apply(row, change);
    }
}

fn apply(row: &mut Row, change: &Change)
    ensures { row.new ≡ changed change.now row.old }
{
    match change {
        Change::Call { hart, caller, back } => {
            row.state = RowState::Running { hart: *hart };
            row.caller = *caller;
            row.back = *back;
        }
        Change::Wait { frame, callee } => {
            row.state = RowState::Waiting { callee: *callee };
            row.saved = *frame;
        }
        Change::Return => {
            row.state = RowState::Idle;
            row.caller = ModId(0);
            row.back = SavedFrame::zero();
        }
        Change::Run { hart } => {
            row.state = RowState::Running { hart: *hart };
            row.saved = SavedFrame::zero();
        }
        Change::Stop { frame } => {
            row.state = RowState::Stopped;
            row.saved = *frame;
        }
        Change::Blank => row.saved.regs = Regs::zero(),
    }
}
