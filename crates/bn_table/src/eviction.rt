ghost use Rattle.std.specs.Prelude.{◌≡◌, ℕ, ◌+◌, ◌≤◌, OnSome, length};
ghost use Rattle.std.specs.List.{position};
ghost use Rattle.std.specs.Option.{option_copied};
ghost use Rattle.bn_types.specs.declared.reg.Reg.{Reg};
ghost use Rattle.bn_model.specs.Deciding.{decision_by_state, decision_of_evict};
ghost use Rattle.bn_model.specs.Evicting.{evicted_rows, rows_left, rows_without};
ghost use Rattle.bn_model.specs.Rows.{has_id, row_of};
ghost use Rattle.bn_table.specs.Evictions.{AreApart, decision_if_refused};

use crate::EvictRefused;
use arrayvec::ArrayVec;
use bn_types::{ModId, Row, RowState};

/// Why the module of the row can't be evicted. None where it can.
pub fn refusal_of(row: Option<&Row>) -> Option<EvictRefused>
    ensures { (rd : Reg) (id count : ℕ) → decision_of_evict rd id count (option_copied row.entry)
        ≡ decision_if_refused rd id count result }
{
    match row {
        Some(row) => refusal_by_state(row.state),
        None => Some(EvictRefused::NoModule),
    }
}

fn refusal_by_state(state: RowState) -> Option<EvictRefused>
    ensures { (rd : Reg) (id count : ℕ) → decision_by_state rd id count state
        ≡ decision_if_refused rd id count result }
{
    match state {
        RowState::Idle | RowState::Stopped => None,
        RowState::Running { .. } | RowState::Waiting { .. } => Some(EvictRefused::Busy),
    }
}

/// Takes out the row of a module, that of its caller, and so on.
pub fn take_chain(rows: &mut ArrayVec<Row, 15>, id: ModId) -> ArrayVec<Row, 15>
    requires few { length rows.old.items ≤ 15 }
    requires apart { AreApart rows.old.items }
    ensures gone { result.items ≡ evicted_rows rows.old.items id.0 }
    ensures rows { rows.new.items ≡ rows_left result.items rows.old.items }
{
    let mut gone = ArrayVec::new();
    let mut next = id;
    for _round in 0..15usize {
        match take_row(rows, next) {
            Some(row) => {
                next = row.caller;
                gone.push(row);
            }
            None => return gone,
        }
    }
    gone
}

/// Takes out the row of an id.
fn take_row(rows: &mut ArrayVec<Row, 15>, id: ModId) -> Option<Row>
    requires { AreApart rows.old.items }
    ensures row { result ≡ row_of rows.old.items id.0 }
    ensures rows { rows.new.items ≡ rows_without id.0 rows.old.items }
    ensures count { OnSome result (length rows.new.items + 1 ≡ length rows.old.items) }
{
    match place_in(rows, id) {
        Some(place) => Some(rows.remove(place)),
        None => None,
    }
}

fn place_in(rows: &[Row], id: ModId) -> Option<usize>
    ensures { result ≡ position (has_id id.0) rows.now }
{
    rows.iter().position(|row| row.id.0 == id.0)
}
