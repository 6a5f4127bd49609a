ghost use Rattle.std.specs.Prelude.{◌≡◌, find};
ghost use Rattle.std.specs.Option.{option_copied};
ghost use Rattle.std.specs.List.{list_any};
ghost use Rattle.bn_model.specs.Launching.{is_identity};
ghost use Rattle.bn_model.specs.Owners.{is_private};
ghost use Rattle.bn_model.specs.Rows.{row_of};
ghost use Rattle.bn_model.specs.Switching.{is_code_at, is_mode, is_stopped, is_stopped_at};
ghost use Rattle.bn_table.specs.Tables.{row_has_identity};

use bn_types::{Decl, Digest, Gpn, ModId, Mode, Row, RowState, Sort, Vpn};

/// The row of an id.
pub fn row_in(rows: &[Row], id: ModId) -> Option<&Row>
    ensures { option_copied result ≡ row_of rows.now id.0 }
{
    rows.iter().find(|row| row.id.0 == id.0)
}

/// Whether a live module has the identity.
pub fn is_known(rows: &[Row], who: &Digest) -> bool
    ensures { result ≡ list_any (row_has_identity who.now) rows.now }
{
    rows.iter().any(|row| is_same(&row.judged.digest, who))
}

/// Whether two digests are equal.
pub fn is_same(one: &Digest, other: &Digest) -> bool
    ensures { result ≡ is_identity other.now one.now }
{
    one.0[..] == other.0[..]
}

/// The row that was stopped at the pc and in the mode, in its own code at this virtual page and on
/// this page.
pub fn stopped_in(rows: &[Row], page: Gpn, vpn: Vpn, pc: u64, mode: Mode) -> Option<&Row>
    ensures { option_copied result ≡ find (is_stopped_at page.0 vpn.0 pc mode) rows.now }
{
    rows.iter()
        .find(|row| is_stopped_row(row, page, vpn, pc, mode))
}

#[tactic(auto, unfolding(bn_model::specs::Switching::is_stopped_at))]
fn is_stopped_row(row: &Row, page: Gpn, vpn: Vpn, pc: u64, mode: Mode) -> bool
    ensures { result ≡ is_stopped_at page.0 vpn.0 pc mode row.now }
{
    is_stopped_state(row.state)
        && is_code_of(&row.judged.decls, page, vpn)
        && row.saved.pc == pc
        && is_same_mode(row.saved.mode, mode)
}

fn is_stopped_state(state: RowState) -> bool
    ensures { result ≡ is_stopped state }
{
    match state {
        RowState::Stopped => true,
        RowState::Idle | RowState::Running { .. } | RowState::Waiting { .. } => false,
    }
}

fn is_same_mode(one: Mode, other: Mode) -> bool
    ensures { result ≡ is_mode one other }
{
    match one {
        Mode::U => match other {
            Mode::U => true,
            Mode::S => false,
        },
        Mode::S => match other {
            Mode::U => false,
            Mode::S => true,
        },
    }
}

fn is_code_of(decls: &[Decl], page: Gpn, vpn: Vpn) -> bool
    ensures { result ≡ list_any (is_code_at page.0 vpn.0) decls.now }
{
    decls.iter().any(|decl| is_code(decl, page, vpn))
}

fn is_code(decl: &Decl, page: Gpn, vpn: Vpn) -> bool
    ensures { result ≡ is_code_at page.0 vpn.0 decl.now }
{
    decl.gpn.0 == page.0
        && decl.vpn.0 == vpn.0
        && is_private_sort(decl.sort)
        && (decl.rights.0 >> 2) % 2 == 1
}

fn is_private_sort(sort: Sort) -> bool
    ensures { result ≡ is_private sort }
{
    match sort {
        Sort::Private => true,
        Sort::Offer | Sort::Accept => false,
    }
}
