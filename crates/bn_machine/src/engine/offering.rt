//! Which module is behind an acceptance.
ghost use Rattle.std.specs.Prelude.{◌≡◌, ◌≢◌, ◌<◌, find, length};
ghost use Rattle.std.specs.Option.{option_copied};
ghost use Rattle.bn_model.specs.Admission.{declaration, is_at};
ghost use Rattle.bn_model.specs.Deciding.{id_if_live, offerer_of};
ghost use Rattle.bn_model.specs.Owners.{is_live};
ghost use Rattle.bn_model.specs.Rows.{owners};
ghost use Rattle.bn_model.specs.State.{hart_at};
ghost use Rattle.bn_model.specs.Walking.{vpn_of};
ghost use Rattle.bn_machine.specs.Acts.{decl_in_row};

use crate::engine::Engine;
use bn_types::{Decl, ModId, Row, Sort, Vpn};

impl Engine {
    /// The id of the live module that offers the page which the module that hart h runs accepts at
    /// the virtual address, 0 where there is none.
    #[tactic(auto, using(crate::proofs::Offers::declared_by_row))]
    pub(super) fn offerer(&self, h: u8, at: u64) -> u64
        requires hart { h < length self.now.state.harts }
        requires inside { (hart_at self.now.state h).current.0 ≢ 0 }
        ensures { let rows = self.now.state.rows in result ≡ offerer_of (owners rows)
            (declaration (owners rows) (hart_at self.now.state h).current.0 (vpn_of at)) }
    {
        let row = self.table.row(self.current(h));
        match declaration_in(row, Vpn(at / 4096)) {
            Some(decl) => match decl.sort {
                Sort::Private | Sort::Offer => 0,
                Sort::Accept => self.id_if_live(decl.source),
            },
            None => 0,
        }
    }

    #[tactic(auto, using(crate::proofs::Offers::is_live_row))]
    fn id_if_live(&self, id: ModId) -> u64
        ensures { result ≡ id_if_live (is_live (owners self.now.state.rows) id.0) id }
    {
        if self.table.row(id).is_some() {
            u64::from(id.0)
        } else {
            0
        }
    }
}

/// What a row declares of a virtual page.
fn declaration_in(row: Option<&Row>, vpn: Vpn) -> Option<Decl>
    ensures { result ≡ decl_in_row vpn.0 (option_copied row.entry) }
{
    match row {
        Some(row) => copied(decl_at(&row.judged.decls, vpn)),
        None => None,
    }
}

fn decl_at(decls: &[Decl], vpn: Vpn) -> Option<&Decl>
    ensures { option_copied result ≡ find (is_at vpn.0) decls.now }
{
    decls.iter().find(|decl| decl.vpn.0 == vpn.0)
}

fn copied(decl: Option<&Decl>) -> Option<Decl>
    ensures { result ≡ option_copied decl.entry }
{
    match decl {
        Some(decl) => Some(*decl),
        None => None,
    }
}
