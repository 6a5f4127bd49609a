ghost use Rattle.std.specs.Prelude.{◌≡◌, ◌≤◌, is_some, map, IfSome, length};
ghost use Rattle.std.specs.List.{list_all};
ghost use Rattle.bn_model.specs.Launching.{has_source, with_source};
ghost use Rattle.bn_model.specs.Rows.{enclaves};

use arrayvec::ArrayVec;
use bn_table::Table;
use bn_types::{Decl, Digest, ModId, Sort};

/// The declarations with the id of the offering module in each acceptance. None where no live
/// module offers an accepted page to this identity with these rights.
pub fn source_all(table: &Table, who: &Digest, decls: &[Decl]) -> Option<ArrayVec<Decl, 64>>
    requires { length decls.now ≤ 64 }
    ensures offered { is_some result ≡ list_all (has_source (enclaves table.now.rows) who.now)
        decls.now }
    ensures decls { IfSome result (λ sourced. sourced.items ≡ map
        (with_source (enclaves table.now.rows) who.now) decls.now) }
{
    let mut sourced = ArrayVec::new();
    for decl in decls {
        match source(table, who, decl) {
            Some(one) => sourced.push(one),
            None => return None,
        }
    }
    Some(sourced)
}

#[tactic(auto, unfolding(bn_model::specs::Launching::has_source, bn_model::specs::Launching::with_source))]
fn source(table: &Table, who: &Digest, decl: &Decl) -> Option<Decl>
    ensures offered { is_some result ≡ has_source (enclaves table.now.rows) who.now decl.now }
    ensures decl { IfSome result (λ sourced. sourced ≡ with_source (enclaves table.now.rows)
        who.now decl.now) }
{
    match decl.sort {
        Sort::Private | Sort::Offer => Some(from(decl, ModId(0))),
        Sort::Accept => match table.offer(decl.gpn, who, decl.rights) {
            Some(id) => Some(from(decl, id)),
            None => None,
        },
    }
}

fn from(decl: &Decl, source: ModId) -> Decl
    ensures { result ≡ record decl.now { source = source } }
{
    let mut sourced = *decl;
    sourced.source = source;
    sourced
}
