ghost use Rattle.std.specs.Prelude.{◌≡◌};
ghost use Rattle.std.specs.List.{list_any};
ghost use Rattle.bn_model.specs.Evicting as flat;
ghost use Rattle.bn_model.specs.Owners as owners;
ghost use Rattle.bn_model.specs.Owners.{claims};
ghost use Rattle.bn_shadow.specs.Counting.{gives_up, is_own_on};

use bn_model::Owner;
use bn_types::{Decl, Gpn, ModId, Row, Sort};

/// Whether the page is a private or offered page of a module whose row goes.
#[tactic(auto, using(crate::proofs::GivingLemmas::any_claim))]
pub fn is_given_up(live: &[Owner], gone: &[Row], page: Gpn) -> bool
    ensures { result ≡ list_any (flat.is_given_up gone.now page.0) (claims live.now) }
{
    is_given_up_by_any(live, gone, page)
}

fn is_given_up_by_any(live: &[Owner], gone: &[Row], page: Gpn) -> bool
    ensures { result ≡ list_any (gives_up gone.now page.0) live.now }
{
    live.iter().any(|owner| is_given_up_by(owner, gone, page))
}

#[tactic(auto, using(crate::proofs::GivingLemmas::any_decl))]
fn is_given_up_by(owner: &Owner, gone: &[Row], page: Gpn) -> bool
    ensures { result ≡ gives_up gone.now page.0 owner.now }
{
    is_among(gone, owner.id) && has_own(&owner.decls, page)
}

fn is_among(gone: &[Row], id: ModId) -> bool
    ensures { result ≡ flat.is_among gone.now id.0 }
{
    gone.iter().any(|row| row.id.0 == id.0)
}

fn has_own(decls: &[Decl], page: Gpn) -> bool
    ensures { result ≡ list_any (is_own_on page.0) decls.now }
{
    decls
        .iter()
        .any(|decl| is_own(decl.sort) && decl.gpn.0 == page.0)
}

fn is_own(sort: Sort) -> bool
    ensures { result ≡ owners.is_own sort }
{
    match sort {
        Sort::Private | Sort::Offer => true,
        Sort::Accept => false,
    }
}
