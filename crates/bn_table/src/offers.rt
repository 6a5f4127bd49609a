ghost use Rattle.std.specs.Prelude.{◌≡◌, ◌≤◌, ◌<◌, find, length};
ghost use Rattle.std.specs.List.{list_any};
ghost use Rattle.std.specs.Option.{option_copied};
ghost use Rattle.bn_model.specs.Bits.{is_set};
ghost use Rattle.bn_model.specs.Launching.{includes, is_named_partner, is_offer, is_offered};
ghost use Rattle.bn_model.specs.Launching.{names_partner, offers};
ghost use Rattle.bn_model.specs.Rows.{enclave_of};
ghost use Rattle.bn_table.specs.Tables.{row_offers};

use crate::search::is_same;
use bn_types::{Decl, Digest, Gpn, Rights, Row, Sort};

/// The row that offers a page to an identity with rights that include these.
pub fn offering_in<'a>(rows: &'a [Row], who: &Digest, page: Gpn, rights: Rights) -> Option<&'a Row>
    ensures { option_copied result ≡ find (row_offers who.now page.0 rights) rows.now }
{
    rows.iter().find(|row| is_offering(row, who, page, rights))
}

#[tactic(auto, unfolding(bn_model::specs::Launching::offers))]
fn is_offering(row: &Row, who: &Digest, page: Gpn, rights: Rights) -> bool
    ensures { result ≡ offers who.now page.0 rights (enclave_of row.now) }
{
    // For the prover: a length read is the length of the list.
    let _partner_count = row.judged.partners.len();
    is_offered_in(&row.judged.decls, &row.judged.partners, who, page, rights)
}

fn is_offered_in(
    decls: &[Decl],
    partners: &[Digest],
    who: &Digest,
    page: Gpn,
    rights: Rights,
) -> bool
    requires { length partners.now ≤ 4 }
    ensures { result ≡ list_any (is_offered partners.now who.now page.0 rights) decls.now }
{
    decls
        .iter()
        .any(|decl| is_offered_by(decl, partners, who, page, rights))
}

#[tactic(auto, unfolding(bn_model::specs::Launching::is_offered))]
fn is_offered_by(decl: &Decl, partners: &[Digest], who: &Digest, page: Gpn, rights: Rights) -> bool
    requires { length partners.now ≤ 4 }
    ensures { result ≡ is_offered partners.now who.now page.0 rights decl.now }
{
    is_offer_sort(decl.sort)
        && decl.gpn.0 == page.0
        && is_included(decl.rights, rights)
        && is_named(decl.mask, partners, who)
}

fn is_offer_sort(sort: Sort) -> bool
    ensures { result ≡ is_offer sort }
{
    match sort {
        Sort::Offer => true,
        Sort::Private | Sort::Accept => false,
    }
}

/// Whether whoever has the outer rights has the inner ones.
#[tactic(auto, unfolding(bn_model::specs::Launching::includes))]
fn is_included(outer: Rights, inner: Rights) -> bool
    ensures { result ≡ includes outer inner }
{
    (!has_bit(inner.0, 0) || has_bit(outer.0, 0))
        && (!has_bit(inner.0, 1) || has_bit(outer.0, 1))
        && (!has_bit(inner.0, 2) || has_bit(outer.0, 2))
}

fn has_bit(bits: u8, index: u32) -> bool
    requires { index < 8 }
    ensures { result ≡ is_set bits index }
{
    (bits >> index) % 2 == 1
}

#[tactic(auto, unfolding(bn_model::specs::Launching::names_partner))]
fn is_named(mask: u8, partners: &[Digest], who: &Digest) -> bool
    requires { length partners.now ≤ 4 }
    ensures { result ≡ names_partner mask partners.now who.now }
{
    (0..partners.len()).any(|i| is_partner(mask, partners, who, i))
}

fn is_partner(mask: u8, partners: &[Digest], who: &Digest, i: usize) -> bool
    requires few { length partners.now ≤ 4 }
    requires inside { i < length partners.now }
    ensures { result ≡ is_named_partner mask partners.now who.now i }
{
    has_bit(mask, i as u32) && is_same(&partners[i], who)
}
