ghost use Rattle.std.specs.Prelude.{◌≡◌, ◌≢◌, ◌+◌, ◌*◌, ◌<◌, ◌≤◌, ◌^◌, ◌||◌, false, is_some, map};
ghost use Rattle.std.specs.Prelude.{IfSome, length};
ghost use Rattle.std.specs.List.{list_all, list_any};
ghost use Rattle.bn_types.specs.Visible.{state_at};
ghost use Rattle.bn_types.specs.declared.page_state.PageState.TheVariants as page_state;
ghost use Rattle.bn_model.specs.CsrFile.{HasMode};
ghost use Rattle.bn_model.specs.Launching.{decl_of, have_alias, is_owned_state, is_reached};
ghost use Rattle.bn_model.specs.Launching.{is_same_page, takes_owned};
ghost use Rattle.bn_model.specs.Owners.{is_own};
ghost use Rattle.bn_launch.specs.Readable.{AreTheirs, HaveVpns, LieInRam};

use crate::reading::reach;
use arrayvec::ArrayVec;
use bn_types::{Decl, ModId, PageState, Pages, SegPage, Sort, Steps};
use std::sync::ledger::Ledger;

/// A declaration for each page of a segment, with the page to which its virtual page leads. None
/// where one leads to no page of RAM.
pub fn declare_all<P: Pages, L: Ledger>(
    pages: &P,
    satp: u64,
    declared: &[SegPage],
    steps: &mut Steps<L>,
) -> Option<ArrayVec<Decl, 64>>
    requires mode { HasMode satp }
    requires ram { length (P.visible pages.now) ≤ 4096 }
    requires few { length declared.now ≤ 64 }
    requires vpns { HaveVpns declared.now }
    ensures reached { is_some result ≡ list_all (is_reached (P.visible pages.now) satp)
        declared.now }
    ensures decls { IfSome result (λ decls. decls.items ≡ map (decl_of (P.visible pages.now) satp)
        declared.now) }
    ensures inside { IfSome result (λ decls. LieInRam (P.visible pages.now) decls.items) }
{
    let mut decls = ArrayVec::new();
    for page in declared {
        match declare(pages, satp, page, steps) {
            Some(decl) => decls.push(decl),
            None => return None,
        }
    }
    Some(decls)
}

#[tactic(auto, unfolding(bn_model::specs::Launching::is_reached, bn_model::specs::Launching::decl_of))]
fn declare<P: Pages, L: Ledger>(
    pages: &P,
    satp: u64,
    page: &SegPage,
    steps: &mut Steps<L>,
) -> Option<Decl>
    requires mode { HasMode satp }
    requires ram { length (P.visible pages.now) ≤ 4096 }
    requires vpn { page.now.vpn.0 < 2 ^ 52 }
    ensures reached { is_some result ≡ is_reached (P.visible pages.now) satp page.now }
    ensures decl { IfSome result (λ decl. decl ≡ decl_of (P.visible pages.now) satp page.now) }
    ensures inside { IfSome result (λ decl. state_at (P.visible pages.now) decl.gpn.0 ≢
        page_state.Outside) }
{
    match reach(pages, satp, page.vpn.0 * 4096, steps) {
        Some(gpn) => Some(Decl {
            vpn: page.vpn,
            gpn,
            sort: page.sort,
            rights: page.rights,
            mask: page.mask,
            source: ModId(0),
        }),
        None => None,
    }
}

/// Whether one of the module's own pages has owners.
pub fn take_owned<P: Pages>(pages: &P, decls: &[Decl]) -> bool
    ensures { result ≡ list_any (takes_owned (P.visible pages.now)) decls.now }
{
    decls.iter().any(|decl| is_taken(pages, decl))
}

#[tactic(auto, unfolding(bn_model::specs::Launching::takes_owned))]
fn is_taken<P: Pages>(pages: &P, decl: &Decl) -> bool
    ensures { result ≡ takes_owned (P.visible pages.now) decl.now }
{
    is_own_sort(decl.sort) && is_owned_by_state(pages.state(decl.gpn))
}

/// Whether the module's own pages have the sort.
pub fn is_own_sort(sort: Sort) -> bool
    ensures { result ≡ is_own sort }
{
    match sort {
        Sort::Private | Sort::Offer => true,
        Sort::Accept => false,
    }
}

fn is_owned_by_state(state: PageState) -> bool
    ensures { result ≡ is_owned_state state }
{
    match state {
        PageState::Owned => true,
        PageState::Outside | PageState::Free => false,
    }
}

/// Whether two declarations reach one guest page.
#[tactic(auto, unfolding(bn_model::specs::Launching::have_alias))]
pub fn reach_twice(decls: &[Decl]) -> bool
    ensures { result ≡ have_alias decls.now }
{
    match decls {
        [] => false,
        [first, rest @ ..] => is_reached_in(first.gpn.0, rest) || reach_twice(rest),
    }
}

fn is_reached_in(page: u32, decls: &[Decl]) -> bool
    ensures { result ≡ list_any (is_same_page page) decls.now }
{
    decls.iter().any(|decl| decl.gpn.0 == page)
}
