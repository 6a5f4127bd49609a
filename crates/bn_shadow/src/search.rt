ghost use Rattle.std.specs.Prelude.{◌≡◌, ◌<◌, find};
ghost use Rattle.std.specs.Option.{option_copied};
ghost use Rattle.bn_model.specs.Admission.{declaration, declared_by, has_right, is_at, is_backed};
ghost use Rattle.bn_model.specs.Admission.{may_leave};
ghost use Rattle.bn_model.specs.Bits.{is_set};
ghost use Rattle.bn_model.specs.Owners.{is_live, is_module};

use bn_model::Owner;
use bn_types::{Decl, Kind, ModId, Rights, Sort, Vpn};

/// What a module declares of a virtual page.
pub fn declaration_in(live: &[Owner], module: ModId, vpn: Vpn) -> Option<Decl>
    ensures { result ≡ declaration live.now «module».0 vpn.0 }
{
    if module.0 == 0 {
        return None;
    }
    declared_of(owner_in(live, module), vpn)
}

fn owner_in(live: &[Owner], module: ModId) -> Option<&Owner>
    ensures { option_copied result ≡ find (is_module «module».0) live.now }
{
    live.iter().find(|owner| owner.id.0 == module.0)
}

fn declared_of(owner: Option<&Owner>, vpn: Vpn) -> Option<Decl>
    ensures { result ≡ declared_by vpn.0 (option_copied owner.entry) }
{
    match owner {
        Some(owner) => decl_at(&owner.decls, vpn),
        None => None,
    }
}

fn decl_at(decls: &[Decl], vpn: Vpn) -> Option<Decl>
    ensures { result ≡ find (is_at vpn.0) decls.now }
{
    copied(decl_in(decls, vpn))
}

fn decl_in(decls: &[Decl], vpn: Vpn) -> Option<&Decl>
    ensures { option_copied result ≡ find (is_at vpn.0) decls.now }
{
    decls.iter().find(|decl| decl.vpn.0 == vpn.0)
}

fn copied(decl: Option<&Decl>) -> Option<Decl>
    ensures { result ≡ option_copied decl.entry }
{
    match decl {
        Some(decl) => Some(*decl),
        None => None,
    }
}

/// Whether an acceptance's source is live; a declaration of another sort needs none.
pub fn is_sourced(live: &[Owner], sort: Sort, source: ModId) -> bool
    ensures { result ≡ is_backed live.now sort source.0 }
{
    match sort {
        Sort::Private | Sort::Offer => true,
        Sort::Accept => is_among(live, source),
    }
}

fn is_among(live: &[Owner], id: ModId) -> bool
    ensures { result ≡ is_live live.now id.0 }
{
    live.iter().any(|owner| owner.id.0 == id.0)
}

/// Whether the rights hold the kind.
pub fn holds(rights: Rights, kind: Kind) -> bool
    ensures { result ≡ has_right kind rights }
{
    match kind {
        Kind::Load => has_bit(rights.0, 0),
        Kind::Store => has_bit(rights.0, 1),
        Kind::Fetch => has_bit(rights.0, 2),
    }
}

fn has_bit(bits: u8, index: u32) -> bool
    requires { index < 8 }
    ensures { result ≡ is_set bits index }
{
    (bits >> index) % 2 == 1
}

/// Whether a module may access pages that no module declares.
pub fn is_free_to_leave(module: ModId, kind: Kind) -> bool
    ensures { result ≡ may_leave «module».0 kind }
{
    match kind {
        Kind::Fetch => module.0 == 0,
        Kind::Load | Kind::Store => true,
    }
}
