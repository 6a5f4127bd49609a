//! Accesses at translations that are held.
ghost use Rattle.std.specs.Prelude.{◌≡◌, Err, IfOk};
ghost use Rattle.bn_model.specs.Accessing as accessing;
ghost use Rattle.bn_model.specs.Admission.{has_right};
ghost use Rattle.bn_model.specs.Walking as walking;
ghost use Rattle.bn_unit.specs.Holding.{key_of, landing_held, place_held};
ghost use Rattle.bn_unit.specs.Memory.{place_at};

use crate::spot::Spot;
use bn_tlb::{Entry, Key};
use bn_types::{Asker, Cause, Fault, Gpn, Kind, Rights, Vpn};
use g_walk::permit_by_flags;

/// What the translation of an address is held under for the one who asks.
#[inline(always)]
pub fn key_in(who: &Asker, va: u64) -> Key
    ensures { result ≡ key_of who.now va }
{
    Key {
        module: who.module,
        satp: who.satp,
        vpn: Vpn(va >> 12),
    }
}

/// How an access of the kind to an address comes out by a translation of its page: permitted by the
/// leaf's flags and the present mode, SUM and MXR, and admitted by the rights.
#[inline(always)]
pub fn judge(entry: &Entry, who: &Asker, kind: Kind, va: u64) -> Result<Spot, Fault>
    ensures place { place_at va result ≡ place_held entry.now who.now kind va }
    ensures spot { IfOk result (λ spot.
        (spot.page ≡ entry.now.page) × (spot.frame ≡ entry.now.frame)) }
{
    if !is_permitted(entry, who, kind) {
        return Err(fault_at(va, page_fault(kind)));
    }
    if !holds(entry.rights, kind) {
        return Err(denial_of(va, kind, entry.page));
    }
    Ok(Spot {
        page: entry.page,
        frame: entry.frame,
    })
}

#[inline(always)]
fn is_permitted(entry: &Entry, who: &Asker, kind: Kind) -> bool
    ensures { result
        ≡ walking.permits (landing_held entry.now) kind who.now.mode who.now.sum who.now.mxr }
{
    entry.bare || permit_by_flags(entry.flags, kind, who.mode, who.sum, who.mxr)
}

/// Whether the rights hold the kind.
#[inline(always)]
fn holds(rights: Rights, kind: Kind) -> bool
    ensures { result ≡ has_right kind rights }
{
    match kind {
        Kind::Load => rights.0 % 2 == 1,
        Kind::Store => (rights.0 >> 1) % 2 == 1,
        Kind::Fetch => (rights.0 >> 2) % 2 == 1,
    }
}

fn page_fault(kind: Kind) -> Cause
    ensures { result ≡ walking.page_fault kind }
{
    match kind {
        Kind::Fetch => Cause(12),
        Kind::Load => Cause(13),
        Kind::Store => Cause(15),
    }
}

pub fn access_fault(kind: Kind) -> Cause
    ensures { result ≡ walking.access_fault kind }
{
    match kind {
        Kind::Fetch => Cause(1),
        Kind::Load => Cause(5),
        Kind::Store => Cause(7),
    }
}

/// An access to the address that failed for this cause. No page was denied.
pub fn fault_at(va: u64, cause: Cause) -> Fault
    ensures { Err result ≡ accessing.fault cause va }
{
    Fault {
        cause,
        va,
        denied: None,
    }
}

/// An access of a kind to the address that the rule of admission refused, since it reaches this
/// page.
pub fn denial_of(va: u64, kind: Kind, page: Gpn) -> Fault
    ensures { Err result ≡ accessing.denial kind va page.0 }
{
    Fault {
        cause: access_fault(kind),
        va,
        denied: Some(page),
    }
}
