ghost use Rattle.std.specs.Prelude.{◌≡◌};
ghost use Rattle.bn_model.specs.Walking as walking;
ghost use Rattle.g_walk.specs.Answers.{landing};

use crate::Leaf;
use crate::entry::{ACCESSED, DIRTY, EXECUTE, READ, USER, WRITE, is_set};
use bn_types::{Kind, Mode};

/// Whether the leaf permits an access of the kind in the mode, with SUM and MXR of `sstatus` as
/// given: its R, W, X and U, with A set, and D for a store (Privileged ISA, "Virtual Address
/// Translation Process"). In Bare everything is permitted.
pub fn permit(leaf: &Leaf, kind: Kind, mode: Mode, sum: bool, mxr: bool) -> bool
    ensures { result ≡ walking.permits (landing leaf.now) kind mode sum mxr }
{
    leaf.bare || permit_by_flags(leaf.flags, kind, mode, sum, mxr)
}

/// Whether bits 7:0 of a leaf entry permit an access of the kind in the mode, with SUM and MXR of
/// `sstatus` as given (Privileged ISA, "Virtual Address Translation Process").
#[inline(always)]
#[tactic(auto, unfolding(bn_model::specs::Walking::flags_permit))]
pub fn permit_by_flags(flags: u8, kind: Kind, mode: Mode, sum: bool, mxr: bool) -> bool
    ensures { result ≡ walking.flags_permit flags kind mode sum mxr }
{
    let flags = u64::from(flags);
    is_granted(flags, kind, mxr)
        && is_reached(is_set(flags, USER), kind, mode, sum)
        && is_marked(flags, kind)
}

fn is_granted(flags: u64, kind: Kind, mxr: bool) -> bool
    ensures { result ≡ walking.grants kind mxr flags }
{
    match kind {
        Kind::Fetch => is_set(flags, EXECUTE),
        Kind::Load => is_set(flags, READ) || (mxr && is_set(flags, EXECUTE)),
        Kind::Store => is_set(flags, WRITE),
    }
}

fn is_reached(user: bool, kind: Kind, mode: Mode, sum: bool) -> bool
    ensures { result ≡ walking.reaches mode user kind sum }
{
    match mode {
        Mode::U => user,
        Mode::S => !user || (sum && kind != Kind::Fetch),
    }
}

fn is_marked(flags: u64, kind: Kind) -> bool
    ensures { result ≡ walking.is_marked kind flags }
{
    is_set(flags, ACCESSED) && (kind != Kind::Store || is_set(flags, DIRTY))
}
