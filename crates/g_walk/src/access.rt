ghost use Rattle.std.specs.Prelude.{◌≡◌, ℕ, ◌+◌, ◌*◌, ◌≤◌, ◌<◌, ◌^◌, false, length, IfOk};
ghost use Rattle.bn_model.specs.CsrFile.{HasMode};
ghost use Rattle.bn_model.specs.Walking.{access_fault, page_fault, tables_read, walk_of};
ghost use Rattle.bn_model.specs.WalkLaws.{AllFree};
ghost use Rattle.g_walk.specs.Answers.{walk_result};

use crate::{Leaf, LeafFault, leaf, permit};
use bn_types::{Cause, Kind, Mode, Pages, Steps};
use std::sync::ledger::Ledger;

/// The walk of an access to the virtual address `va` by `satp`, of the kind and in the mode, with
/// SUM and MXR of `sstatus` as given: the leaf, where it permits the access (Privileged ISA,
/// "Virtual Address Translation Process").
///
/// `satp` has MODE 0 (Bare) or 8 (Sv39), and there are at most 2^32 pages. The error is the access
/// fault
/// of the kind (1, 5, 7) where a table entry lies on a page that isn't free, and else the page
/// fault of the
/// kind (12, 13, 15). Each entry that is read costs four steps, so a walk at most twelve.
#[inline(always)]
pub fn walk<P: Pages, L: Ledger>(
    pages: &P,
    satp: u64,
    va: u64,
    kind: Kind,
    mode: Mode,
    sum: bool,
    mxr: bool,
    steps: &mut Steps<L>,
) -> Result<Leaf, Cause>
    requires mode { HasMode satp }
    requires few { length (P.visible pages.now) ≤ 2 ^ 32 }
    ensures walk { walk_result result ≡ walk_of (P.visible pages.now) satp va kind mode sum mxr }
    ensures steps { steps.new ≡ steps.old + 4 * length (tables_read (P.visible pages.now) satp va) }
    ensures few_steps { steps.new ≤ steps.old + 12 }
    ensures leaf_steps { IfOk result (λ leaf.
        steps.new ≡ steps.old + 4 * length leaf.tables.items) }
    ensures free { IfOk result (λ leaf. AllFree (P.visible pages.now) leaf.tables.items) }
    ensures ppn { IfOk result (λ leaf. leaf.bare ≡ false → leaf.ppn < 2 ^ 44) }
{
    match leaf(pages, satp, va, steps) {
        Ok(leaf) if permit(&leaf, kind, mode, sum, mxr) => Ok(leaf),
        Ok(_) | Err(LeafFault::Page) => Err(page_fault_of(kind)),
        Err(LeafFault::Refused) => Err(access_fault_of(kind)),
    }
}

fn page_fault_of(kind: Kind) -> Cause
    ensures { result ≡ page_fault kind }
{
    match kind {
        Kind::Fetch => Cause(12),
        Kind::Load => Cause(13),
        Kind::Store => Cause(15),
    }
}

fn access_fault_of(kind: Kind) -> Cause
    ensures { result ≡ access_fault kind }
{
    match kind {
        Kind::Fetch => Cause(1),
        Kind::Load => Cause(5),
        Kind::Store => Cause(7),
    }
}
