ghost use Rattle.std.specs.Prelude.{◌≡◌, ℕ, ◌+◌, ◌*◌, ◌<◌, ◌≤◌, ◌^◌, ◌%◌, ◌++◌, Ok, Some, []};
ghost use Rattle.std.specs.Prelude.{false, length, IfOk, IfSome, IfNone};
ghost use Rattle.bn_model.specs.CsrFile.{HasMode};
ghost use Rattle.bn_model.specs.Walking.{entry_at, guest_page, index_of, is_canonical, landing_of};
ghost use Rattle.bn_model.specs.Walking.{leaf_end, leaf_of, tables_read, walk_bare, walk_from};
ghost use Rattle.bn_model.specs.WalkLaws.{AllFree};
ghost use Rattle.g_walk.specs.Answers.{end_of, landing, leaf_result, table_entry};
ghost use Rattle.g_walk.specs.declared.descent.Descent.TheVariants.{Found};

use crate::descent::Descent;
use crate::entry::{EntryKind, kind_of, ppn_in};
use crate::{Leaf, LeafFault};
use arrayvec::ArrayVec;
use bn_types::{Gpn, Pages, Steps};
use std::sync::ledger::Ledger;

/// A word of a table, and the page that it lies on.
#[derive(Clone, Copy)]
struct TableEntry {
    page: Gpn,
    word: u64,
}

/// Where the tables end: the physical page number, and bits 7:0 of the leaf entry.
#[derive(Clone, Copy)]
struct WalkEnd {
    ppn: u64,
    flags: u8,
}

/// The structural walk of the virtual address `va` by `satp`: the leaf that the tables lead to,
/// without tests of permission, A and D (Privileged ISA, "Virtual Address Translation Process"). In
/// Bare it is the address's own page.
///
/// `satp` has MODE 0 (Bare) or 8 (Sv39), and there are at most 2^32 pages. `Page`: bits 63:39 of
/// the
/// address don't equal bit 38, or an entry on the way is invalid. `Refused`: an entry on the way
/// lies on a
/// page that isn't free. Each entry that is read costs four steps, so a walk at most twelve.
#[tactic(auto, unfolding(bn_model::specs::Walking::walked))]
pub fn leaf<P: Pages, L: Ledger>(
    pages: &P,
    satp: u64,
    va: u64,
    steps: &mut Steps<L>,
) -> Result<Leaf, LeafFault>
    requires mode { HasMode satp }
    requires few { length (P.visible pages.now) ≤ 2 ^ 32 }
    ensures leaf { leaf_result result ≡ leaf_of (P.visible pages.now) satp va }
    ensures steps { steps.new ≡ steps.old + 4 * length (tables_read (P.visible pages.now) satp va) }
    ensures few_steps { steps.new ≤ steps.old + 12 }
    ensures leaf_steps { IfOk result (λ leaf.
        steps.new ≡ steps.old + 4 * length leaf.tables.items) }
    ensures free { IfOk result (λ leaf. AllFree (P.visible pages.now) leaf.tables.items) }
    ensures ppn { IfOk result (λ leaf. leaf.bare ≡ false → leaf.ppn < 2 ^ 44) }
{
    if satp >> 60 == 0 {
        return Ok(in_bare(va));
    }
    if !is_canonical(va) {
        return Err(LeafFault::Page);
    }
    walk_tables(pages, va, satp % (1 << 44), steps)
}

/// The leaf that the tables lead to, from the root's page on.
fn walk_tables<P: Pages, L: Ledger>(
    pages: &P,
    va: u64,
    root: u64,
    steps: &mut Steps<L>,
) -> Result<Leaf, LeafFault>
    requires few { length (P.visible pages.now) ≤ 2 ^ 32 }
    ensures leaf { let walk = walk_from (P.visible pages.now) va 2 root in
        leaf_result result ≡ landing_of walk.tables walk.found }
    ensures steps { steps.new ≡ steps.old
        + 4 * length (walk_from (P.visible pages.now) va 2 root).tables }
{
    let mut tables = ArrayVec::new();
    let mut end = WalkEnd { ppn: 0, flags: 0 };
    match descend(pages, va, 2, root, &mut tables, &mut end, steps) {
        Descent::Found => Ok(Leaf {
            ppn: end.ppn,
            flags: end.flags,
            bare: false,
            tables,
        }),
        Descent::NoLeaf => Err(LeafFault::Page),
        Descent::Refused => Err(LeafFault::Refused),
    }
}

/// The address's own page.
fn in_bare(va: u64) -> Leaf
    ensures { Ok (landing result) ≡ landing_of [] (walk_bare va).found }
{
    Leaf {
        ppn: va >> 12,
        flags: 0,
        bare: true,
        tables: ArrayVec::new(),
    }
}

/// Whether bits 63:39 equal bit 38.
fn is_canonical(va: u64) -> bool
    ensures { result ≡ is_canonical va }
{
    let high = va >> 38;
    high == 0 || high == (1 << 26) - 1
}

/// The index of the address's entry in a table of the level.
fn index_in(va: u64, level: u8) -> u16
    requires { level ≤ 2 }
    ensures { result ≡ index_of level va }
{
    ((va >> 12 >> (9 * level)) % 512) as u16
}

/// The guest page of a physical page, where its number fits.
fn guest_page_of(ppn: u64) -> Option<Gpn>
    ensures page { IfSome result (λ page. guest_page ppn ≡ Some page.0) }
    ensures outside { IfNone result (IfSome (guest_page ppn) (λ page. 2 ^ 32 ≤ page)) }
{
    if ppn < 0x80000 || ppn - 0x80000 > u32::MAX as u64 {
        None
    } else {
        Some(Gpn((ppn - 0x80000) as u32))
    }
}

/// The entry for the address in the table of a level, on the page with number `ppn`.
fn read_entry<P: Pages, L: Ledger>(
    pages: &P,
    va: u64,
    level: u8,
    ppn: u64,
    steps: &mut Steps<L>,
) -> Option<TableEntry>
    requires level { level ≤ 2 }
    requires few { length (P.visible pages.now) ≤ 2 ^ 32 }
    ensures entry { table_entry level result ≡ entry_at (P.visible pages.now) va level ppn }
    ensures none { IfNone result (steps.new ≡ steps.old) }
    ensures some { IfSome result (λ _. steps.new ≡ steps.old + 4) }
{
    let page = guest_page_of(ppn)?;
    let word = pages.word(page, 8 * index_in(va, level), steps)?;
    Some(TableEntry { page, word })
}

/// What the walk finds at a leaf entry of the level. A superpage takes its low page number from the
/// address.
fn end_at(va: u64, level: u8, entry: u64) -> WalkEnd
    requires { level ≤ 2 }
    ensures { end_of Found result ≡ Ok (leaf_end va level entry) }
{
    WalkEnd {
        ppn: ppn_in(entry) + (va >> 12) % (1 << (9 * level)),
        flags: (entry % 256) as u8,
    }
}

/// Walks on from the table of a level, on the page with number `ppn`, and appends the pages whose
/// entries it reads to those that were read. Where it finds a leaf, that is the end.
///
/// It answers by one small value, so that its call of itself comes last and costs no frame.
fn descend<P: Pages, L: Ledger>(
    pages: &P,
    va: u64,
    level: u8,
    ppn: u64,
    tables: &mut ArrayVec<Gpn, 3>,
    end: &mut WalkEnd,
    steps: &mut Steps<L>,
) -> Descent
    requires room { length tables.old.items + level ≤ 2 }
    requires few { length (P.visible pages.now) ≤ 2 ^ 32 }
    ensures leaf { end_of result end.new ≡ (walk_from (P.visible pages.now) va level ppn).found }
    ensures tables { tables.new.items ≡ tables.old.items
        ++ (walk_from (P.visible pages.now) va level ppn).tables }
    ensures steps { steps.new ≡ steps.old
        + 4 * length (walk_from (P.visible pages.now) va level ppn).tables }
{
    let Some(entry) = read_entry(pages, va, level, ppn, steps) else {
        return Descent::Refused;
    };
    tables.push(entry.page);
    match kind_of(level, entry.word) {
        EntryKind::Invalid => Descent::NoLeaf,
        EntryKind::Leaf => {
            *end = end_at(va, level, entry.word);
            Descent::Found
        }
        EntryKind::Pointer => descend(pages, va, level - 1, ppn_in(entry.word), tables, end, steps),
    }
}
