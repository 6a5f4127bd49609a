ghost use Rattle.std.specs.Prelude.{◌≡◌, ◌==◌, ℕ, ◌+◌, ◌<◌, ◌≤◌, IfOk, count_by, length, not};
ghost use Rattle.std.specs.Prelude.{replicate, slice_index};
ghost use Rattle.bn_model.specs.Launching.{is_same_page};
ghost use Rattle.bn_shadow.specs.Counting.{LieInRam};

use arrayvec::ArrayVec;
use bn_types::{Decl, Gpn, NoMemory};
use std::alloc::Global;

/// A count of 0 for each page.
pub fn zero_counts(alloc: Global, pages: u32) -> Result<Vec<u16>, NoMemory>
    ensures { IfOk result (λ counts. counts.items ≡ replicate pages 0) }
{
    let Ok(mut counts) = Vec::with_capacity(alloc, pages as usize) else {
        return Err(NoMemory);
    };
    for _page in 0..pages {
        if counts.push(0).is_err() {
            return Err(NoMemory);
        }
    }
    Ok(counts)
}

/// Whether the page has declarations. A page past RAM has none.
#[tactic(auto, using(std::proofs::lemmas::List::get_or_past))]
pub fn is_counted(counts: &[u16], page: Gpn) -> bool
    ensures { result ≡ not (slice_index counts.now page.0 == 0) }
{
    let page = page.0 as usize;
    page < counts.len() && counts[page] != 0
}

/// Counts declarations in.
pub fn count_row(counts: &mut Vec<u16>, decls: &[Decl])
    requires inside { LieInRam (length counts.old.items) decls.now }
    requires room { (page : ℕ) → slice_index counts.old.items page + length decls.now < 65536 }
    ensures counts { (page : ℕ) → slice_index counts.new.items page ≡ slice_index counts.old.items
        page + count_by (is_same_page page) decls.now }
    ensures pages { length counts.new.items ≡ length counts.old.items }
{
    count_up(counts.as_mut_slice(), decls);
}

fn count_up(counts: &mut [u16], decls: &[Decl])
    requires inside { LieInRam (length counts.old) decls.now }
    requires room { (page : ℕ) → slice_index counts.old page + length decls.now < 65536 }
    ensures { (page : ℕ) → slice_index counts.new page ≡ slice_index counts.old page + count_by
        (is_same_page page) decls.now }
{
    for decl in decls {
        counts[decl.gpn.0 as usize] += 1;
    }
}

/// Counts declarations out.
pub fn count_down(counts: &mut [u16], decls: &[Decl])
    requires { (page : ℕ) → count_by (is_same_page page) decls.now ≤ slice_index counts.old page }
    ensures { (page : ℕ) → slice_index counts.new page + count_by (is_same_page page) decls.now
        ≡ slice_index counts.old page }
{
    for decl in decls {
        counts[decl.gpn.0 as usize] -= 1;
    }
}

/// The same declarations.
pub fn copy_of(decls: &[Decl]) -> ArrayVec<Decl, 64>
    requires { length decls.now ≤ 64 }
    ensures items { result.items ≡ decls.now }
    ensures few { length result.items ≤ 64 }
{
    let mut copy = ArrayVec::new();
    for decl in decls {
        copy.push(*decl);
    }
    copy
}
