//! Marks of pages.
ghost use Rattle.std.specs.Prelude.{◌≡◌, ℕ, IfOk, false, replicate, slice_set, true};
ghost use Rattle.bn_tlb.specs.Marking.{AreMarked, is_marked as marked};

use bn_types::{Gpn, NoMemory};
use std::alloc::Global;

/// RAM has at most so many pages.
const PAGES: usize = 4096;

/// No page is marked.
pub fn no_marks(alloc: Global) -> Result<Vec<bool>, NoMemory> {
    let Ok(mut marks) = Vec::with_capacity(alloc, PAGES) else {
        return Err(NoMemory);
    };
    for _page in 0..PAGES {
        if marks.push(false).is_err() {
            return Err(NoMemory);
        }
    }
    Ok(marks)
}

/// Whether the page is marked, or lies past the marks.
#[inline(always)]
pub fn is_marked(marks: &[bool], page: Gpn) -> bool
    ensures { result ≡ marked marks.now page.0 }
{
    let page = page.0 as usize;
    page >= marks.len() || marks[page]
}

/// Marks each of the pages.
pub fn mark_all(marks: &mut Vec<bool>, pages: &[Gpn])
    ensures marked { AreMarked marks.new.items pages.now }
    ensures kept { (page : ℕ) → marked marks.old.items page ≡ true
        → marked marks.new.items page ≡ true }
{
    for page in pages {
        set_mark(marks, page.0 as usize, true);
    }
}

/// Takes the mark of the page away.
pub fn clear(marks: &mut Vec<bool>, page: Gpn)
    ensures { marks.new.items ≡ slice_set marks.old.items page.0 false }
{
    set_mark(marks, page.0 as usize, false);
}

fn set_mark(marks: &mut Vec<bool>, page: usize, mark: bool)
    ensures { marks.new.items ≡ slice_set marks.old.items page mark }
{
    if page < marks.len() {
        marks[page] = mark;
    }
}
