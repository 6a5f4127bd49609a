//! What modules that go leave of memory.
ghost use Rattle.std.specs.Prelude.{◌≡◌, ◌+◌, ◌<◌, List, slice_set, true};
ghost use Rattle.bn_types.specs.Numbers.{page_at, zero_page};
ghost use Rattle.bn_types.specs.declared.row.Row.{Row};
ghost use Rattle.bn_model.specs.Evicting.{page_left, pages_left, rows_left};
ghost use Rattle.bn_model.specs.Nesting.{IsNested, contents};
ghost use Rattle.bn_model.specs.Owners.{is_owned};
ghost use Rattle.bn_model.specs.Rows.{owners};
ghost use Rattle.bn_shadow.specs.Counting.{owners_left};
ghost use Rattle.bn_unit.specs.Dropping.{AreOffered, cache_if, cache_left, cache_of_others};
ghost use Rattle.bn_unit.specs.Dropping.{is_left_by};

use crate::Unit;
use bn_shadow::Shadow;
use bn_tlb::Tlb;
use bn_types::{Gpn, Row, Steps};
use std::sync::ledger::Ledger;

impl Unit {
    /// Takes out what the modules of these rows declare, and zeroes their private and offered
    /// pages, at a cost of three steps for each page. A page that is accepted from a live module is
    /// that module's own. Each translation, of any hart, leaves that leads to one of the zeroed
    /// pages or whose walk read one, and each that is held for one of the modules.
    pub fn release<L: Ledger>(&mut self, gone: &[Row], steps: &mut Steps<L>)
        requires offered { AreOffered self.old.live }
        ensures pages { contents self.new.nest ≡ pages_left gone.now self.old.live
            (contents self.old.nest) }
        ensures live { (rows : List Row) → self.old.live ≡ owners rows
            → self.new.live ≡ owners (rows_left gone.now rows) }
        ensures nested { IsNested self.new.nest }
        ensures ram { self.new.nest.ram ≡ self.old.nest.ram }
        ensures cache { self.new.cache ≡ cache_of_others gone.now
            (cache_left gone.now self.old.live self.old.nest.ram self.old.cache) }
        ensures harts { self.new.cache.harts ≡ self.old.cache.harts }
    {
        self.zero_pages(gone, steps);
        let ram_pages = self.ram_pages();
        drop_left(&mut self.tlb, &self.shadow, gone, ram_pages);
        drop_modules(&mut self.tlb, gone);
        drop_rows(&mut self.shadow, gone);
    }

    fn zero_pages<L: Ledger>(&mut self, gone: &[Row], steps: &mut Steps<L>)
        ensures pages { contents self.new.nest ≡ pages_left gone.now self.old.live
            (contents self.old.nest) }
        ensures live { self.new.live ≡ self.old.live }
        ensures cache { self.new.cache ≡ self.old.cache }
        ensures nested { IsNested self.new.nest }
        ensures ram { self.new.nest.ram ≡ self.old.nest.ram }
    {
        // For the prover: what holds of every unit.
        self.facts();
        for page in 0..self.ram_pages() {
            self.zero_if_given_up(gone, Gpn(page), steps);
        }
    }

    #[tactic(auto, using(crate::proofs::Releasing::set_same))]
    fn zero_if_given_up<L: Ledger>(&mut self, gone: &[Row], page: Gpn, steps: &mut Steps<L>)
        requires inside { page.0 < self.old.nest.ram }
        ensures pages { let pages = contents self.old.nest in contents self.new.nest
            ≡ slice_set pages page.0
            (page_left gone.now self.old.live page.0 (page_at pages page.0)) }
        ensures live { self.new.live ≡ self.old.live }
        ensures cache { self.new.cache ≡ self.old.cache }
        ensures nested { IsNested self.new.nest }
        ensures ram { self.new.nest.ram ≡ self.old.nest.ram }
    {
        if self.shadow.gives_up(gone, page) {
            self.zero_page(page, steps);
        } else {
            // For the prover: what holds of every unit.
            self.facts();
        }
    }

    /// Zeroes a page of RAM that a live module declares.
    pub(super) fn zero_page<L: Ledger>(&mut self, page: Gpn, steps: &mut Steps<L>)
        requires inside { page.0 < self.old.nest.ram }
        requires owned { is_owned self.old.live page.0 ≡ true }
        ensures pages { contents self.new.nest
            ≡ slice_set (contents self.old.nest) page.0 zero_page }
        ensures live { self.new.live ≡ self.old.live }
        ensures cache { self.new.cache ≡ self.old.cache }
        ensures nested { IsNested self.new.nest }
        ensures ram { self.new.nest.ram ≡ self.old.nest.ram }
        ensures read { steps.new ≡ steps.old + 3 }
    {
        let frame = self.frame_of(page, steps);
        self.nest.zero(frame);
    }
}

/// Drops what leads to a page that the modules of these rows leave, or was walked through one.
fn drop_left(tlb: &mut Tlb, shadow: &Shadow, gone: &[Row], ram_pages: u32)
    ensures { tlb.new ≡ cache_left gone.now shadow.now.live ram_pages tlb.old }
{
    for page in 0..ram_pages {
        drop_if_left(tlb, shadow, gone, Gpn(page));
    }
}

fn drop_if_left(tlb: &mut Tlb, shadow: &Shadow, gone: &[Row], page: Gpn)
    ensures { tlb.new ≡ cache_if (is_left_by gone.now shadow.now.live page.0) page.0 tlb.old }
{
    if shadow.gives_up(gone, page) {
        tlb.drop_page(page);
    }
}

/// Drops what the modules of these rows held.
fn drop_modules(tlb: &mut Tlb, gone: &[Row])
    ensures { tlb.new ≡ cache_of_others gone.now tlb.old }
{
    for row in gone {
        tlb.drop_module(row.id);
    }
}

fn drop_rows(shadow: &mut Shadow, gone: &[Row])
    ensures live { shadow.new.live ≡ owners_left gone.now shadow.old.live }
    ensures ram { shadow.new.ram ≡ shadow.old.ram }
{
    for row in gone {
        shadow.drop_row(row);
    }
}
