//! One byte of memory, as devices read and write it.
ghost use Rattle.std.specs.Prelude.{◌≡◌, ℕ, ◌+◌, ◌<◌, ◌≤◌, Some, true};
ghost use Rattle.std.specs.List.{slice_get};
ghost use Rattle.bn_types.specs.Numbers.{page_at};
ghost use Rattle.bn_model.specs.Memory.{visible};
ghost use Rattle.bn_model.specs.Nesting.{IsNested, contents, place};
ghost use Rattle.bn_model.specs.Stepping.{pages_after_poke};
ghost use Rattle.bn_unit.specs.Holding.{after_poke};
ghost use Rattle.bn_unit.specs.Memory.{byte_seen, is_seen, memory_of, words_seen};

use crate::Unit;
use bn_model::Place;
use bn_types::{Gpn, Steps, Width};
use std::sync::ledger::Ledger;

impl Unit {
    /// Reads the byte at the offset, below 4,096, of a page of RAM that no live module owns, at a
    /// cost of three steps. None, at no cost, where the page lies outside RAM or is owned.
    pub fn peek<L: Ledger>(&self, page: Gpn, offset: u16, steps: &mut Steps<L>) -> Option<u8>
        requires { offset < 4096 }
        ensures byte { result ≡ byte_seen (slice_get (visible (memory_of self.now)) page.0)
            offset }
        ensures read { steps.new ≡ steps.old
            + words_seen (slice_get (visible (memory_of self.now)) page.0) }
        ensures few { steps.new ≤ steps.old + 3 }
    {
        if !self.is_seen(page) {
            return None;
        }
        Some(self.read(
            Place { page, offset },
            self.frame_of(page, steps),
            Width::B1,
        ) as u8)
    }

    /// Writes the byte at the offset, below 4,096, of a page of RAM that no live module owns, at a
    /// cost of three steps, and tells whether it did. Each translation, of any hart, leaves whose
    /// walk read the page. Where the page lies outside RAM or is owned, nothing is done, at no
    /// cost.
    pub fn poke<L: Ledger>(
        &mut self,
        page: Gpn,
        offset: u16,
        byte: u8,
        steps: &mut Steps<L>,
    ) -> bool
        requires { offset < 4096 }
        ensures seen { result ≡ is_seen (slice_get (visible (memory_of self.old)) page.0) }
        ensures pages { contents self.new.nest ≡ pages_after_poke
            (slice_get (visible (memory_of self.old)) page.0) (contents self.old.nest) page.0 offset
            byte }
        ensures live { self.new.live ≡ self.old.live }
        ensures nested { IsNested self.new.nest }
        ensures ram { self.new.nest.ram ≡ self.old.nest.ram }
        ensures places { (page : ℕ) → place self.new.nest page ≡ place self.old.nest page }
        ensures free { self.new.nest.free ≡ self.old.nest.free }
        ensures cache { self.new.cache
            ≡ after_poke (slice_get (visible (memory_of self.old)) page.0) page.0 self.old.cache }
        ensures harts { self.new.cache.harts ≡ self.old.cache.harts }
        ensures read { steps.new ≡ steps.old
            + words_seen (slice_get (visible (memory_of self.old)) page.0) }
        ensures few { steps.new ≤ steps.old + 3 }
    {
        if self.is_seen(page) {
            let frame = self.frame_of(page, steps);
            self.write(Place { page, offset }, frame, Width::B1, u64::from(byte));
            true
        } else {
            false
        }
    }

    /// Whether it is a page of RAM that no live module owns.
    fn is_seen(&self, page: Gpn) -> bool
        ensures seen { result ≡ is_seen (slice_get (visible (memory_of self.now)) page.0) }
        ensures bytes { result ≡ true → slice_get (visible (memory_of self.now)) page.0 ≡ Some
            (Some (page_at (contents self.now.nest) page.0)) }
        ensures inside { result ≡ true → page.0 < self.now.nest.ram }
        ensures nested { IsNested self.now.nest }
    {
        // For the prover: what holds of every unit.
        self.facts();
        self.view().is_free(page)
    }
}
