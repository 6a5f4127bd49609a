//! Translations that the harts hold.
ghost use Rattle.std.specs.Prelude.{◌≡◌, ◌≢◌, ◌<◌, ◌+◌, ◌*◌, ◌≤◌, ℕ, Ok, Some, IfOk, IfSome, false};
ghost use Rattle.std.specs.Prelude.{OnOk, length, true};
ghost use Rattle.std.specs.Option.{is_some};
ghost use Rattle.bn_model.specs.Accessing.{page_words, place_by_walk, place_on, walk_by};
ghost use Rattle.bn_model.specs.Admission.{admits};
ghost use Rattle.bn_model.specs.CsrFile.{HasMode};
ghost use Rattle.bn_model.specs.Memory.{visible};
ghost use Rattle.bn_model.specs.Walking.{guest_page, leaf_of, tables_read, vpn_of};
ghost use Rattle.bn_tlb.specs.Caching.{found};
ghost use Rattle.bn_tlb.specs.Caching.{AllHeld};
ghost use Rattle.bn_unit.specs.Holding.{IsEntered, IsRight, is_held, is_known, key_of};
ghost use Rattle.bn_unit.specs.Memory.{IsSpot, memory_of, place_at};
ghost use Rattle.g_walk.specs.Answers.{landing};

use crate::Unit;
use crate::judging::{fault_at, judge, key_in};
use crate::spot::Spot;
use bn_tlb::{Entry, Key};
use bn_types::{Asker, Fault, Kind, Steps, Vpn};
use g_walk::Leaf;
use std::sync::ledger::Ledger;

impl Unit {
    /// Whether a hart holds a translation at the key.
    pub fn held(&self, hart: u8, key: &Key) -> bool
        requires { hart < self.now.cache.harts }
        ensures { result ≡ is_some (found self.now.cache hart key.now) }
    {
        self.tlb.find(hart, key).is_some()
    }

    /// How an access of the kind comes out where its key is held.
    #[inline(always)]
    pub(super) fn judge_held(&self, who: &Asker, kind: Kind, va: u64) -> Option<Result<Spot, Fault>>
        requires { who.now.hart < self.now.cache.harts }
        ensures held { is_some result ≡ is_held self.now.cache who.now va }
        ensures place { let m = memory_of self.now in IfSome result (λ answer.
            place_at va answer ≡ place_by_walk m who.now kind va (walk_by m who.now kind va)) }
        ensures spot { IfSome result (λ answer. IfOk answer (IsSpot self.now.nest)) }
    {
        match self.tlb.find(who.hart, &key_in(who, va)) {
            Some(entry) => Some(judge(entry, who, kind, va)),
            None => None,
        }
    }

    /// Where an access of the kind comes whose key isn't held. A success is held from then on.
    #[inline(never)]
    pub(super) fn reach_by_tables<L: Ledger>(
        &mut self,
        who: Asker,
        kind: Kind,
        va: u64,
        steps: &mut Steps<L>,
    ) -> Result<Spot, Fault>
        requires mode { HasMode who.satp }
        requires hart { who.hart < self.old.cache.harts }
        requires known { is_known self.old.live who.«module».0 ≡ true }
        requires missed { is_held self.old.cache who va ≡ false }
        ensures place { let m = memory_of self.old in
            place_at va result ≡ place_by_walk m who kind va (walk_by m who kind va) }
        ensures spot { IfOk result (IsSpot self.old.nest) }
        ensures nest { self.new.nest ≡ self.old.nest }
        ensures live { self.new.live ≡ self.old.live }
        ensures cache { IsEntered (place_at va result) self.old.cache self.new.cache who.hart
            (key_of who va) }
        ensures held { OnOk result (is_held self.new.cache who va ≡ true) }
        ensures harts { self.new.cache.harts ≡ self.old.cache.harts }
        ensures walked { steps.new ≡ steps.old
            + 4 * length (tables_read (visible (memory_of self.old)) who.satp va)
            + page_words (place_at va result) }
        ensures few { steps.new ≤ steps.old + 15 }
    {
        match self.walk_tables(&who, kind, va, steps) {
            Ok(leaf) => self.reach_page(&who, kind, va, leaf, steps),
            Err(cause) => Err(fault_at(va, cause)),
        }
    }

    /// Where an access of the kind comes whose walk led to this leaf.
    fn reach_page<L: Ledger>(
        &mut self,
        who: &Asker,
        kind: Kind,
        va: u64,
        leaf: Leaf,
        steps: &mut Steps<L>,
    ) -> Result<Spot, Fault>
        requires leaf { leaf_of (visible (memory_of self.old)) who.now.satp va ≡ Ok (landing leaf) }
        requires hart { who.now.hart < self.old.cache.harts }
        requires known { is_known self.old.live who.now.«module».0 ≡ true }
        requires missed { is_held self.old.cache who.now va ≡ false }
        ensures place { place_at va result
            ≡ place_on (memory_of self.old) who.now kind va (guest_page leaf.ppn) }
        ensures spot { IfOk result (IsSpot self.old.nest) }
        ensures nest { self.new.nest ≡ self.old.nest }
        ensures live { self.new.live ≡ self.old.live }
        ensures cache { IsEntered (place_at va result) self.old.cache self.new.cache who.now.hart
            (key_of who.now va) }
        ensures held { OnOk result (is_held self.new.cache who.now va ≡ true) }
        ensures harts { self.new.cache.harts ≡ self.old.cache.harts }
        ensures read { steps.new ≡ steps.old + page_words (place_at va result) }
    {
        match self.find_page(who, kind, va, leaf.ppn) {
            Ok(page) => {
                let frame = self.frame_of(page, steps);
                let spot = Spot { page, frame };
                self.hold(who, kind, va, leaf, spot);
                Ok(spot)
            }
            Err(fault) => Err(fault),
        }
    }

    /// Holds the translation of an address that an access of the kind reached.
    fn hold(&mut self, who: &Asker, kind: Kind, va: u64, leaf: Leaf, spot: Spot)
        requires leaf { leaf_of (visible (memory_of self.old)) who.now.satp va ≡ Ok (landing leaf) }
        requires page { guest_page leaf.ppn ≡ Some spot.page.0 }
        requires spot { IsSpot self.old.nest spot }
        requires admitted { admits self.old.live who.now.«module».0 (vpn_of va) spot.page.0 kind
            ≡ true }
        requires hart { who.now.hart < self.old.cache.harts }
        requires known { is_known self.old.live who.now.«module».0 ≡ true }
        requires missed { is_held self.old.cache who.now va ≡ false }
        ensures nest { self.new.nest ≡ self.old.nest }
        ensures live { self.new.live ≡ self.old.live }
        ensures cache { IsEntered (place_at va (Ok spot)) self.old.cache self.new.cache
            who.now.hart (key_of who.now va) }
        ensures held { is_held self.new.cache who.now va ≡ true }
        ensures harts { self.new.cache.harts ≡ self.old.cache.harts }
    {
        // For the prover: each set of translations is one.
        self.tlb.facts();
        let rights = self.shadow.rights(who.module, Vpn(va >> 12), spot.page);
        let entry = Entry {
            page: spot.page,
            frame: spot.frame,
            flags: leaf.flags,
            bare: leaf.bare,
            rights,
            tables: leaf.tables,
        };
        self.tlb.fill(who.hart, key_in(who, va), entry);
    }
}
