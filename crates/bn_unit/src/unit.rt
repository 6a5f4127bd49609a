ghost use Rattle.std.specs.Prelude.{◌≡◌, ℕ, List, [], ◌∷◌, ◌++◌, ◌+◌, ◌%◌, ◌^◌, ◌*◌, ◌<◌, ◌≤◌};
ghost use Rattle.std.specs.Prelude.{◌==◌, Some, Ok, Err, IfOk, OnOk, false, length, true};
ghost use Rattle.bn_types.specs.Numbers.{AreWhole, bytes_of};
ghost use Rattle.bn_model.specs.Accessing.{access, answer_of_load, number_on};
ghost use Rattle.bn_model.specs.Accessing.{pages_after_store, pages_with};
ghost use Rattle.bn_model.specs.Accessing.{words_of_access};
ghost use Rattle.bn_model.specs.Accessing as accessing;
ghost use Rattle.bn_model.specs.Admission.{admits};
ghost use Rattle.bn_model.specs.Nesting.{IsNested, contents, place, table_frames};
ghost use Rattle.bn_model.specs.Nesting as nesting;
ghost use Rattle.bn_model.specs.CsrFile.{HasMode};
ghost use Rattle.bn_model.specs.Rows.{owner_of};
ghost use Rattle.bn_model.specs.Memory.{visible};
ghost use Rattle.bn_model.specs.Owners.{is_live};
ghost use Rattle.bn_model.specs.Walking.{guest_page, tables_read, vpn_of, walk_of};
ghost use Rattle.bn_shadow.specs.Counting.{LieInRam};
ghost use Rattle.bn_tlb.specs.Caching.{IsCache, after_drop, empty_cache, is_walked};
ghost use Rattle.bn_unit.specs.Dropping.{cache_without};
ghost use Rattle.bn_tlb.specs.Caching.{AllHeld};
ghost use Rattle.bn_unit.specs.Holding.{IsAfterAccess, IsAfterStore, IsRight, is_held};
ghost use Rattle.bn_unit.specs.Holding.{is_known, words_if_missed};
ghost use Rattle.bn_unit.specs.Memory.{AllPlaced, Completes, IsSpot, IsWithin, at_offset};
ghost use Rattle.bn_unit.specs.Memory.{memory_of, place_at, seen_of};
ghost use Rattle.g_walk.specs.Answers.{walk_result};

use crate::View;
use crate::judging::{access_fault, denial_of, fault_at};
use crate::spot::Spot;
use bn_model::Place;
use bn_shadow::Shadow;
use bn_tlb::Tlb;
use bn_types::{Asker, Cause, Decl, Fault, Frame, Gpn, Kind, NoMemory, Row, Steps, Vpn, Width};
use g_walk::{Leaf, walk};
use n_walk::Nest;
use std::alloc::Global;
use std::marker::Model;
use std::sync::ledger::Ledger;

mod blanking;
mod devices;
mod hitting;
mod holding;
mod releasing;

/// The physical page number at which RAM begins, that of guest physical address 0x80000000.
const RAM_START: u64 = 0x80000;

/// The machine's memory as harts access it: by the guest's tables, by the nested tables that lead
/// each guest page to a machine frame, and by the declarations of live modules. Each hart holds
/// translations, and an access at one of them reads no table. They are right at all times: what
/// changes a table, a frame or what is admitted drops those that it changes, on all harts, and
/// nothing else does.
#[derive(Drop)]
pub struct Unit {
    nest: Nest,
    shadow: Shadow,
    tlb: Tlb,
}

impl Model for Unit {
    ghost use Rattle.bn_unit.specs.Memory.{Backing, IsBacked};

    ghost Value = { Backing };

    ghost view = { λ u. record { nest = u.nest; live = u.shadow.live; cache = u.tlb } };

    ghost invariant = { λ u. IsBacked u.nest u.shadow.ram u.shadow.live u.tlb };
}

impl Unit {
    /// The unit over a nest that was built for this many pages of RAM, from 1 to 4,096, all of them
    /// placed, and that has more frames beside its tables than pages. There are 1 to 4 harts. No
    /// module is live, and no hart holds a translation.
    pub fn build(alloc: Global, nest: Nest, ram_pages: u32, harts: u8) -> Result<Unit, NoMemory>
        requires ram { nest.ram ≡ ram_pages }
        requires room { table_frames nest.ram + nest.ram < length nest.frames }
        requires harts { (0 < harts) × (harts ≤ 4) }
        requires placed { AllPlaced nest }
        ensures { IfOk result (λ unit. unit
            ≡ record { nest = nest; live = []; cache = empty_cache harts }) }
    {
        let shadow = Shadow::empty(alloc, ram_pages)?;
        let tlb = Tlb::empty(alloc, harts)?;
        Ok(Unit { nest, shadow, tlb })
    }

    /// How many pages RAM has, from 1 to 4,096.
    pub fn ram_pages(&self) -> u32
        ensures value { result ≡ self.now.nest.ram }
        ensures count { length (contents self.now.nest) ≡ result }
        ensures range { (0 < result) × (result ≤ 4096) }
    {
        // For the prover: what holds of every unit.
        self.facts();
        self.nest.ram_pages()
    }

    /// What holds of every unit: its tables are the tree of its placement, each page of RAM has a
    /// frame and 4,096 bytes, and each translation that is held is right, in the set of its key and
    /// there once. It does nothing.
    pub fn facts(&self)
        ensures nested { IsNested self.now.nest }
        ensures placed { AllPlaced self.now.nest }
        ensures whole { AreWhole (contents self.now.nest) }
        ensures count { length (contents self.now.nest) ≡ self.now.nest.ram }
        ensures range { (0 < self.now.nest.ram) × (self.now.nest.ram ≤ 4096) }
        ensures right { AllHeld (IsRight self.now.nest self.now.live) self.now.cache }
        ensures sets { IsCache self.now.cache }
    {
        // For the prover: what holds of every nest of tables, and of all held translations.
        self.nest.facts();
        self.tlb.facts();
    }

    /// Fetches the 4 bytes of the instruction at the virtual address, a multiple of 4, in the mode
    /// and by the tables of the one who asks, whose `satp` has MODE 0 (Bare) or 8 (Sv39)
    /// (Privileged ISA, "Supervisor Cause Register", "Virtual Address Translation Process").
    ///
    /// The fault has the virtual address, and the cause that is met first: 12 where the tables hold
    /// no leaf for the address or the leaf doesn't permit the fetch, and 1 where a table lies
    /// outside RAM or is a module's, or at last the page lies outside RAM or the declarations of
    /// live modules don't admit the fetch; then the fault names the page. A fetch at a translation
    /// that the hart holds costs nothing. Else it costs four steps for each of the guest's tables
    /// that it reads, and three for its page where it reaches one, so at most 15, and where it
    /// reaches one the hart holds its translation from then on.
    #[inline(always)]
    pub fn fetch<L: Ledger>(
        &mut self,
        who: &Asker,
        va: u64,
        steps: &mut Steps<L>,
    ) -> Result<u32, Fault>
        requires mode { HasMode who.now.satp }
        requires aligned { va % 4 ≡ 0 }
        requires hart { who.now.hart < self.old.cache.harts }
        requires known { is_known self.old.live who.now.«module».0 ≡ true }
        ensures word { let m = memory_of self.old in
            result ≡ answer_of_load m.pages Width.B4 (access m who.now Kind.Fetch va Width.B4) }
        ensures kept { memory_of self.new ≡ memory_of self.old }
        ensures nested { IsNested self.new.nest }
        ensures ram { self.new.nest.ram ≡ self.old.nest.ram }
        ensures cache { IsAfterAccess who.now va
            (access (memory_of self.old) who.now Kind.Fetch va Width.B4) self.old.cache
            self.new.cache }
        ensures held { OnOk result (is_held self.new.cache who.now va ≡ true) }
        ensures harts { self.new.cache.harts ≡ self.old.cache.harts }
        ensures walked { steps.new ≡ steps.old
            + words_if_missed (is_held self.old.cache who.now va)
            (words_of_access (memory_of self.old) who.now Kind.Fetch va Width.B4) }
        ensures few { steps.new ≤ steps.old + 15 }
    {
        match self.reach(who, Kind::Fetch, va, Width::B4, steps) {
            Ok(spot) => Ok(self.read(place_in(spot.page, va), spot.frame, Width::B4) as u32),
            Err(fault) => Err(fault),
        }
    }

    /// Loads the number of this width at the virtual address, little endian, in the mode and by the
    /// tables of the one who asks, whose `satp` has MODE 0 (Bare) or 8 (Sv39) (Privileged ISA,
    /// "Supervisor Cause Register", "Virtual Address Translation Process").
    ///
    /// The fault has the virtual address, and cause 4 where that isn't a multiple of the width in
    /// bytes, else the cause that is met first: 13 where the tables hold no leaf for the address or
    /// the leaf doesn't permit the load, and 5 where a table lies outside RAM or is a module's, or
    /// at last the page lies outside RAM or the declarations of live modules don't admit the load;
    /// then the fault names the page. A load at a translation that the hart holds costs nothing.
    /// Else it costs four steps for each of the guest's tables that it reads, none where it is
    /// misaligned, and three for its page where it reaches one, so at most 15, and where it reaches
    /// one the hart holds its translation from then on.
    #[inline(always)]
    pub fn load<L: Ledger>(
        &mut self,
        who: &Asker,
        va: u64,
        width: Width,
        steps: &mut Steps<L>,
    ) -> Result<u64, Fault>
        requires mode { HasMode who.now.satp }
        requires hart { who.now.hart < self.old.cache.harts }
        requires known { is_known self.old.live who.now.«module».0 ≡ true }
        ensures number { let m = memory_of self.old in
            result ≡ answer_of_load m.pages width (access m who.now Kind.Load va width) }
        ensures fits { IfOk result (λ number. number < 2 ^ (8 * bytes_of width)) }
        ensures kept { memory_of self.new ≡ memory_of self.old }
        ensures nested { IsNested self.new.nest }
        ensures ram { self.new.nest.ram ≡ self.old.nest.ram }
        ensures cache { IsAfterAccess who.now va
            (access (memory_of self.old) who.now Kind.Load va width) self.old.cache self.new.cache }
        ensures held { OnOk result (is_held self.new.cache who.now va ≡ true) }
        ensures harts { self.new.cache.harts ≡ self.old.cache.harts }
        ensures walked { steps.new ≡ steps.old
            + words_if_missed (is_held self.old.cache who.now va)
            (words_of_access (memory_of self.old) who.now Kind.Load va width) }
        ensures few { steps.new ≤ steps.old + 15 }
    {
        match self.reach(who, Kind::Load, va, width, steps) {
            Ok(spot) => Ok(self.read(place_in(spot.page, va), spot.frame, width)),
            Err(fault) => Err(fault),
        }
    }

    /// Stores the low bytes of the value, as many as the width has, at the virtual address, little
    /// endian, in the mode and by the tables of the one who asks, whose `satp` has MODE 0 (Bare) or
    /// 8 (Sv39) (Privileged ISA, "Supervisor Cause Register", "Virtual Address Translation
    /// Process").
    ///
    /// The fault has the virtual address, and cause 6 where that isn't a multiple of the width in
    /// bytes, else the cause that is met first: 15 where the tables hold no leaf for the address or
    /// the leaf doesn't permit the store, and 7 where a table lies outside RAM or is a module's, or
    /// at last the page lies outside RAM or the declarations of live modules don't admit the store;
    /// then the fault names the page. Nothing is written then. A store costs what a load does, and
    /// enters what a load does. Then each translation, of any hart, leaves whose walk read the page
    /// that was written.
    #[inline(always)]
    pub fn store<L: Ledger>(
        &mut self,
        who: &Asker,
        va: u64,
        width: Width,
        value: u64,
        steps: &mut Steps<L>,
    ) -> Result<(), Fault>
        requires mode { HasMode who.now.satp }
        requires hart { who.now.hart < self.old.cache.harts }
        requires known { is_known self.old.live who.now.«module».0 ≡ true }
        ensures answer { Completes result
            (access (memory_of self.old) who.now Kind.Store va width) }
        ensures stored { let m = memory_of self.old in memory_of self.new
            ≡ record m {
              pages = pages_after_store m.pages width value
                  (access m who.now Kind.Store va width);
            } }
        ensures nested { IsNested self.new.nest }
        ensures ram { self.new.nest.ram ≡ self.old.nest.ram }
        ensures places { (page : ℕ) → place self.new.nest page ≡ place self.old.nest page }
        ensures free { self.new.nest.free ≡ self.old.nest.free }
        ensures cache { IsAfterStore who.now va
            (access (memory_of self.old) who.now Kind.Store va width) self.old.cache
            self.new.cache }
        ensures harts { self.new.cache.harts ≡ self.old.cache.harts }
        ensures walked { steps.new ≡ steps.old
            + words_if_missed (is_held self.old.cache who.now va)
            (words_of_access (memory_of self.old) who.now Kind.Store va width) }
        ensures few { steps.new ≤ steps.old + 15 }
    {
        match self.reach(who, Kind::Store, va, width, steps) {
            Ok(spot) => {
                self.write(place_in(spot.page, va), spot.frame, width, value);
                Ok(())
            }
            Err(fault) => Err(fault),
        }
    }

    /// Enters the declarations of a launched module. Fewer than 15 modules are live, it isn't among
    /// them, and its pages lie in RAM. Each translation, of any hart, leaves that leads to one of
    /// these pages or whose walk read one.
    pub fn own(&mut self, row: &Row)
        requires room { length self.old.live < 15 }
        requires new { is_live self.old.live row.now.id.0 ≡ false }
        requires inside { LieInRam self.old.nest.ram row.now.judged.decls.items }
        ensures entered { self.new ≡ record self.old {
          live = self.old.live ++ owner_of row.now ∷ [];
          cache = cache_without row.now.judged.decls.items self.old.cache;
        } }
        ensures harts { self.new.cache.harts ≡ self.old.cache.harts }
    {
        // For the prover: reading a field tells what the invariant says of it.
        let _nest = &self.nest;
        self.shadow.add_row(row);
        drop_pages(&mut self.tlb, &row.judged.decls);
    }

    /// The guest's pages as the untrusted world reads them.
    pub fn view(&self) -> View<'_>
        ensures { result ≡ seen_of self.now }
    {
        View::of(&self.nest, &self.shadow)
    }

    /// The page that an access of the kind and width reaches, and its frame.
    #[inline(always)]
    #[tactic(auto, unfolding(bn_model::specs::Accessing::access, bn_model::specs::Accessing::guest_words))]
    fn reach<L: Ledger>(
        &mut self,
        who: &Asker,
        kind: Kind,
        va: u64,
        width: Width,
        steps: &mut Steps<L>,
    ) -> Result<Spot, Fault>
        requires mode { HasMode who.now.satp }
        requires fetch { kind ≡ Kind.Fetch → va % bytes_of width ≡ 0 }
        requires hart { who.now.hart < self.old.cache.harts }
        requires known { is_known self.old.live who.now.«module».0 ≡ true }
        ensures place { place_at va result ≡ access (memory_of self.old) who.now kind va width }
        ensures within { IfOk (place_at va result)
            (λ place. IsWithin self.old.nest.ram place width) }
        ensures spot { IfOk result (IsSpot self.old.nest) }
        ensures nest { self.new.nest ≡ self.old.nest }
        ensures nested { IsNested self.new.nest }
        ensures live { self.new.live ≡ self.old.live }
        ensures cache { IsAfterAccess who.now va (place_at va result) self.old.cache
            self.new.cache }
        ensures held { OnOk result (is_held self.new.cache who.now va ≡ true) }
        ensures harts { self.new.cache.harts ≡ self.old.cache.harts }
        ensures walked { steps.new ≡ steps.old
            + words_if_missed (is_held self.old.cache who.now va)
            (words_of_access (memory_of self.old) who.now kind va width) }
        ensures few { steps.new ≤ steps.old + 15 }
    {
        // For the prover: what holds of every unit.
        self.facts();
        if !is_aligned(kind, va, width) {
            return Err(fault_at(va, misaligned(kind)));
        }
        match self.judge_held(who, kind, va) {
            Some(answer) => answer,
            None => self.reach_by_tables(*who, kind, va, steps),
        }
    }

    /// The leaf to which the guest's tables lead an address.
    fn walk_tables<L: Ledger>(
        &self,
        who: &Asker,
        kind: Kind,
        va: u64,
        steps: &mut Steps<L>,
    ) -> Result<Leaf, Cause>
        requires { HasMode who.now.satp }
        ensures leaf { walk_result result ≡ walk_of (visible (memory_of self.now)) who.now.satp va
            kind who.now.mode who.now.sum who.now.mxr }
        ensures walked { steps.new ≡ steps.old
            + 4 * length (tables_read (visible (memory_of self.now)) who.now.satp va) }
        ensures few { steps.new ≤ steps.old + 12 }
    {
        // For the prover: what holds of every unit.
        self.facts();
        walk(
            &self.view(),
            who.satp,
            va,
            kind,
            who.mode,
            who.sum,
            who.mxr,
            steps,
        )
    }

    /// The page of RAM that is this physical page, where the rule of admission lets the access of
    /// an address to it.
    fn find_page(&self, who: &Asker, kind: Kind, va: u64, ppn: u64) -> Result<Gpn, Fault>
        ensures place { (pages : List (List ℕ)) → length pages ≡ self.now.nest.ram
            → at_offset va result
            ≡ accessing.place_on (record { pages = pages; owners = self.now.live }) who.now kind va
            (guest_page ppn) }
        ensures page { IfOk result (λ page. page.0 < self.now.nest.ram) }
        ensures found { IfOk result (λ page. guest_page ppn ≡ Some page.0) }
        ensures admitted { IfOk result (λ page.
            admits self.now.live who.now.«module».0 (vpn_of va) page.0 kind ≡ true) }
    {
        let ram_pages = u64::from(self.nest.ram_pages());
        if ppn < RAM_START || ppn - RAM_START >= ram_pages {
            return Err(fault_at(va, access_fault(kind)));
        }
        let page = Gpn((ppn - RAM_START) as u32);
        if self.shadow.admits(who.module, Vpn(va / 4096), page, kind) {
            Ok(page)
        } else {
            Err(denial_of(va, kind, page))
        }
    }

    /// The frame of a page of RAM.
    fn frame_of<L: Ledger>(&self, page: Gpn, steps: &mut Steps<L>) -> Frame
        requires inside { page.0 < self.now.nest.ram }
        ensures frame { place self.now.nest page.0 ≡ Some result }
        ensures read { steps.new ≡ steps.old + 3 }
    {
        match self.nest.look(page, steps) {
            Some(frame) => frame,
            // It never comes, since each page of RAM has a frame; a trap would cost a test.
            None => Frame(0),
        }
    }

    /// The number of this width at the place, whose page lies on this frame.
    #[inline(always)]
    fn read(&self, place: Place, frame: Frame, width: Width) -> u64
        requires within { IsWithin self.now.nest.ram place width }
        requires frame { nesting.place self.now.nest place.page.0 ≡ Some frame }
        ensures number { result ≡ number_on (contents self.now.nest) width place }
        ensures fits { result < 2 ^ (8 * bytes_of width) }
    {
        self.nest.load(frame, place.offset, width)
    }

    /// Writes the low bytes of the value at the place, whose page lies on this frame. Each
    /// translation, of any hart, leaves whose walk read the page.
    #[inline(always)]
    fn write(&mut self, place: Place, frame: Frame, width: Width, value: u64)
        requires within { IsWithin self.old.nest.ram place width }
        requires frame { nesting.place self.old.nest place.page.0 ≡ Some frame }
        ensures written { contents self.new.nest ≡ pages_with (contents self.old.nest) width value
            place }
        ensures nested { IsNested self.new.nest }
        ensures live { self.new.live ≡ self.old.live }
        ensures ram { self.new.nest.ram ≡ self.old.nest.ram }
        ensures places { (page : ℕ) → nesting.place self.new.nest page ≡ nesting.place
            self.old.nest page }
        ensures free { self.new.nest.free ≡ self.old.nest.free }
        ensures cache { self.new.cache ≡ after_drop (is_walked place.page.0) self.old.cache }
    {
        self.nest.store(frame, place.offset, width, value);
        self.tlb.drop_walks(place.page);
    }
}

/// Drops what leads to one of the declared pages, or was walked through one.
fn drop_pages(tlb: &mut Tlb, decls: &[Decl])
    ensures { tlb.new ≡ cache_without decls.now tlb.old }
{
    for decl in decls {
        tlb.drop_page(decl.gpn);
    }
}

/// The place of an address in its page.
fn place_in(page: Gpn, va: u64) -> Place
    ensures { Ok result ≡ at_offset va (Ok page) }
{
    Place {
        page,
        offset: (va % 4096) as u16,
    }
}

/// Whether an access of the kind goes to a multiple of its width where it has to. The address of a
/// fetch is a multiple of 4 always.
fn is_aligned(kind: Kind, va: u64, width: Width) -> bool
    ensures { result ≡ accessing.is_aligned kind va width }
{
    match kind {
        Kind::Fetch => true,
        Kind::Load | Kind::Store => is_multiple(va, width),
    }
}

fn is_multiple(va: u64, width: Width) -> bool
    ensures { result ≡ (va % bytes_of width == 0) }
{
    match width {
        Width::B1 => true,
        Width::B2 => va % 2 == 0,
        Width::B4 => va % 4 == 0,
        Width::B8 => va % 8 == 0,
    }
}

fn misaligned(kind: Kind) -> Cause
    ensures { result ≡ accessing.misaligned kind }
{
    match kind {
        Kind::Fetch => Cause(0),
        Kind::Load => Cause(4),
        Kind::Store => Cause(6),
    }
}
