//! Accesses that translations answer which the harts hold, without a step.
ghost use Rattle.std.specs.Prelude.{◌≡◌, ◌%◌, ◌*◌, ◌<◌, ◌^◌, ℕ, IfSome, Ok, false, true};
ghost use Rattle.bn_types.specs.Numbers.{bytes_of};
ghost use Rattle.bn_model.specs.Accessing.{access, answer_of_load, pages_after_store};
ghost use Rattle.bn_model.specs.Nesting.{IsNested, place};
ghost use Rattle.bn_unit.specs.Holding.{after_write, is_held};
ghost use Rattle.bn_unit.specs.Memory.{Completes, IsSpot, IsWithin, memory_of, place_at};

use crate::Unit;
use crate::spot::Spot;
use crate::unit::{is_aligned, place_in};
use bn_types::{Asker, Fault, Kind, Width};

impl Unit {
    /// The 4 bytes of the instruction at the virtual address, a multiple of 4, where the hart holds
    /// a translation that lets the one who asks fetch them. None says nothing of the fetch.
    #[inline(always)]
    pub fn fetch_held(&self, who: &Asker, va: u64) -> Option<u32>
        requires aligned { va % 4 ≡ 0 }
        requires hart { who.now.hart < self.now.cache.harts }
        ensures word { let m = memory_of self.now in IfSome result (λ word. Ok word
            ≡ answer_of_load m.pages Width.B4 (access m who.now Kind.Fetch va Width.B4)) }
        ensures held { IfSome result (λ word. is_held self.now.cache who.now va ≡ true) }
    {
        match self.spot_held(who, Kind::Fetch, va, Width::B4) {
            Some(spot) => Some(self.read(place_in(spot.page, va), spot.frame, Width::B4) as u32),
            None => None,
        }
    }

    /// The number of this width at the virtual address, little endian, where the hart holds a
    /// translation that lets the one who asks load it. None says nothing of the load.
    #[inline(always)]
    pub fn load_held(&self, who: &Asker, va: u64, width: Width) -> Option<u64>
        requires hart { who.now.hart < self.now.cache.harts }
        ensures number { let m = memory_of self.now in IfSome result (λ number. Ok number
            ≡ answer_of_load m.pages width (access m who.now Kind.Load va width)) }
        ensures fits { IfSome result (λ number. number < 2 ^ (8 * bytes_of width)) }
        ensures held { IfSome result (λ number. is_held self.now.cache who.now va ≡ true) }
    {
        match self.spot_held(who, Kind::Load, va, width) {
            Some(spot) => Some(self.read(place_in(spot.page, va), spot.frame, width)),
            None => None,
        }
    }

    /// Stores the low bytes of the value, as many as the width has, at the virtual address, little
    /// endian, where the hart holds a translation that lets the one who asks do it, and tells
    /// whether it did. Then each translation, of any hart, leaves whose walk read the page that was
    /// written. Where it didn't, nothing changes, and nothing is said of the store.
    #[inline(always)]
    pub fn store_held(&mut self, who: &Asker, va: u64, width: Width, value: u64) -> bool
        requires hart { who.now.hart < self.old.cache.harts }
        ensures reached { result ≡ true → Completes (Ok tt)
            (access (memory_of self.old) who.now Kind.Store va width) }
        ensures stored { result ≡ true → let m = memory_of self.old in memory_of self.new
            ≡ record m {
              pages = pages_after_store m.pages width value
                  (access m who.now Kind.Store va width);
            } }
        ensures held { result ≡ true → is_held self.old.cache who.now va ≡ true }
        ensures cache { result ≡ true → self.new.cache
            ≡ after_write (access (memory_of self.old) who.now Kind.Store va width)
            self.old.cache }
        ensures same { result ≡ false → self.new ≡ self.old }
        ensures nested { IsNested self.new.nest }
        ensures ram { self.new.nest.ram ≡ self.old.nest.ram }
        ensures places { (page : ℕ) → place self.new.nest page ≡ place self.old.nest page }
        ensures free { self.new.nest.free ≡ self.old.nest.free }
        ensures harts { self.new.cache.harts ≡ self.old.cache.harts }
    {
        match self.spot_held(who, Kind::Store, va, width) {
            Some(spot) => {
                self.write(place_in(spot.page, va), spot.frame, width, value);
                true
            }
            None => false,
        }
    }

    /// The page that an access of the kind and width reaches, and its frame, where the hart holds a
    /// translation that lets it.
    #[inline(always)]
    #[tactic(auto, unfolding(bn_model::specs::Accessing::access))]
    fn spot_held(&self, who: &Asker, kind: Kind, va: u64, width: Width) -> Option<Spot>
        requires fetch { kind ≡ Kind.Fetch → va % bytes_of width ≡ 0 }
        requires hart { who.now.hart < self.now.cache.harts }
        ensures place { IfSome result (λ spot. place_at va (Ok spot)
            ≡ access (memory_of self.now) who.now kind va width) }
        ensures within { IfSome result (λ spot.
            IsWithin self.now.nest.ram (record { page = spot.page; offset = va % 4096 }) width) }
        ensures spot { IfSome result (IsSpot self.now.nest) }
        ensures held { IfSome result (λ spot. is_held self.now.cache who.now va ≡ true) }
        ensures nested { IsNested self.now.nest }
    {
        // For the prover: what holds of every unit.
        self.facts();
        if !is_aligned(kind, va, width) {
            return None;
        }
        match self.judge_held(who, kind, va) {
            Some(answer) => spot_in(answer),
            None => None,
        }
    }
}

/// The page and frame that an access reached, if it did.
#[inline(always)]
fn spot_in(answer: Result<Spot, Fault>) -> Option<Spot>
    ensures { IfSome result (λ spot. answer ≡ Ok spot) }
{
    match answer {
        Ok(spot) => Some(spot),
        Err(_) => None,
    }
}
