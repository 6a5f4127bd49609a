//! Accesses of a hart to memory.
ghost use Rattle.std.specs.Prelude.{◌≡◌, ◌+◌, ◌*◌, ◌^◌, ◌<◌, ◌≤◌, IfOk, IfSome, Ok, OnErr, OnOk};
ghost use Rattle.std.specs.Prelude.{false, length, true};
ghost use Rattle.bn_types.specs.Numbers.{bytes_of};
ghost use Rattle.bn_model.specs.Accessing.{access, answer_of_load, pages_after_store};
ghost use Rattle.bn_model.specs.Soundness.{IsSound};
ghost use Rattle.bn_model.specs.State.{asker, hart_at, memory};
ghost use Rattle.bn_machine.specs.Keys.{HoldsKey};
ghost use Rattle.bn_unit.specs.Memory.{Completes};

use crate::engine::Engine;
use bn_types::{Fault, Kind, Steps, Width};
use std::sync::ledger::Ledger;

impl Engine {
    /// The word at hart h's pc.
    #[inline(always)]
    pub(super) fn fetch<L: Ledger>(&mut self, h: u8, steps: &mut Steps<L>) -> Result<u32, Fault>
        requires sound { IsSound self.old.state }
        requires hart { h < length self.old.state.harts }
        ensures word { let s = self.old.state in let hart = hart_at s h in result
            ≡ answer_of_load s.pages Width.B4
            (access (memory s) (asker h hart) Kind.Fetch hart.pc Width.B4) }
        ensures kept { self.new.state ≡ self.old.state }
        ensures few { steps.new ≤ steps.old + 15 }
        ensures held { let s = self.old.state in
            OnOk result (HoldsKey s h (hart_at s h).pc self.new.cache) }
    {
        match self.fetch_held(h) {
            Some(word) => Ok(word),
            None => self.fetch_anyhow(h, steps),
        }
    }

    /// The word at hart h's pc, where a translation answers which the hart holds.
    #[inline(always)]
    fn fetch_held(&self, h: u8) -> Option<u32>
        requires sound { IsSound self.now.state }
        requires hart { h < length self.now.state.harts }
        ensures word { let s = self.now.state in let hart = hart_at s h in IfSome result
            (λ word. Ok word ≡ answer_of_load s.pages Width.B4
            (access (memory s) (asker h hart) Kind.Fetch hart.pc Width.B4)) }
        ensures held { let s = self.now.state in
            IfSome result (λ word. HoldsKey s h (hart_at s h).pc self.now.cache) }
    {
        let hart = &self.harts[h as usize];
        let (who, pc) = (hart.asker(h), hart.pc());
        self.unit.fetch_held(&who, pc)
    }

    /// The word at hart h's pc, whatever the hart holds.
    #[cold]
    #[inline(never)]
    fn fetch_anyhow<L: Ledger>(&mut self, h: u8, steps: &mut Steps<L>) -> Result<u32, Fault>
        requires sound { IsSound self.old.state }
        requires hart { h < length self.old.state.harts }
        ensures word { let s = self.old.state in let hart = hart_at s h in result
            ≡ answer_of_load s.pages Width.B4
            (access (memory s) (asker h hart) Kind.Fetch hart.pc Width.B4) }
        ensures kept { self.new.state ≡ self.old.state }
        ensures few { steps.new ≤ steps.old + 15 }
        ensures held { let s = self.old.state in
            OnOk result (HoldsKey s h (hart_at s h).pc self.new.cache) }
    {
        let hart = &self.harts[h as usize];
        let (who, pc) = (hart.asker(h), hart.pc());
        self.unit.fetch(&who, pc, steps)
    }

    /// The number of a width that hart h loads from a virtual address, where a translation answers
    /// which the hart holds.
    #[inline(always)]
    pub(super) fn load_held(&self, h: u8, va: u64, width: Width) -> Option<u64>
        requires sound { IsSound self.now.state }
        requires hart { h < length self.now.state.harts }
        ensures number { let s = self.now.state in IfSome result (λ number. Ok number
            ≡ answer_of_load s.pages width
            (access (memory s) (asker h (hart_at s h)) Kind.Load va width)) }
        ensures fits { IfSome result (λ number. number < 2 ^ (8 * bytes_of width)) }
        ensures held { IfSome result (λ number. HoldsKey self.now.state h va self.now.cache) }
    {
        let who = self.harts[h as usize].asker(h);
        self.unit.load_held(&who, va, width)
    }

    /// Hart h stores the low bytes of a value to a virtual address, where a translation answers
    /// which the hart holds; it tells whether one did.
    #[inline(always)]
    pub(super) fn store_held(&mut self, h: u8, va: u64, width: Width, value: u64) -> bool
        requires sound { IsSound self.old.state }
        requires hart { h < length self.old.state.harts }
        ensures answer { result ≡ true → let s = self.old.state in
            Completes (Ok tt) (access (memory s) (asker h (hart_at s h)) Kind.Store va width) }
        ensures stored { result ≡ true → let s = self.old.state in
            let reached = access (memory s) (asker h (hart_at s h)) Kind.Store va width in
            self.new.state ≡ record s { pages = pages_after_store s.pages width value reached } }
        ensures kept { result ≡ false → self.new.state ≡ self.old.state }
    {
        let who = self.harts[h as usize].asker(h);
        self.unit.store_held(&who, va, width, value)
    }

    /// The number of a width that hart h loads from a virtual address.
    pub(super) fn load_number<L: Ledger>(
        &mut self,
        h: u8,
        va: u64,
        width: Width,
        steps: &mut Steps<L>,
    ) -> Result<u64, Fault>
        requires sound { IsSound self.old.state }
        requires hart { h < length self.old.state.harts }
        ensures number { let s = self.old.state in result
            ≡ answer_of_load s.pages width
            (access (memory s) (asker h (hart_at s h)) Kind.Load va width) }
        ensures fits { IfOk result (λ number. number < 2 ^ (8 * bytes_of width)) }
        ensures kept { self.new.state ≡ self.old.state }
        ensures few { steps.new ≤ steps.old + 15 }
        ensures held { OnOk result (HoldsKey self.old.state h va self.new.cache) }
    {
        let who = self.harts[h as usize].asker(h);
        self.unit.load(&who, va, width, steps)
    }

    /// Hart h stores the low bytes of a value to a virtual address.
    pub(super) fn store_number<L: Ledger>(
        &mut self,
        h: u8,
        va: u64,
        width: Width,
        value: u64,
        steps: &mut Steps<L>,
    ) -> Result<(), Fault>
        requires sound { IsSound self.old.state }
        requires hart { h < length self.old.state.harts }
        ensures answer { let s = self.old.state in
            Completes result (access (memory s) (asker h (hart_at s h)) Kind.Store va width) }
        ensures stored { let s = self.old.state in
            let reached = access (memory s) (asker h (hart_at s h)) Kind.Store va width in
            self.new.state ≡ record s { pages = pages_after_store s.pages width value reached } }
        ensures kept { OnErr result (self.new.state ≡ self.old.state) }
        ensures few { steps.new ≤ steps.old + 15 }
    {
        let who = self.harts[h as usize].asker(h);
        self.unit.store(&who, va, width, value, steps)
    }
}
