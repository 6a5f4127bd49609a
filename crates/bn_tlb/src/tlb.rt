ghost use Rattle.std.specs.Prelude.{◌≡◌, ◌+◌, ◌*◌, ◌%◌, ◌<◌, IfOk, None, [], map, replicate};
ghost use Rattle.std.specs.Option.{option_copied};
ghost use Rattle.bn_tlb.specs.Caching.{IsCache, after_drop, after_fill, empty_cache, found, is_of};
ghost use Rattle.bn_tlb.specs.Caching.{is_walked, set_number, touches, without};
ghost use Rattle.bn_tlb.specs.Sweeping.{leaves};

use crate::leaving::Leaving;
use crate::marks::{clear, is_marked, mark_all, no_marks};
use crate::set::Set;
use crate::slot::Slot;
use crate::{Entry, Key};
use bn_types::{Gpn, ModId, NoMemory, Vpn};
use std::alloc::Global;
use std::marker::Model;

/// The translations that are held: for each hart 64 sets of at most four. A key's set is the low
/// six bits of its virtual page.
#[derive(Drop)]
pub struct Tlb {
    sets: Vec<Set>,
    harts: u8,
    /// For each page whether the walk of one of them may have read it.
    marks: Vec<bool>,
}

impl Model for Tlb {
    ghost use Rattle.bn_tlb.specs.Caching.{Cache};
    ghost use Rattle.bn_tlb.specs.Marking.{IsKept};

    ghost Value = { Cache };

    ghost view = { λ t. record { harts = t.harts; sets = t.sets.items } };

    ghost invariant = { λ t. IsKept (record { harts = t.harts; sets = t.sets.items })
        t.marks.items };
}

impl Tlb {
    /// What always holds: a set has at most four translations, each in the set of its key, and none
    /// twice. It does nothing.
    pub fn facts(&self)
        ensures { IsCache self.now }
    {
        // For the prover: reading a field tells what the invariant says of it.
        let _harts = self.harts;
    }

    /// Holds nothing, for so many harts. It takes memory, and no other call does.
    pub fn empty(alloc: Global, harts: u8) -> Result<Tlb, NoMemory>
        ensures { IfOk result (λ tlb. tlb ≡ empty_cache harts) }
    {
        let sets = empty_sets(alloc, 64 * usize::from(harts))?;
        let marks = no_marks(alloc)?;
        Ok(Tlb { sets, harts, marks })
    }

    /// The translation that a hart holds at the key.
    #[inline(always)]
    pub fn find(&self, hart: u8, key: &Key) -> Option<&Entry>
        requires { hart < self.now.harts }
        ensures { option_copied result ≡ found self.now hart key.now }
    {
        self.sets[number_of(hart, key.vpn)].find(key)
    }

    /// Lets a hart hold a translation at a key that it doesn't hold. Where the key's set has four,
    /// the one that was filled first leaves.
    pub fn fill(&mut self, hart: u8, key: Key, entry: Entry)
        requires hart { hart < self.old.harts }
        requires new { found self.old hart key ≡ None }
        ensures { self.new ≡ after_fill self.old hart (record { key = key; entry = entry }) }
    {
        mark_all(&mut self.marks, &entry.tables);
        let number = number_of(hart, key.vpn);
        self.sets[number].fill(Slot { key, entry });
    }

    /// Drops, on all harts, each translation whose walk read the page.
    #[inline(always)]
    pub fn drop_walks(&mut self, page: Gpn)
        ensures { self.new ≡ after_drop (is_walked page.0) self.old }
    {
        if is_marked(&self.marks, page) {
            self.sweep_walks(page);
        }
    }

    #[inline(never)]
    fn sweep_walks(&mut self, page: Gpn)
        ensures { self.new ≡ after_drop (is_walked page.0) self.old }
    {
        sweep_sets(&mut self.sets, &Leaving::Walked(page));
        clear(&mut self.marks, page);
    }

    /// Drops, on all harts, each translation that leads to the page or whose walk read it.
    pub fn drop_page(&mut self, page: Gpn)
        ensures { self.new ≡ after_drop (touches page.0) self.old }
    {
        self.sweep(&Leaving::Reaching(page));
    }

    /// Drops, on all harts, the translations of the module, 0 for the untrusted world.
    pub fn drop_module(&mut self, id: ModId)
        ensures { self.new ≡ after_drop (is_of id.0) self.old }
    {
        self.sweep(&Leaving::Module(id));
    }

    fn sweep(&mut self, leaving: &Leaving)
        ensures { self.new ≡ after_drop (leaves leaving.now) self.old }
    {
        sweep_sets(&mut self.sets, leaving);
    }
}

#[inline(always)]
fn number_of(hart: u8, vpn: Vpn) -> usize
    ensures { result ≡ set_number hart (vpn.0 % 64) }
{
    64 * usize::from(hart) + (vpn.0 % 64) as usize
}

fn empty_sets(alloc: Global, count: usize) -> Result<Vec<Set>, NoMemory>
    ensures { IfOk result (λ sets. sets.items ≡ replicate count []) }
{
    let Ok(mut sets) = Vec::with_capacity(alloc, count) else {
        return Err(NoMemory);
    };
    for _set in 0..count {
        if sets.push(Set::empty()).is_err() {
            return Err(NoMemory);
        }
    }
    Ok(sets)
}

fn sweep_sets(sets: &mut Vec<Set>, leaving: &Leaving)
    ensures { sets.new.items ≡ map (without (leaves leaving.now)) sets.old.items }
{
    sweep_all(sets.as_mut_slice(), leaving);
}

fn sweep_all(sets: &mut [Set], leaving: &Leaving)
    ensures { sets.new ≡ map (without (leaves leaving.now)) sets.old }
{
    for set in sets.iter_mut() {
        set.sweep(leaving);
    }
}
