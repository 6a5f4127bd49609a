ghost use Rattle.std.specs.Prelude.{◌≡◌, ◌<◌, [], find, length, reverse};
ghost use Rattle.std.specs.Option.{option_copied};
ghost use Rattle.bn_tlb.specs.Caching.{HeldOnce, entry_at, entry_if, filled, is_at, is_key, with_room};
ghost use Rattle.bn_tlb.specs.Caching.{stays, without};
ghost use Rattle.bn_tlb.specs.Sweeping.{leaves};

use crate::leaving::{Leaving, is_leaving};
use crate::slot::Slot;
use crate::{Entry, Key};
use arrayvec::ArrayVec;
use std::marker::Model;

/// At most four translations, the one that was filled first in front. They are kept the other way
/// round, so that a search begins at a place that it need not look up, with those in use.
#[derive(Drop)]
pub struct Set {
    slots: ArrayVec<Slot, 4>,
}

impl Model for Set {
    ghost use Rattle.std.specs.Prelude.{List, reverse};
    ghost use Rattle.bn_tlb.specs.declared.slot.Slot.{Slot};

    ghost Value = { List Slot };

    ghost view = { λ s. reverse s.slots.items };
}

impl Set {
    /// A set that holds nothing.
    pub fn empty() -> Set
        ensures { result ≡ [] }
    {
        Set {
            slots: ArrayVec::new(),
        }
    }

    /// The translation at the key.
    #[inline(always)]
    pub fn find(&self, key: &Key) -> Option<&Entry>
        requires { HeldOnce self.now }
        ensures { option_copied result ≡ entry_at key.now self.now }
    {
        entry_of(slot_in(&self.slots, key))
    }

    /// Enters a translation. Of four the one that was filled first leaves.
    pub fn fill(&mut self, slot: Slot)
        ensures { self.new ≡ filled slot self.old }
    {
        make_room(&mut self.slots);
        self.slots.insert(0, slot);
    }

    /// Drops those that leave.
    pub fn sweep(&mut self, leaving: &Leaving)
        ensures { self.new ≡ without (leaves leaving.now) self.old }
    {
        keep_others(&mut self.slots, leaving);
    }
}

#[inline(always)]
fn entry_of(slot: Option<&Slot>) -> Option<&Entry>
    ensures { option_copied result ≡ entry_if (option_copied slot.entry) }
{
    match slot {
        Some(slot) => Some(&slot.entry),
        None => None,
    }
}

/// The only translation at the key, by its place from the newest on.
#[inline(always)]
fn slot_in<'a>(slots: &'a [Slot], key: &Key) -> Option<&'a Slot>
    requires { HeldOnce (reverse slots.now) }
    ensures { option_copied result ≡ find (is_at key.now) (reverse slots.now) }
{
    newest_in(slots, key)
}

#[inline(always)]
fn newest_in<'a>(slots: &'a [Slot], key: &Key) -> Option<&'a Slot>
    ensures { option_copied result ≡ find (is_at key.now) slots.now }
{
    slots.iter().find(|slot| is_same(&slot.key, key))
}

#[inline(always)]
fn is_same(one: &Key, other: &Key) -> bool
    ensures { result ≡ is_key one.now other.now }
{
    one.vpn.0 == other.vpn.0 && one.satp == other.satp && one.module.0 == other.module.0
}

fn make_room(slots: &mut ArrayVec<Slot, 4>)
    ensures slots { reverse slots.new.items ≡ with_room (reverse slots.old.items) }
    ensures room { length slots.new.items < 4 }
{
    // For the prover: a length read is the length of the list.
    let _count = slots.len();
    slots.truncate(3);
}

fn keep_others(slots: &mut ArrayVec<Slot, 4>, leaving: &Leaving)
    ensures { slots.new.items ≡ without (leaves leaving.now) slots.old.items }
{
    slots.retain(|slot| is_staying(slot, leaving));
}

fn is_staying(slot: &Slot, leaving: &Leaving) -> bool
    ensures { result ≡ stays (leaves leaving.now) slot.now }
{
    !is_leaving(slot, leaving)
}
