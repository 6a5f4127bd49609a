//! Translations that harts hold.
ghost use Rattle.std.specs.Prelude.{◌≡◌, ◌<◌, []};

use super::memory_unit::{bare, denied, module_row, paged, store_word, unit_of};
use bn_types::{Asker, Steps, Vpn, Width};
use bn_unit::{Key, Unit};
use std::alloc::Global;
use std::marker::Brand;
use std::process::Abort;
use std::sync::ledger::{Blank, Ledger};

/// What hart 0 loads by the tables, and whether it holds the translation before and after.
fn load<L: Ledger>(unit: &mut Unit, va: u64, steps: &mut Steps<L>) -> (bool, Option<u64>, bool)
    requires harts { 0 < unit.old.cache.harts }
    ensures live { unit.new.live ≡ unit.old.live }
    ensures harts { unit.new.cache.harts ≡ unit.old.cache.harts }
{
    let who = paged();
    let before = unit.held(0, &key_of(&who, va));
    let number = unit.load(&who, va, Width::B8, steps).ok();
    (before, number, unit.held(0, &key_of(&who, va)))
}

fn key_of(who: &Asker, va: u64) -> Key {
    Key {
        module: who.module,
        satp: who.satp,
        vpn: Vpn(va / 4096),
    }
}

/// Pages 1, 2 and 4 are the tables of low addresses. Pages 0 and 64, 128, 192, 256 lead to page 3,
/// which begins with 3, and page 5 begins with 5.
fn unit_with_pages<L: Ledger>(rt: &impl Abort, alloc: Global, steps: &mut Steps<L>) -> Unit
    ensures live { result.live ≡ [] }
    ensures harts { result.cache.harts ≡ 2 }
{
    let mut unit = unit_of(rt, alloc);
    store_word(rt, &mut unit, 0x80001000, 0x20000801, steps);
    store_word(rt, &mut unit, 0x80002000, 0x20001001, steps);
    store_word(rt, &mut unit, 0x80004000, 0x20000ccf, steps);
    store_word(rt, &mut unit, 0x80004200, 0x20000ccf, steps);
    store_word(rt, &mut unit, 0x80004400, 0x20000ccf, steps);
    store_word(rt, &mut unit, 0x80004600, 0x20000ccf, steps);
    store_word(rt, &mut unit, 0x80004800, 0x20000ccf, steps);
    store_word(rt, &mut unit, 0x80003000, 3, steps);
    store_word(rt, &mut unit, 0x80005000, 5, steps);
    unit
}

fn try_leaf<L: Ledger>(rt: &impl Abort, alloc: Global, blank: Blank)
    requires name { blank.name ≡ L.name }
    requires parts { blank.parts ≡ L.parts }
    requires some { 0 < L.parts }
{
    let mut steps = Steps::<L>::open(blank);
    let mut unit = unit_with_pages(rt, alloc, &mut steps);
    assert_eq!(rt; load(&mut unit, 0, &mut steps), (false, Some(3), true));
    assert_eq!(rt; load(&mut unit, 0, &mut steps), (true, Some(3), true));
    // a new leaf in the last table
    store_word(rt, &mut unit, 0x80004000, 0x200014cf, &mut steps);
    assert_eq!(rt; load(&mut unit, 0, &mut steps), (false, Some(5), true));
    // hart 1 leads the table of level 1 elsewhere, where no leaf is
    let who = Asker { hart: 1, ..bare() };
    let stored = unit.store(&who, 0x80002000, Width::B8, 0, &mut steps);
    assert_eq!(rt; stored, Ok(()));
    assert_eq!(rt; load(&mut unit, 0, &mut steps), (false, None, false));
}

fn try_hits<L: Ledger>(rt: &impl Abort, alloc: Global, blank: Blank)
    requires name { blank.name ≡ L.name }
    requires parts { blank.parts ≡ L.parts }
    requires some { 0 < L.parts }
{
    let mut steps = Steps::<L>::open(blank);
    let mut unit = unit_with_pages(rt, alloc, &mut steps);
    let who = paged();
    assert_eq!(rt; unit.load_held(&who, 0, Width::B8), None);
    assert!(rt; !unit.store_held(&who, 8, Width::B1, 9));
    assert_eq!(rt; load(&mut unit, 0, &mut steps), (false, Some(3), true));
    assert_eq!(rt; unit.load_held(&who, 0, Width::B8), Some(3));
    assert_eq!(rt; unit.fetch_held(&who, 0), Some(3));
    // misaligned, and of another hart
    assert_eq!(rt; unit.load_held(&who, 4, Width::B8), None);
    assert_eq!(rt;
        unit.load_held(&Asker { hart: 1, ..who }, 0, Width::B8),
        None
    );
    assert!(rt; unit.store_held(&who, 8, Width::B1, 9));
    assert_eq!(rt; unit.load_held(&who, 8, Width::B8), Some(9));
    // a new leaf in the last table
    store_word(rt, &mut unit, 0x80004000, 0x200014cf, &mut steps);
    assert_eq!(rt; unit.load_held(&who, 0, Width::B8), None);
}

fn try_set<L: Ledger>(rt: &impl Abort, alloc: Global, blank: Blank)
    requires name { blank.name ≡ L.name }
    requires parts { blank.parts ≡ L.parts }
    requires some { 0 < L.parts }
{
    let mut steps = Steps::<L>::open(blank);
    let mut unit = unit_with_pages(rt, alloc, &mut steps);
    assert_eq!(rt; load(&mut unit, 0, &mut steps), (false, Some(3), true));
    assert_eq!(rt;
        load(&mut unit, 0x40000, &mut steps),
        (false, Some(3), true)
    );
    assert_eq!(rt;
        load(&mut unit, 0x80000, &mut steps),
        (false, Some(3), true)
    );
    assert_eq!(rt;
        load(&mut unit, 0xc0000, &mut steps),
        (false, Some(3), true)
    );
    assert_eq!(rt;
        load(&mut unit, 0x100000, &mut steps),
        (false, Some(3), true)
    );
    assert_eq!(rt; load(&mut unit, 0x40000, &mut steps), (true, Some(3), true));
    assert_eq!(rt; load(&mut unit, 0, &mut steps), (false, Some(3), true));
}

fn try_launch<L: Ledger>(rt: &impl Abort, alloc: Global, blank: Blank)
    requires name { blank.name ≡ L.name }
    requires parts { blank.parts ≡ L.parts }
    requires some { 0 < L.parts }
{
    let mut steps = Steps::<L>::open(blank);
    let mut unit = unit_of(rt, alloc);
    let who = Asker { hart: 1, ..bare() };
    let first = unit.load(&who, 0x80005008, Width::B8, &mut steps);
    assert_eq!(rt; first, Ok(0));
    assert!(rt; unit.held(1, &key_of(&who, 0x80005008)));
    assert!(rt; !unit.held(0, &key_of(&who, 0x80005008)));
    unit.own(&module_row());
    assert!(rt; !unit.held(1, &key_of(&who, 0x80005008)));
    let second = unit.load(&who, 0x80005008, Width::B8, &mut steps);
    assert_eq!(rt; second, Err(denied(5, 0x80005008, 5)));
}

#[test]
fn a_written_table_is_walked_again(rt: HostRuntime) {
    try_leaf::<Brand>(&rt, rt.alloc(), Blank::new(1));
}

#[test]
fn a_held_translation_answers_alone(rt: HostRuntime) {
    try_hits::<Brand>(&rt, rt.alloc(), Blank::new(1));
}

#[test]
fn the_oldest_of_five_leaves(rt: HostRuntime) {
    try_set::<Brand>(&rt, rt.alloc(), Blank::new(1));
}

#[test]
fn a_launched_page_is_held_no_more(rt: HostRuntime) {
    try_launch::<Brand>(&rt, rt.alloc(), Blank::new(1));
}
