//! The memory unit over a small RAM, called as a machine calls it.
ghost use Rattle.std.specs.Prelude.{◌≡◌, ◌≢◌, ◌+◌, ◌<◌, ℕ, [], None, length, replicate};
ghost use Rattle.std.specs.List.{All};
ghost use Rattle.bn_types.specs.Numbers.{zero_page};
ghost use Rattle.bn_model.specs.Nesting.{place};
ghost use Rattle.bn_unit.specs.Memory.{AllPlaced};

use arrayvec::ArrayVec;
use bn_frames::Frames;
use bn_types::{
    Asker, Cause, Decl, Digest, Fault, Gpn, Judged, ModId, Mode, PageState, Pages, Rights, Row,
    RowState, SavedFrame, Sort, Steps, Vpn, Width,
};
use bn_unit::{Unit, View};
use n_walk::Nest;
use std::alloc::Global;
use std::marker::Brand;
use std::process::Abort;
use std::sync::ledger::{Blank, Ledger};

/// Sv39 with the root in page 1.
const SATP: u64 = 0x8000000000080001;

/// What page 3 has at offset 8.
const WORD: u64 = 0x1122334455667788;

/// Not the address of a page, since bits 63:39 aren't bit 38.
const NOT_CANONICAL: u64 = 0x8000000000;

/// Leads the page to a free frame.
fn place_page(rt: &impl Abort, nest: &mut Nest, page: Gpn)
    requires inside { page.0 < nest.old.ram }
    requires unplaced { place nest.old page.0 ≡ None }
    ensures placed { place nest.new page.0 ≢ None }
    ensures others { (other : ℕ) → other ≢ page.0 → place nest.new other ≡ place nest.old other }
    ensures ram { nest.new.ram ≡ nest.old.ram }
    ensures frames { length nest.new.frames ≡ length nest.old.frames }
    ensures count { length nest.new.free + 1 ≡ length nest.old.free }
{
    match nest.map(page) {
        Ok(_) => {}
        Err(_) => panic!(rt; "no frame"),
    }
}

/// A nest of 16 pages that are all placed, with 6 frames for its tables and one to spare.
fn place_all(rt: &impl Abort, frames: Frames) -> Nest
    requires { frames ≡ replicate 23 zero_page }
    ensures ram { result.ram ≡ 16 }
    ensures frames { length result.frames ≡ 23 }
    ensures placed { AllPlaced result }
{
    let mut nest = Nest::build(frames, 16);
    for number in 0..16 {
        place_page(rt, &mut nest, Gpn(number));
    }
    nest
}

pub fn unit_of(rt: &impl Abort, alloc: Global) -> Unit
    ensures live { result.live ≡ [] }
    ensures harts { result.cache.harts ≡ 2 }
    ensures ram { result.nest.ram ≡ 16 }
{
    let frames = Frames::zeroed(alloc, 23).expect(rt, "memory");
    let nest = place_all(rt, frames);
    Unit::build(alloc, nest, 16, 2).expect(rt, "memory")
}

/// One who asks in mode S, in Bare.
pub fn bare() -> Asker
    ensures satp { result.satp ≡ 0 }
    ensures hart { result.hart ≡ 0 }
    ensures outside { result.«module».0 ≡ 0 }
{
    Asker {
        hart: 0,
        module: ModId(0),
        mode: Mode::S,
        satp: 0,
        sum: false,
        mxr: false,
    }
}

/// One who asks in mode S, by the tables.
pub fn paged() -> Asker
    ensures satp { result.satp ≡ 0x8000000000080001 }
    ensures hart { result.hart ≡ 0 }
    ensures outside { result.«module».0 ≡ 0 }
{
    Asker {
        satp: SATP,
        ..bare()
    }
}

pub fn store_word<L: Ledger>(
    rt: &impl Abort,
    unit: &mut Unit,
    va: u64,
    word: u64,
    steps: &mut Steps<L>,
)
    requires { 0 < unit.old.cache.harts }
    ensures live { unit.new.live ≡ unit.old.live }
    ensures harts { unit.new.cache.harts ≡ unit.old.cache.harts }
{
    let stored = unit.store(&bare(), va, Width::B8, word, steps);
    assert_eq!(rt; stored, Ok(()));
}

/// A unit with tables. Entries 0 and 2 of the root, in page 1, lead low addresses to page 2, and
/// RAM to its own addresses. A leaf of 2 MiB in page 2 leads to RAM's first page, and page 3 has a
/// word.
fn unit_with_tables<L: Ledger>(rt: &impl Abort, alloc: Global, steps: &mut Steps<L>) -> Unit
    ensures live { result.live ≡ [] }
    ensures harts { result.cache.harts ≡ 2 }
{
    let mut unit = unit_of(rt, alloc);
    store_word(rt, &mut unit, 0x80001000, 0x20000801, steps);
    store_word(rt, &mut unit, 0x80001010, 0x200000cf, steps);
    store_word(rt, &mut unit, 0x80002000, 0x200000cf, steps);
    store_word(rt, &mut unit, 0x80003008, WORD, steps);
    unit
}

fn failed(cause: u64, va: u64) -> Fault {
    Fault {
        cause: Cause(cause),
        va,
        denied: None,
    }
}

fn try_superpage<L: Ledger>(rt: &impl Abort, alloc: Global, blank: Blank)
    requires name { blank.name ≡ L.name }
    requires parts { blank.parts ≡ L.parts }
    requires some { 0 < L.parts }
{
    let mut steps = Steps::<L>::open(blank);
    let mut unit = unit_with_tables(rt, alloc, &mut steps);
    let who = paged();
    let word = unit.load(&who, 0x3008, Width::B8, &mut steps);
    assert_eq!(rt; word, Ok(WORD));
    let byte = unit.load(&who, 0x300b, Width::B1, &mut steps);
    assert_eq!(rt; byte, Ok(0x55));
    let insn = unit.fetch(&who, 0x300c, &mut steps);
    assert_eq!(rt; insn, Ok(0x11223344));

    store_word(rt, &mut unit, 0x80002000, 0x200004cf, &mut steps);
    let load = unit.load(&who, 0, Width::B8, &mut steps);
    assert_eq!(rt; load, Err(failed(13, 0)));
    let load = unit.load(&who, 0x3008, Width::B8, &mut steps);
    assert_eq!(rt; load, Err(failed(13, 0x3008)));
}

fn try_non_canonical<L: Ledger>(rt: &impl Abort, alloc: Global, blank: Blank)
    requires name { blank.name ≡ L.name }
    requires parts { blank.parts ≡ L.parts }
    requires some { 0 < L.parts }
{
    let mut steps = Steps::<L>::open(blank);
    let mut unit = unit_with_tables(rt, alloc, &mut steps);
    let who = paged();
    let fetch = unit.fetch(&who, NOT_CANONICAL, &mut steps);
    assert_eq!(rt; fetch, Err(failed(12, NOT_CANONICAL)));
    let load = unit.load(&who, NOT_CANONICAL, Width::B8, &mut steps);
    assert_eq!(rt; load, Err(failed(13, NOT_CANONICAL)));
    let store = unit.store(&who, NOT_CANONICAL, Width::B8, 0, &mut steps);
    assert_eq!(rt; store, Err(failed(15, NOT_CANONICAL)));
    let load = unit.load(&who, NOT_CANONICAL + 1, Width::B2, &mut steps);
    assert_eq!(rt; load, Err(failed(4, NOT_CANONICAL + 1)));
}

fn try_ram<L: Ledger>(rt: &impl Abort, alloc: Global, blank: Blank)
    requires name { blank.name ≡ L.name }
    requires parts { blank.parts ≡ L.parts }
    requires some { 0 < L.parts }
{
    let mut steps = Steps::<L>::open(blank);
    let mut unit = unit_with_tables(rt, alloc, &mut steps);
    assert_eq!(rt; unit.ram_pages(), 16);
    let who = paged();
    let store = unit.store(&who, 0x300c, Width::B2, 0x99aabbcc, &mut steps);
    assert_eq!(rt; store, Ok(()));
    let load = unit.load(&bare(), 0x80003008, Width::B8, &mut steps);
    assert_eq!(rt; load, Ok(0x1122bbcc55667788));
    // the page behind RAM, which the leaf leads to, and which is at the same place in Bare
    let load = unit.load(&who, 0x10000, Width::B4, &mut steps);
    assert_eq!(rt; load, Err(failed(5, 0x10000)));
    let store = unit.store(&bare(), 0x80010000, Width::B4, 0, &mut steps);
    assert_eq!(rt; store, Err(failed(7, 0x80010000)));
    let fetch = unit.fetch(&bare(), 0x7ffffffc, &mut steps);
    assert_eq!(rt; fetch, Err(failed(1, 0x7ffffffc)));
}

/// Page 3.
fn third_page() -> [u8; 4096] {
    let mut bytes = [0; 4096];
    bytes[8..16].copy_from_slice(&WORD.to_le_bytes());
    bytes
}

/// Page 3 is read over other bytes.
fn expect_third_page<L: Ledger>(rt: &impl Abort, view: &View<'_>, steps: &mut Steps<L>) {
    let mut bytes = [0xff; 4096];
    assert!(rt; view.read_page(Gpn(3), &mut bytes, steps));
    assert!(rt; !view.read_page(Gpn(16), &mut [0; 4096], steps));
    assert_eq!(rt; bytes.as_slice(), third_page().as_slice());
}

fn try_view<L: Ledger>(rt: &impl Abort, alloc: Global, blank: Blank)
    requires name { blank.name ≡ L.name }
    requires parts { blank.parts ≡ L.parts }
    requires some { 0 < L.parts }
{
    let mut steps = Steps::<L>::open(blank);
    let unit = unit_with_tables(rt, alloc, &mut steps);
    let view = unit.view();
    assert_eq!(rt; view.state(Gpn(0)), PageState::Free);
    assert_eq!(rt; view.state(Gpn(15)), PageState::Free);
    assert_eq!(rt; view.state(Gpn(16)), PageState::Outside);
    assert_eq!(rt; view.word(Gpn(1), 16, &mut steps), Some(0x200000cf));
    assert_eq!(rt; view.word(Gpn(1), 8, &mut steps), Some(0));
    assert_eq!(rt; view.word(Gpn(16), 8, &mut steps), None);
    assert_eq!(rt; unit.ram_pages(), 16);
    expect_third_page(rt, &view, &mut steps);
}

/// Module 1, with page 5 as private data where it lies in Bare.
pub fn module_row() -> Row
    ensures inside { All (λ decl. decl.gpn.0 < 16) result.judged.decls.items }
    ensures id { result.id.0 ≡ 1 }
{
    let mut decls = ArrayVec::new();
    decls.push(Decl {
        vpn: Vpn(0x80005),
        gpn: Gpn(5),
        sort: Sort::Private,
        rights: Rights(3),
        mask: 0,
        source: ModId(0),
    });
    Row {
        id: ModId(1),
        judged: Judged {
            digest: Digest([1; 32]),
            mode: Mode::S,
            entries: ArrayVec::new(),
            decls,
            partners: ArrayVec::new(),
        },
        state: RowState::Idle,
        saved: SavedFrame::zero(),
        caller: ModId(0),
        back: SavedFrame::zero(),
    }
}

pub fn denied(cause: u64, va: u64, page: u32) -> Fault {
    Fault {
        denied: Some(Gpn(page)),
        ..failed(cause, va)
    }
}

/// One who asks in module 1.
fn inside() -> Asker
    ensures satp { result.satp ≡ 0 }
    ensures hart { result.hart ≡ 0 }
    ensures id { result.«module».0 ≡ 1 }
{
    Asker {
        module: ModId(1),
        ..bare()
    }
}

fn try_owned<L: Ledger>(rt: &impl Abort, alloc: Global, blank: Blank)
    requires name { blank.name ≡ L.name }
    requires parts { blank.parts ≡ L.parts }
    requires some { 0 < L.parts }
{
    let mut steps = Steps::<L>::open(blank);
    let mut unit = unit_of(rt, alloc);
    unit.own(&module_row());
    let load = unit.load(&bare(), 0x80005008, Width::B8, &mut steps);
    assert_eq!(rt; load, Err(denied(5, 0x80005008, 5)));
    let store = unit.store(&bare(), 0x80005008, Width::B8, 7, &mut steps);
    assert_eq!(rt; store, Err(denied(7, 0x80005008, 5)));
    let store = unit.store(&inside(), 0x80005008, Width::B8, 7, &mut steps);
    assert_eq!(rt; store, Ok(()));
    let load = unit.load(&inside(), 0x80005008, Width::B8, &mut steps);
    assert_eq!(rt; load, Ok(7));
    let fetch = unit.fetch(&inside(), 0x80005008, &mut steps);
    assert_eq!(rt; fetch, Err(denied(1, 0x80005008, 5)));
    let load = unit.load(&inside(), 0x80006000, Width::B8, &mut steps);
    assert_eq!(rt; load, Ok(0));
    let fetch = unit.fetch(&inside(), 0x80006000, &mut steps);
    assert_eq!(rt; fetch, Err(denied(1, 0x80006000, 6)));
    expect_owned(rt, &unit.view(), &mut steps);
}

/// Page 5 is a module's: no table is read there, nor a word.
fn expect_owned<L: Ledger>(rt: &impl Abort, view: &View<'_>, steps: &mut Steps<L>) {
    assert_eq!(rt; view.state(Gpn(4)), PageState::Free);
    assert_eq!(rt; view.state(Gpn(5)), PageState::Owned);
    assert_eq!(rt; view.word(Gpn(5), 8, steps), None);
    assert!(rt; !view.read_page(Gpn(5), &mut [0; 4096], steps));
}

#[test]
fn an_owned_page_is_its_modules_alone(rt: HostRuntime) {
    try_owned::<Brand>(&rt, rt.alloc(), Blank::new(1));
}

#[test]
fn a_leaf_of_two_mebibytes_is_aligned(rt: HostRuntime) {
    try_superpage::<Brand>(&rt, rt.alloc(), Blank::new(1));
}

#[test]
fn non_canonical_addresses_are_refused(rt: HostRuntime) {
    try_non_canonical::<Brand>(&rt, rt.alloc(), Blank::new(1));
}

#[test]
fn the_unit_ends_where_ram_ends(rt: HostRuntime) {
    try_ram::<Brand>(&rt, rt.alloc(), Blank::new(1));
}

#[test]
fn a_view_has_the_pages_of_ram(rt: HostRuntime) {
    try_view::<Brand>(&rt, rt.alloc(), Blank::new(1));
}

fn try_devices<L: Ledger>(rt: &impl Abort, alloc: Global, blank: Blank)
    requires name { blank.name ≡ L.name }
    requires parts { blank.parts ≡ L.parts }
    requires some { 0 < L.parts }
{
    let mut steps = Steps::<L>::open(blank);
    let mut unit = unit_of(rt, alloc);
    assert!(rt; unit.poke(Gpn(5), 8, 0x7f, &mut steps));
    assert_eq!(rt; unit.peek(Gpn(5), 8, &mut steps), Some(0x7f));
    assert_eq!(rt; unit.peek(Gpn(5), 7, &mut steps), Some(0));
    assert_eq!(rt; unit.peek(Gpn(5), 9, &mut steps), Some(0));
    let load = unit.load(&bare(), 0x80005008, Width::B8, &mut steps);
    assert_eq!(rt; load, Ok(0x7f));
    // the last byte of RAM, and no page behind it
    assert!(rt; unit.poke(Gpn(15), 4095, 0x80, &mut steps));
    assert_eq!(rt; unit.peek(Gpn(15), 4095, &mut steps), Some(0x80));
    assert!(rt; !unit.poke(Gpn(16), 0, 0x80, &mut steps));
    assert_eq!(rt; unit.peek(Gpn(16), 0, &mut steps), None);
    assert_eq!(rt; unit.peek(Gpn(2000), 0, &mut steps), None);
}

fn try_border<L: Ledger>(rt: &impl Abort, alloc: Global, blank: Blank)
    requires name { blank.name ≡ L.name }
    requires parts { blank.parts ≡ L.parts }
    requires some { 0 < L.parts }
{
    let mut steps = Steps::<L>::open(blank);
    let mut unit = unit_of(rt, alloc);
    assert!(rt; unit.poke(Gpn(6), 0, 1, &mut steps));
    assert!(rt; unit.poke(Gpn(5), 4095, 2, &mut steps));
    assert_eq!(rt; unit.peek(Gpn(5), 4095, &mut steps), Some(2));
    assert_eq!(rt; unit.peek(Gpn(6), 0, &mut steps), Some(1));
    assert_eq!(rt; unit.peek(Gpn(6), 4095, &mut steps), Some(0));
    assert_eq!(rt; unit.peek(Gpn(4), 4095, &mut steps), Some(0));
}

fn try_owned_byte<L: Ledger>(rt: &impl Abort, alloc: Global, blank: Blank)
    requires name { blank.name ≡ L.name }
    requires parts { blank.parts ≡ L.parts }
    requires some { 0 < L.parts }
{
    let mut steps = Steps::<L>::open(blank);
    let mut unit = unit_of(rt, alloc);
    assert!(rt; unit.poke(Gpn(5), 8, 7, &mut steps));
    unit.own(&module_row());
    assert!(rt; !unit.poke(Gpn(5), 8, 9, &mut steps));
    assert_eq!(rt; unit.peek(Gpn(5), 8, &mut steps), None);
    let load = unit.load(&inside(), 0x80005008, Width::B8, &mut steps);
    assert_eq!(rt; load, Ok(7));
    // its neighbours are free
    assert!(rt; unit.poke(Gpn(4), 4095, 9, &mut steps));
    assert_eq!(rt; unit.peek(Gpn(6), 0, &mut steps), Some(0));
}

#[test]
fn devices_reach_the_bytes_of_ram(rt: HostRuntime) {
    try_devices::<Brand>(&rt, rt.alloc(), Blank::new(1));
}

#[test]
fn a_poke_stays_in_its_page(rt: HostRuntime) {
    try_border::<Brand>(&rt, rt.alloc(), Blank::new(1));
}

#[test]
fn devices_leave_owned_pages(rt: HostRuntime) {
    try_owned_byte::<Brand>(&rt, rt.alloc(), Blank::new(1));
}
