//! A machine as it begins.
ghost use Rattle.std.specs.Prelude.{◌≡◌, ◌≢◌, ◌+◌, ◌*◌, ◌%◌, ◌<◌, ◌≤◌, ◌++◌, ◌∷◌, ℕ, [], None};
ghost use Rattle.std.specs.Prelude.{Some, false, IfOk, OnOk, length, replicate, slice_set};
ghost use Rattle.bn_types.specs.Numbers.{page_at, zero_page};
ghost use Rattle.bn_model.specs.Nesting.{contents, place, table_frames};
ghost use Rattle.bn_model.specs.Opening as flat;
ghost use Rattle.bn_model.specs.Records.{AreRecords};
ghost use Rattle.bn_machine.specs.Standing.{IsMachine};
ghost use Rattle.bn_machine.specs.Loads.{opening_of};
ghost use Rattle.bn_unit.specs.Memory.{AllPlaced};

use crate::Settings;
use crate::engine::Engine;
use crate::hart::Hart;
use crate::machine::Machine;
use bn_frames::Frames;
use bn_loader::Loaded;
use bn_store::Store;
use bn_types::{Frame, Gpn, NoMemory, Width};
use bn_unit::Unit;
use n_walk::{Nest, PoolEmpty};
use std::alloc::Global;

/// The bytes of a page of zeros.
const ZEROS: [u8; 4096] = [0; 4096];

/// Frames that are free when all pages are placed.
const SPARE_FRAMES: u32 = 16;

impl Machine {
    /// The machine with the image in its RAM, hart 0 at the image's entry, and the stored words.
    #[tactic(auto, unfolding(bn_model::specs::Opening::opening))]
    pub fn boot(
        alloc: Global,
        settings: Settings,
        image: &Loaded,
        store: Store,
    ) -> Result<Machine, NoMemory>
        requires pages { (0 < settings.ram_pages) × (settings.ram_pages ≤ 4096) }
        requires harts { (0 < settings.harts) × (settings.harts ≤ 4) }
        requires whole { length image.now.bytes.items ≡ 4096 * settings.ram_pages }
        requires entry { image.now.entry % 4 ≡ 0 }
        ensures opens { IfOk result (λ machine. machine.state
            ≡ opening_of settings image.now store) }
        ensures stands { IfOk result (λ machine. IsMachine machine) }
        // Each page has a frame. Beside them are the tables' frames and 16 to spare.
        ensures placed { IfOk result (λ machine. AllPlaced machine.parts.nest) }
        ensures frames { IfOk result (λ machine. length machine.parts.nest.frames
            ≡ table_frames settings.ram_pages + settings.ram_pages + 16) }
    {
        let frames = Frames::zeroed(alloc, count_frames(settings.ram_pages))?;
        let nest = place_image(frames, settings.ram_pages, &image.bytes);
        let unit = Unit::build(alloc, nest, settings.ram_pages, settings.harts)?;
        let harts = start_harts(alloc, settings.harts, image.entry)?;
        // For the prover: what holds of every store.
        store.facts();
        let engine = Engine::of(unit, harts, store);
        // For the prover: the parts stand for a state of the flat machine.
        engine.stand();
        Ok(begin(engine, settings, &image.bytes, image.entry))
    }
}

/// The machine whose parts stand for the opening state.
fn begin(engine: Engine, settings: Settings, bytes: &[u8], entry: u64) -> Machine
    requires pages { (0 < settings.ram_pages) × (settings.ram_pages ≤ 4096) }
    requires harts { (0 < settings.harts) × (settings.harts ≤ 4) }
    requires whole { length bytes.now ≡ 4096 * settings.ram_pages }
    requires entry { entry % 4 ≡ 0 }
    requires records { AreRecords engine.state.records }
    requires opens { engine.state ≡ flat.opening settings.ram_pages settings.harts
        (record { bytes = bytes.now; entry = entry }) engine.state.records }
    ensures { result ≡ engine }
{
    Machine { engine }
}

/// As many frames as the nested tables have, one for each page, and some to spare.
fn count_frames(ram_pages: u32) -> u32
    requires { ram_pages ≤ 4096 }
    ensures { result ≡ table_frames ram_pages + ram_pages + 16 }
{
    5 + ram_pages.div_ceil(512) + ram_pages + SPARE_FRAMES
}

/// Hart 0 is started at the entry; the others rest.
fn start_harts(alloc: Global, count: u8, entry: u64) -> Result<Vec<Hart>, NoMemory>
    requires some { 0 < count }
    requires aligned { entry % 4 ≡ 0 }
    ensures harts { IfOk result (λ harts. harts.items ≡ flat.opening_harts count entry) }
    ensures some { IfOk result (λ harts. 0 < length harts.items) }
    ensures count { IfOk result (λ harts. length harts.items ≡ count) }
{
    let mut harts = Vec::new(alloc);
    push_hart(&mut harts, Hart::started(entry))?;
    for _hart in 1..count {
        push_hart(&mut harts, Hart::resting())?;
    }
    Ok(harts)
}

fn push_hart(harts: &mut Vec<Hart>, hart: Hart) -> Result<(), NoMemory>
    ensures { OnOk result (harts.new.items ≡ harts.old.items ++ hart ∷ []) }
{
    match harts.push(hart) {
        Ok(()) => Ok(()),
        Err(_) => Err(NoMemory),
    }
}

/// Places all pages of RAM, with the bytes in them.
fn place_image(frames: Frames, ram_pages: u32, bytes: &[u8]) -> Nest
    requires pages { (0 < ram_pages) × (ram_pages ≤ 4096) }
    requires frames { frames ≡ replicate (table_frames ram_pages + ram_pages + 16) zero_page }
    requires size { length bytes.now ≡ 4096 * ram_pages }
    ensures contents { contents result ≡ flat.pages_of ram_pages bytes.now }
    ensures ram { result.ram ≡ ram_pages }
    ensures frames { length result.frames ≡ table_frames ram_pages + ram_pages + 16 }
    ensures placed { AllPlaced result }
{
    let mut nest = Nest::build(frames, ram_pages);
    for number in 0..ram_pages {
        let page = Gpn(number);
        let frame = place_page(&mut nest, page);
        let start = number as usize * 4096;
        fill_page(&mut nest, page, frame, &bytes[start..start + 4096]);
    }
    nest
}

/// Leads a page of RAM to a free frame of zeros.
fn place_page(nest: &mut Nest, page: Gpn) -> Frame
    requires inside { page.0 < nest.old.ram }
    requires unplaced { place nest.old page.0 ≡ None }
    requires spare { 0 < length nest.old.free }
    ensures placed { place nest.new page.0 ≡ Some result }
    ensures others { (other : ℕ) → other ≢ page.0 → place nest.new other ≡ place nest.old other }
    ensures contents { contents nest.new ≡ contents nest.old }
    ensures ram { nest.new.ram ≡ nest.old.ram }
    ensures frames { length nest.new.frames ≡ length nest.old.frames }
    ensures count { length nest.new.free + 1 ≡ length nest.old.free }
{
    match nest.map(page) {
        Ok(frame) => frame,
        Err(PoolEmpty) => unreachable!(),
    }
}

/// Puts 4,096 bytes in a page of zeros, where they aren't all zeros.
fn fill_page(nest: &mut Nest, page: Gpn, frame: Frame, bytes: &[u8])
    requires placed { place nest.old page.0 ≡ Some frame }
    requires inside { page.0 < length (contents nest.old) }
    requires size { length bytes.now ≡ 4096 }
    requires zeros { page_at (contents nest.old) page.0 ≡ zero_page }
    ensures contents { contents nest.new ≡ slice_set (contents nest.old) page.0 bytes.now }
    ensures places { (other : ℕ) → place nest.new other ≡ place nest.old other }
    ensures ram { nest.new.ram ≡ nest.old.ram }
    ensures free { nest.new.free ≡ nest.old.free }
    ensures frames { length nest.new.frames ≡ length nest.old.frames }
{
    if bytes != ZEROS.as_slice() {
        write_page(nest, page, frame, bytes);
    }
}

/// Writes 4,096 bytes to the frame of a page.
fn write_page(nest: &mut Nest, page: Gpn, frame: Frame, bytes: &[u8])
    requires placed { place nest.old page.0 ≡ Some frame }
    requires inside { page.0 < length (contents nest.old) }
    requires size { length bytes.now ≡ 4096 }
    requires whole { length (page_at (contents nest.old) page.0) ≡ 4096 }
    ensures contents { contents nest.new ≡ slice_set (contents nest.old) page.0 bytes.now }
    ensures places { (other : ℕ) → place nest.new other ≡ place nest.old other }
    ensures ram { nest.new.ram ≡ nest.old.ram }
    ensures free { nest.new.free ≡ nest.old.free }
    ensures frames { length nest.new.frames ≡ length nest.old.frames }
{
    for offset in 0..4096u16 {
        nest.store(frame, offset, Width::B1, u64::from(bytes[offset as usize]));
    }
}
