ghost use Rattle.std.specs.Prelude.{◌≡◌, ℕ, ◌+◌, ◌-◌, ◌*◌, ◌/◌, ◌%◌, ◌^◌, ◌<◌, ◌≤◌, ◌↔◌, ◌≢◌, List};
ghost use Rattle.std.specs.Prelude.{None, Some, length, replicate, slice_set, IfOk, OnOk, OnErr};
ghost use Rattle.std.specs.Prelude.{IsOk, IsErr};
ghost use Rattle.bn_types.specs.Numbers.{AreWhole, bytes_of, number_at, page_at, with_number};
ghost use Rattle.bn_types.specs.Numbers.{zero_page};
ghost use Rattle.bn_types.specs.declared.frame.Frame.{Frame};
ghost use Rattle.bn_model.specs.Nesting.{entry_at, leaf_to, low_entry, pointer_to, low_tables};
ghost use Rattle.bn_model.specs.Nesting.{contents, place, table_frames, words_walked, IsNested};
ghost use Rattle.bn_model.specs.Nesting.{IsFree, NoneFree};
ghost use Rattle.n_walk.specs.Building.{HasMiddle, IsWritten, numbered};

use crate::PoolEmpty;
use arrayvec::ArrayVec;
use bn_frames::Frames;
use bn_types::{Frame, Gpn, Steps, Width};
use std::marker::Model;
use std::sync::ledger::Ledger;

/// The page number of guest physical address 0x80000000, where RAM begins.
const RAM_START: u32 = 0x80000;

/// The machine's frames, with the nested page tables in the first of them and guest pages in
/// others. A frame is free where it is no table's and no page lies on it.
#[derive(Drop)]
pub struct Nest {
    frames: Frames,
    free: ArrayVec<Frame, 4125>,
    ram_pages: u32,
}

impl Model for Nest {
    ghost use Rattle.bn_model.specs.Nesting.{Nested};
    ghost use Rattle.n_walk.specs.Holding.{Holds};

    ghost Value = { Nested };

    ghost view = { λ s. record { frames = s.frames; free = s.free.items; ram = s.ram_pages } };

    ghost invariant = { λ s. Holds (record
        { frames = s.frames; free = s.free.items; ram = s.ram_pages }) };
}

impl Nest {
    /// The nest of a machine with this many pages of RAM, from 1 to 4,096, over frames of zeros, of
    /// which there are at most 4,125 and enough for the tables. No page has a frame.
    pub fn build(mut frames: Frames, ram_pages: u32) -> Nest
        requires ram { (0 < ram_pages) × (ram_pages ≤ 4096) }
        requires zeros { frames ≡ replicate (length frames) zero_page }
        requires room { (table_frames ram_pages ≤ length frames) × (length frames ≤ 4125) }
        ensures ram { result.ram ≡ ram_pages }
        ensures unplaced { (page : ℕ) → place result page ≡ None }
        ensures contents { contents result ≡ replicate ram_pages zero_page }
        ensures free { length result.free + table_frames ram_pages ≡ length frames }
        ensures frames { length result.frames ≡ length frames }
    {
        let low_tables = ram_pages.div_ceil(512);
        write_entry(&mut frames, Frame(0), 2, pointer(4));
        write_middle(&mut frames, low_tables);
        let free = frames_from(5 + low_tables, frames.count());
        Nest {
            frames,
            free,
            ram_pages,
        }
    }

    /// How many pages RAM has, from 1 to 4,096.
    pub fn ram_pages(&self) -> u32
        ensures value { result ≡ self.now.ram }
        ensures range { (0 < result) × (result ≤ 4096) }
    {
        self.ram_pages
    }

    /// What holds of every nest: its tables are the tree of its placement, and each of its pages,
    /// from 1 to 4,096, has 4,096 bytes. It does nothing.
    pub fn facts(&self)
        ensures nested { IsNested self.now }
        ensures whole { AreWhole (contents self.now) }
        ensures count { length (contents self.now) ≡ self.now.ram }
        ensures range { (0 < self.now.ram) × (self.now.ram ≤ 4096) }
    {
        // For the prover: reading a field tells what the invariant says of it.
        let _frames = &self.frames;
    }

    /// The frame of a page, by a walk of the nested tables: three words read for a page in RAM, and
    /// none for others. None where the page is outside RAM or has no frame.
    pub fn look<L: Ledger>(&self, page: Gpn, steps: &mut Steps<L>) -> Option<Frame>
        ensures placed { result ≡ place self.now page.0 }
        ensures nested { IsNested self.now }
        ensures read { steps.new ≡ steps.old + words_walked self.now.ram page.0 }
    {
        if page.0 >= self.ram_pages {
            return None;
        }
        let number = RAM_START + page.0;
        let root = number >> 18;
        let pointer = entry(&self.frames, Frame(root / 512), root % 512, steps);
        let middle = Frame((pointer >> 10) as u32);
        let pointer = entry(&self.frames, middle, (number >> 9) % 512, steps);
        let low = Frame((pointer >> 10) as u32);
        let leaf = entry(&self.frames, low, number % 512, steps);
        if leaf == 0 {
            None
        } else {
            Some(Frame((leaf >> 10) as u32))
        }
    }

    /// Leads a page of RAM that has no frame to a free frame, which then holds zeros. Refused
    /// exactly where no frame is free, and nothing changes then.
    pub fn map(&mut self, page: Gpn) -> Result<Frame, PoolEmpty>
        requires inside { page.0 < self.old.ram }
        requires unplaced { place self.old page.0 ≡ None }
        ensures answer { IsErr result ↔ NoneFree self.old }
        ensures refused { OnErr result (self.new ≡ self.old) }
        ensures free { IfOk result (λ frame. IsFree self.old frame) }
        ensures placed { IfOk result (λ frame. place self.new page.0 ≡ Some frame) }
        ensures others { (other : ℕ) → other ≢ page.0
            → place self.new other ≡ place self.old other }
        ensures contents { contents self.new ≡ contents self.old }
        ensures nested { IsNested self.new }
        ensures ram { self.new.ram ≡ self.old.ram }
        ensures frames { length self.new.frames ≡ length self.old.frames }
        ensures some { 0 < length self.old.free → IsOk result }
        ensures count { OnOk result (length self.new.free + 1 ≡ length self.old.free) }
    {
        let Some(fresh) = self.free.pop() else {
            return Err(PoolEmpty);
        };
        self.frames.zero(fresh);
        lead(&mut self.frames, page, fresh);
        Ok(fresh)
    }

    /// Moves a page that has a frame to a free one. Its bytes go with it, and the frame that it
    /// leaves is free and holds zeros. Refused exactly where no frame is free, and nothing changes
    /// then.
    pub fn move_page(&mut self, page: Gpn) -> Result<Frame, PoolEmpty>
        requires inside { page.0 < self.old.ram }
        requires placed { place self.old page.0 ≢ None }
        ensures answer { IsErr result ↔ NoneFree self.old }
        ensures refused { OnErr result (self.new ≡ self.old) }
        ensures free { IfOk result (λ frame. IsFree self.old frame) }
        ensures placed { IfOk result (λ frame. place self.new page.0 ≡ Some frame) }
        ensures others { (other : ℕ) → other ≢ page.0
            → place self.new other ≡ place self.old other }
        ensures contents { contents self.new ≡ contents self.old }
        ensures left { (frame : Frame) → place self.old page.0 ≡ Some frame → OnOk result
            (IsFree self.new frame) }
        ensures zeros { (frame : Frame) → place self.old page.0 ≡ Some frame
            → OnOk result (page_at self.new.frames frame.0 ≡ zero_page) }
        ensures nested { IsNested self.new }
        ensures ram { self.new.ram ≡ self.old.ram }
        ensures frames { length self.new.frames ≡ length self.old.frames }
        ensures some { 0 < length self.old.free → IsOk result }
        ensures count { length self.new.free ≡ length self.old.free }
    {
        // For the prover: a length read is the length of the list.
        let _count = self.free.len();
        let Some(target) = self.free.pop() else {
            return Err(PoolEmpty);
        };
        let left = leaf_frame(&self.frames, page);
        self.frames.copy_frame(left, target);
        lead(&mut self.frames, page, target);
        self.frames.zero(left);
        self.free.push(left);
        Ok(target)
    }

    /// The number that stands in a page's frame at the offset, a multiple of the width below 4,096.
    pub fn load(&self, frame: Frame, offset: u16, width: Width) -> u64
        requires placed { (page : ℕ) × (place self.now page ≡ Some frame) }
        requires aligned { offset % bytes_of width ≡ 0 }
        requires inside { offset < 4096 }
        ensures number { (page : ℕ) → place self.now page ≡ Some frame
            → result ≡ number_at width (page_at (contents self.now) page) offset }
        ensures fits { result < 2 ^ (8 * bytes_of width) }
    {
        self.frames.get(frame, offset, width)
    }

    /// Writes the low bytes of the value to a page's frame at the offset, a multiple of the width
    /// below 4,096.
    pub fn store(&mut self, frame: Frame, offset: u16, width: Width, value: u64)
        requires placed { (page : ℕ) × (place self.old page ≡ Some frame) }
        requires aligned { offset % bytes_of width ≡ 0 }
        requires inside { offset < 4096 }
        ensures written { (page : ℕ) → place self.old page ≡ Some frame
            → (let bytes = with_number width (page_at (contents self.old) page) offset value in
            contents self.new ≡ slice_set (contents self.old) page bytes) }
        ensures nested { IsNested self.new }
        ensures places { (page : ℕ) → place self.new page ≡ place self.old page }
        ensures ram { self.new.ram ≡ self.old.ram }
        ensures free { self.new.free ≡ self.old.free }
        ensures frames { length self.new.frames ≡ length self.old.frames }
    {
        self.frames.put(frame, offset, width, value);
    }

    /// Makes all bytes of a page's frame 0.
    pub fn zero(&mut self, frame: Frame)
        requires { (page : ℕ) × (place self.old page ≡ Some frame) }
        ensures written { (page : ℕ) → place self.old page ≡ Some frame
            → contents self.new ≡ slice_set (contents self.old) page zero_page }
        ensures nested { IsNested self.new }
        ensures places { (page : ℕ) → place self.new page ≡ place self.old page }
        ensures ram { self.new.ram ≡ self.old.ram }
        ensures free { self.new.free ≡ self.old.free }
        ensures frames { length self.new.frames ≡ length self.old.frames }
    {
        self.frames.zero(frame);
    }
}

/// Reads an entry of a table, and counts it.
#[tactic(auto, unfolding(bn_model::specs::Nesting::entry_at))]
fn entry<L: Ledger>(frames: &Frames, table: Frame, index: u32, steps: &mut Steps<L>) -> u64
    requires table { table.0 < length frames.now }
    requires index { index < 512 }
    ensures value { result ≡ entry_at frames.now table.0 index }
    ensures read { steps.new ≡ steps.old + 1 }
{
    steps.tick();
    frames.get(table, (8 * index) as u16, Width::B8)
}

/// The frame to which the page's entry in the low tables leads.
#[tactic(auto, unfolding(bn_model::specs::Nesting::entry_at))]
fn leaf_frame(frames: &Frames, page: Gpn) -> Frame
    requires page { page.0 < 4096 }
    requires table { 5 + page.0 / 512 < length frames.now }
    requires fits { low_entry frames.now page.0 / 2 ^ 10 < 2 ^ 32 }
    ensures { result.0 ≡ low_entry frames.now page.0 / 2 ^ 10 }
{
    let table = Frame(5 + page.0 / 512);
    let leaf = frames.get(table, (page.0 % 512 * 8) as u16, Width::B8);
    Frame((leaf >> 10) as u32)
}

/// Makes the page's entry in the low tables a leaf that leads to the frame.
fn lead(frames: &mut Frames, page: Gpn, frame: Frame)
    requires page { page.0 < 4096 }
    requires table { 5 + page.0 / 512 < length frames.old }
    requires whole { AreWhole frames.old }
    ensures { IsWritten frames.old frames.new (5 + page.0 / 512) (page.0 % 512)
        (leaf_to (Some frame)) }
{
    let leaf = (u64::from(frame.0) << 10) + 0xDF;
    write_entry(frames, Frame(5 + page.0 / 512), page.0 % 512, leaf);
}

/// Writes the middle table's pointers to the low tables.
fn write_middle(frames: &mut Frames, low_tables: u32)
    requires tables { 4 < length frames.old }
    requires most { low_tables ≤ 512 }
    requires whole { AreWhole frames.old }
    ensures { HasMiddle frames.old frames.new low_tables }
{
    for index in 0..low_tables {
        write_entry(frames, Frame(4), index, pointer(5 + index));
    }
}

/// Writes an entry of a table.
fn write_entry(frames: &mut Frames, table: Frame, index: u32, entry: u64)
    requires table { table.0 < length frames.old }
    requires index { index < 512 }
    requires whole { AreWhole frames.old }
    ensures { IsWritten frames.old frames.new table.0 index entry }
{
    frames.put(table, (8 * index) as u16, Width::B8, entry);
}

/// The entry that leads to a table.
fn pointer(table: u32) -> u64
    ensures { result ≡ pointer_to table }
{
    (u64::from(table) << 10) + 0x01
}

/// The frames from the first to before the end.
fn frames_from(first: u32, end: u32) -> ArrayVec<Frame, 4125>
    requires order { first ≤ end }
    requires most { end ≤ 4125 }
    ensures items { result.items ≡ numbered first (end - first) }
    ensures count { length result.items ≡ end - first }
{
    let mut frames = ArrayVec::new();
    for frame in first..end {
        // For the prover: a length read is the length of the list.
        let _count = frames.len();
        frames.push(Frame(frame));
    }
    frames
}
