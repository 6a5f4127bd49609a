ghost use Rattle.std.specs.Prelude.{◌≡◌, ◌*◌, ◌%◌, ◌^◌, ◌<◌, length, replicate, slice_set, IfOk};
ghost use Rattle.bn_types.specs.Numbers.{bytes_of, number_at, page_at, with_number, zero_page};

use bn_types::{Frame, NoMemory, Width};
use std::alloc::Global;
use std::marker::Model;

/// The frames of the machine, numbered from 0, of 4,096 bytes each.
#[derive(Drop)]
pub struct Frames {
    pages: Vec<[u8; 4096]>,
}

impl Model for Frames {
    ghost use Rattle.std.specs.Prelude.{ℕ, ◌^◌, ◌<◌, List, vec_len};

    ghost Value = { List (List ℕ) };

    ghost view = { λ f. f.pages.items };

    ghost invariant = { λ f. vec_len f.pages < 2 ^ 32 };
}

impl Frames {
    /// Frames of zeros. It takes memory, and no other call does.
    pub fn zeroed(alloc: Global, count: u32) -> Result<Frames, NoMemory>
        ensures { IfOk result (λ frames. frames ≡ replicate count zero_page) }
    {
        let Ok(mut pages) = Vec::with_capacity(alloc, count as usize) else {
            return Err(NoMemory);
        };
        for _frame in 0..count {
            if pages.push(zeros()).is_err() {
                return Err(NoMemory);
            }
        }
        Ok(Frames { pages })
    }

    /// How many frames there are.
    pub fn count(&self) -> u32
        ensures { result ≡ length self.now }
    {
        self.pages.len() as u32
    }

    /// The number that stands in the frame at the offset, a multiple of the width below 4,096.
    pub fn get(&self, frame: Frame, offset: u16, width: Width) -> u64
        requires frame { frame.0 < length self.now }
        requires aligned { offset % bytes_of width ≡ 0 }
        requires inside { offset < 4096 }
        ensures number { result ≡ number_at width (page_at self.now frame.0) offset }
        ensures fits { result < 2 ^ (8 * bytes_of width) }
    {
        number_in(&self.pages[frame.0 as usize], offset as usize, width)
    }

    /// Writes the low bytes of the value to the frame at the offset, a multiple of the width below
    /// 4,096.
    pub fn put(&mut self, frame: Frame, offset: u16, width: Width, value: u64)
        requires frame { frame.0 < length self.old }
        requires aligned { offset % bytes_of width ≡ 0 }
        requires inside { offset < 4096 }
        ensures { let page = with_number width (page_at self.old frame.0) offset value in
            self.new ≡ slice_set self.old frame.0 page }
    {
        write_number(
            &mut self.pages[frame.0 as usize],
            offset as usize,
            width,
            value,
        );
    }

    /// Makes all bytes of the frame 0.
    pub fn zero(&mut self, frame: Frame)
        requires { frame.0 < length self.old }
        ensures { self.new ≡ slice_set self.old frame.0 zero_page }
    {
        self.pages[frame.0 as usize] = zeros();
    }

    /// Copies the bytes of one frame to another.
    pub fn copy_frame(&mut self, from: Frame, to: Frame)
        requires from { from.0 < length self.old }
        requires to { to.0 < length self.old }
        ensures { self.new ≡ slice_set self.old to.0 (page_at self.old from.0) }
    {
        let page = self.pages[from.0 as usize];
        self.pages[to.0 as usize] = page;
    }
}

fn zeros() -> [u8; 4096]
    ensures { result ≡ zero_page }
{
    [0; 4096]
}

#[tactic(auto, unfolding(bn_types::specs::Numbers::number_at))]
fn number_in(page: &[u8], at: usize, width: Width) -> u64
    requires size { length page.now ≡ 4096 }
    requires aligned { at % bytes_of width ≡ 0 }
    requires inside { at < 4096 }
    ensures number { result ≡ number_at width page.now at }
    ensures fits { result < 2 ^ (8 * bytes_of width) }
{
    match width {
        Width::B1 => u64::from(page[at]),
        Width::B2 => u64::from(u16::from_le_bytes([page[at], page[at + 1]])),
        Width::B4 => u64::from(u32::from_le_bytes([
            page[at],
            page[at + 1],
            page[at + 2],
            page[at + 3],
        ])),
        Width::B8 => u64::from_le_bytes([
            page[at],
            page[at + 1],
            page[at + 2],
            page[at + 3],
            page[at + 4],
            page[at + 5],
            page[at + 6],
            page[at + 7],
        ]),
    }
}

#[tactic(auto, unfolding(bn_types::specs::Numbers::with_number))]
fn write_number(page: &mut [u8], at: usize, width: Width, value: u64)
    requires size { length page.old ≡ 4096 }
    requires aligned { at % bytes_of width ≡ 0 }
    requires inside { at < 4096 }
    ensures { page.new ≡ with_number width page.old at value }
{
    match width {
        Width::B1 => page[at..at + 1].copy_from_slice(&((value % 0x100) as u8).to_le_bytes()),
        Width::B2 => page[at..at + 2].copy_from_slice(&((value % 0x1_0000) as u16).to_le_bytes()),
        Width::B4 => {
            page[at..at + 4].copy_from_slice(&((value % 0x1_0000_0000) as u32).to_le_bytes())
        }
        Width::B8 => page[at..at + 8].copy_from_slice(&value.to_le_bytes()),
    }
}
