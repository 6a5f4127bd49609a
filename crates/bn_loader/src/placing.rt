//! Segments placed in RAM.
ghost use Rattle.std.specs.Prelude.{◌≡◌, ◌+◌, ◌-◌, ◌*◌, ◌++◌, ◌≤◌, IfOk, length, replicate};
ghost use Rattle.bn_types.specs.Numbers.{number_at};
ghost use Rattle.bn_types.specs.declared.width.Width.TheVariants as width;
ghost use Rattle.bn_model.specs.Images as flat;
ghost use Rattle.bn_loader.specs.Segments.{Fits, as_flat};

use crate::checking::RAM_BASE;
use crate::header::{Header, header_at};
use crate::numbers::{u16_at, u64_at};
use bn_types::NoMemory;
use std::alloc::Global;

/// RAM of so many zeros.
pub fn zeros(alloc: Global, size: usize) -> Result<Vec<u8>, NoMemory>
    ensures { IfOk result (λ bytes. bytes.items ≡ replicate size 0) }
{
    let Ok(mut bytes) = Vec::with_capacity(alloc, size) else {
        return Err(NoMemory);
    };
    if bytes.resize(size, 0).is_err() {
        return Err(NoMemory);
    }
    Ok(bytes)
}

/// Places the segments of a checked ELF file, in order.
#[tactic(auto, unfolding(bn_model::specs::Images::places))]
pub fn place_segments(file: &[u8], ram: &mut [u8])
    requires size { length ram.old ≤ 16777216 }
    requires long { 64 ≤ length file.now }
    requires headers { number_at width.B8 file.now 32 + 56 * number_at width.B2 file.now 56
        ≤ length file.now }
    requires checked { flat.all_checked (length ram.old) file.now (flat.places file.now) ≡ Ok tt }
    ensures { ram.new ≡ flat.with_segments file.now (flat.places file.now) ram.old }
{
    let first = u64_at(file, 32) as usize;
    let count = usize::from(u16_at(file, 56));
    for i in 0..count {
        place_counted(file, first + 56 * i, ram);
    }
}

fn place_counted(file: &[u8], place: usize, ram: &mut [u8])
    requires size { length ram.old ≤ 16777216 }
    requires within { place + 56 ≤ length file.now }
    requires checked { flat.header_checked (length ram.old) file.now place ≡ Ok tt }
    ensures { ram.new ≡ flat.with_segment_if (flat.counts (flat.header_at file.now place)) file.now
        (flat.header_at file.now place) ram.old }
{
    let header = header_at(file, place);
    if header.counts() {
        place_segment(file, &header, ram);
    }
}

#[tactic(auto, unfolding(bn_model::specs::Images::with_segment))]
fn place_segment(file: &[u8], header: &Header, ram: &mut [u8])
    requires size { length ram.old ≤ 16777216 }
    requires fits { Fits (length file.now) (length ram.old) (as_flat header.now) }
    ensures { ram.new ≡ flat.with_segment file.now (as_flat header.now) ram.old }
{
    let at = (header.address - RAM_BASE) as usize;
    let from = header.offset as usize;
    let bytes = &file[from..from + header.in_file as usize];
    place_bytes(&mut ram[at..at + header.in_memory as usize], bytes);
}

/// Bytes, then zeros.
fn place_bytes(part: &mut [u8], bytes: &[u8])
    requires { length bytes.now ≤ length part.old }
    ensures { part.new ≡ bytes.now ++ replicate (length part.old - length bytes.now) 0 }
{
    part[..bytes.len()].copy_from_slice(bytes);
    set_to_zero(&mut part[bytes.len()..]);
}

fn set_to_zero(part: &mut [u8])
    ensures { part.new ≡ replicate (length part.old) 0 }
{
    part.fill(0);
}
