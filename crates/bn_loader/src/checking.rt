//! The tests of an ELF file, in order.
ghost use Rattle.std.specs.Prelude.{◌≡◌, ◌+◌, ◌*◌, ◌==◌, ◌≤◌, OnOk, length, nat_le};
ghost use Rattle.bn_types.specs.Numbers.{number_at};
ghost use Rattle.bn_types.specs.declared.width.Width.TheVariants as width;
ghost use Rattle.bn_model.specs.Images as flat;
ghost use Rattle.bn_loader.specs.Segments.{as_flat};

use crate::header::{Header, header_at};
use crate::numbers::{u8_at, u16_at, u64_at};
use bn_types::{ImageFault, ImageSort};

/// The address at which RAM begins.
pub const RAM_BASE: u64 = 0x8000_0000;

/// Whether an ELF file can be loaded into a RAM of so many bytes; the first test that fails.
#[tactic(auto, unfolding(bn_model::specs::Images::elf_checked))]
pub fn check_elf(file: &[u8], size: u64) -> Result<(), ImageFault>
    requires { size ≤ 16777216 }
    ensures exact { result ≡ flat.elf_checked size file.now }
    ensures headers { OnOk result
        (number_at width.B8 file.now 32 + 56 * number_at width.B2 file.now 56 ≤ length file.now) }
    ensures long { OnOk result (64 ≤ length file.now) }
    ensures segments { OnOk result (flat.all_checked size file.now (flat.places file.now) ≡ Ok tt) }
{
    check_head(file)?;
    check_headers(file, size)?;
    test(has_segment(file), ImageSort::Nothing, 56)?;
    test(is_entry(u64_at(file, 24), size), ImageSort::Entry, 24)
}

fn test(passes: bool, sort: ImageSort, at: u64) -> Result<(), ImageFault>
    ensures { result ≡ flat.test passes sort at }
{
    if passes {
        Ok(())
    } else {
        Err(ImageFault { sort, at })
    }
}

#[tactic(auto, unfolding(bn_model::specs::Images::head_checked))]
fn check_head(file: &[u8]) -> Result<(), ImageFault>
    ensures exact { result ≡ flat.head_checked file.now }
    ensures headers { OnOk result
        (number_at width.B8 file.now 32 + 56 * number_at width.B2 file.now 56 ≤ length file.now) }
    ensures long { OnOk result (64 ≤ length file.now) }
{
    test(64 <= file.len(), ImageSort::Short, file.len() as u64)?;
    test(u8_at(file, 4) == 2, ImageSort::Class, 4)?;
    test(u8_at(file, 5) == 1, ImageSort::Order, 5)?;
    test(u16_at(file, 16) == 2, ImageSort::Kind, 16)?;
    test(u16_at(file, 18) == 243, ImageSort::Machine, 18)?;
    test(u16_at(file, 54) == 56, ImageSort::Headers, 54)?;
    let len = 56 * u64::from(u16_at(file, 56));
    test(
        ends_within(u64_at(file, 32), len, file.len() as u64),
        ImageSort::Headers,
        32,
    )
}

/// Whether so many bytes from a place on end within a length, the sum being of whole numbers.
fn ends_within(place: u64, len: u64, whole: u64) -> bool
    ensures { result ≡ nat_le (place + len) whole }
{
    place <= whole && len <= whole - place
}

/// Whether so many bytes from an address on are all in a RAM of this size.
fn is_in_ram(address: u64, len: u64, size: u64) -> bool
    requires { size ≤ 16777216 }
    ensures { result ≡ flat.is_in_ram size address len }
{
    RAM_BASE <= address && ends_within(address, len, RAM_BASE + size)
}

fn is_entry(entry: u64, size: u64) -> bool
    requires { size ≤ 16777216 }
    ensures { result ≡ flat.is_entry size entry }
{
    entry % 4 == 0 && is_in_ram(entry, 4, size)
}

/// The tests of all program headers, header by header.
#[tactic(auto, unfolding(bn_model::specs::Images::places))]
fn check_headers(file: &[u8], size: u64) -> Result<(), ImageFault>
    requires size { size ≤ 16777216 }
    requires long { 64 ≤ length file.now }
    requires headers { number_at width.B8 file.now 32 + 56 * number_at width.B2 file.now 56
        ≤ length file.now }
    ensures { result ≡ flat.all_checked size file.now (flat.places file.now) }
{
    let first = u64_at(file, 32) as usize;
    let count = usize::from(u16_at(file, 56));
    for i in 0..count {
        check_header(file, first + 56 * i, size)?;
    }
    Ok(())
}

#[tactic(auto, unfolding(bn_model::specs::Images::header_checked))]
fn check_header(file: &[u8], place: usize, size: u64) -> Result<(), ImageFault>
    requires size { size ≤ 16777216 }
    requires within { place + 56 ≤ length file.now }
    ensures { result ≡ flat.header_checked size file.now place }
{
    let header = header_at(file, place);
    if !header.counts() {
        return Ok(());
    }
    check_segment(&header, place as u64, file.len() as u64, size)
}

fn check_segment(header: &Header, place: u64, len: u64, size: u64) -> Result<(), ImageFault>
    requires size { size ≤ 16777216 }
    requires within { place + 56 ≤ len }
    ensures { result ≡ flat.segment_checked size len place (as_flat header.now) }
{
    test(
        header.in_file <= header.in_memory,
        ImageSort::Sizes,
        place + 32,
    )?;
    test(
        ends_within(header.offset, header.in_file, len),
        ImageSort::Bytes,
        place + 8,
    )?;
    test(
        is_in_ram(header.address, header.in_memory, size),
        ImageSort::Range,
        place + 24,
    )
}

/// Whether some header counts.
#[tactic(auto, unfolding(bn_model::specs::Images::places))]
fn has_segment(file: &[u8]) -> bool
    requires long { 64 ≤ length file.now }
    requires headers { number_at width.B8 file.now 32 + 56 * number_at width.B2 file.now 56
        ≤ length file.now }
    ensures { result ≡ flat.has_segment file.now (flat.places file.now) }
{
    let first = u64_at(file, 32) as usize;
    let count = usize::from(u16_at(file, 56));
    for i in 0..count {
        if header_at(file, first + 56 * i).counts() {
            return true;
        }
    }
    false
}
