//! Image files loaded.
ghost use Rattle.std.specs.Prelude.{◌≡◌, ◌*◌, ◌≤◌};
ghost use Rattle.bn_model.specs.Images as flat;
ghost use Rattle.bn_loader.specs.Answers.{loads};

use crate::checking::{RAM_BASE, check_elf};
use crate::numbers::u64_at;
use crate::placing::{place_segments, zeros};
use crate::{LoadError, Loaded};
use bn_types::{ImageFault, ImageSort};
use std::alloc::Global;

/// An image file has at most so many bytes.
const MOST_IMAGE_BYTES: usize = 33_554_432;

/// The first bytes of an ELF file (System V ABI, "ELF Identification").
const ELF_MAGIC: [u8; 4] = [0x7f, 0x45, 0x4c, 0x46];

/// A file as it stands in a RAM of 16 to 4,096 pages of 4,096 bytes. A file that begins with the
/// ELF magic is an ELF file of 64 bits; any other is raw, and goes to the beginning of RAM. Fault
/// tells the first test that fails, Memory is want of memory.
#[tactic(auto, unfolding(bn_model::specs::Images::image_of))]
pub fn load(alloc: Global, file: &[u8], ram_pages: u32) -> Result<Loaded, LoadError>
    requires least { 16 ≤ ram_pages }
    requires most { ram_pages ≤ 4096 }
    ensures { loads (flat.image_of (4096 * ram_pages) file.now) result }
{
    let size = 4096 * ram_pages as usize;
    if MOST_IMAGE_BYTES < file.len() {
        return Err(too_long(MOST_IMAGE_BYTES));
    }
    if file.is_empty() {
        return Err(LoadError::Fault(ImageFault {
            sort: ImageSort::Empty,
            at: 0,
        }));
    }
    if file.starts_with(&ELF_MAGIC) {
        load_elf(alloc, file, size)
    } else {
        load_raw(alloc, file, size)
    }
}

fn too_long(most: usize) -> LoadError
    ensures { result ≡ LoadError.Fault (flat.fault ImageSort.Long most) }
{
    LoadError::Fault(ImageFault {
        sort: ImageSort::Long,
        at: most as u64,
    })
}

fn load_raw(alloc: Global, file: &[u8], size: usize) -> Result<Loaded, LoadError>
    requires { size ≤ 16777216 }
    ensures { loads (flat.raw_of size file.now) result }
{
    if size < file.len() {
        return Err(too_long(size));
    }
    let Ok(mut bytes) = Vec::with_capacity(alloc, size) else {
        return Err(LoadError::Memory);
    };
    if bytes.extend_from_slice(file).is_err() || bytes.resize(size, 0).is_err() {
        return Err(LoadError::Memory);
    }
    Ok(Loaded {
        bytes,
        entry: RAM_BASE,
    })
}

fn load_elf(alloc: Global, file: &[u8], size: usize) -> Result<Loaded, LoadError>
    requires { size ≤ 16777216 }
    ensures { loads (flat.elf_of size file.now) result }
{
    match check_elf(file, size as u64) {
        Ok(()) => {}
        Err(fault) => return Err(LoadError::Fault(fault)),
    }
    let Ok(mut bytes) = zeros(alloc, size) else {
        return Err(LoadError::Memory);
    };
    place_segments(file, bytes.as_mut_slice());
    Ok(Loaded {
        bytes,
        entry: u64_at(file, 24),
    })
}
