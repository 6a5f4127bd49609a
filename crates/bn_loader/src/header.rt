ghost use Rattle.std.specs.Prelude.{◌≡◌, ◌+◌, ◌≤◌, length};
ghost use Rattle.bn_model.specs.Images as flat;
ghost use Rattle.bn_loader.specs.Segments.{as_flat};

use crate::numbers::{u32_at, u64_at};

/// What a program header says of a segment (System V ABI, "Program Header").
#[derive(Clone, Copy)]
pub struct Header {
    /// It is to be loaded.
    pub loads: bool,
    /// Where its bytes stand in the file.
    pub offset: u64,
    /// Where they go.
    pub address: u64,
    pub in_file: u64,
    /// How many bytes it has in memory, those after its bytes in the file being zeros.
    pub in_memory: u64,
}

/// The program header at a place in the file.
#[tactic(auto, unfolding(bn_model::specs::Images::header_at))]
pub fn header_at(file: &[u8], place: usize) -> Header
    requires { place + 56 ≤ length file.now }
    ensures { as_flat result ≡ flat.header_at file.now place }
{
    Header {
        loads: u32_at(file, place) == 1,
        offset: u64_at(file, place + 8),
        address: u64_at(file, place + 24),
        in_file: u64_at(file, place + 32),
        in_memory: u64_at(file, place + 40),
    }
}

impl Header {
    /// Whether its segment is loaded and not empty.
    pub fn counts(&self) -> bool
        ensures { result ≡ flat.counts (as_flat self.now) }
    {
        self.loads && !(self.in_file == 0 && self.in_memory == 0)
    }
}
