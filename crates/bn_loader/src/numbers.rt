//! Numbers in a file, little endian.
ghost use Rattle.std.specs.Prelude.{◌≡◌, ◌+◌, ◌≤◌, length};
ghost use Rattle.bn_types.specs.Numbers.{number_at};
ghost use Rattle.bn_types.specs.declared.width.Width.TheVariants as width;

use byteorder::{ByteOrder, LittleEndian};

#[tactic(auto, unfolding(bn_types::specs::Numbers::number_at))]
pub fn u8_at(file: &[u8], at: usize) -> u8
    requires { at + 1 ≤ length file.now }
    ensures { result ≡ number_at width.B1 file.now at }
{
    file[at]
}

#[tactic(auto, unfolding(bn_types::specs::Numbers::number_at))]
pub fn u16_at(file: &[u8], at: usize) -> u16
    requires { at + 2 ≤ length file.now }
    ensures { result ≡ number_at width.B2 file.now at }
{
    LittleEndian::read_u16(&file[at..])
}

#[tactic(auto, unfolding(bn_types::specs::Numbers::number_at))]
pub fn u32_at(file: &[u8], at: usize) -> u32
    requires { at + 4 ≤ length file.now }
    ensures { result ≡ number_at width.B4 file.now at }
{
    LittleEndian::read_u32(&file[at..])
}

#[tactic(auto, unfolding(bn_types::specs::Numbers::number_at))]
pub fn u64_at(file: &[u8], at: usize) -> u64
    requires { at + 8 ≤ length file.now }
    ensures { result ≡ number_at width.B8 file.now at }
{
    LittleEndian::read_u64(&file[at..])
}
