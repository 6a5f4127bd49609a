//! Text in a buffer of 512 bytes.
ghost use Rattle.std.specs.Prelude.{◌≡◌, ◌+◌, ◌++◌, ◌≤◌, decimal, length};

use arrayvec::ArrayVec;
use itoa::Buffer;

/// Appends a piece that there is room for.
pub fn append(bytes: &mut ArrayVec<u8, 512>, piece: &[u8])
    requires { length bytes.old.items + length piece.now ≤ 512 }
    ensures { bytes.new.items ≡ bytes.old.items ++ piece.now }
{
    match bytes.try_extend_from_slice(piece) {
        Ok(()) => {}
        Err(_) => unreachable!(),
    }
}

/// Appends a number in decimal.
pub fn append_number(bytes: &mut ArrayVec<u8, 512>, n: u64)
    requires { length bytes.old.items + 20 ≤ 512 }
    ensures text { bytes.new.items ≡ bytes.old.items ++ decimal n }
    ensures short { length bytes.new.items ≤ length bytes.old.items + 20 }
{
    let mut buffer = Buffer::new();
    append(bytes, buffer.format(n).as_bytes());
}
