//! Numbers and bytes as text.
ghost use Rattle.std.specs.Prelude.{◌≡◌, ◌++◌, ◌∷◌, [], OnOk, decimal};
ghost use Rattle.hex.specs.Hex.{encode_lower};

use bn_types::Digest;
use itoa::Buffer;
use std::alloc::AllocError;

/// Appends a number in decimal.
pub fn put_number(text: &mut Vec<u8>, number: u64) -> Result<(), AllocError>
    ensures { OnOk result (text.new.items ≡ text.old.items ++ decimal number) }
{
    let mut buffer = Buffer::new();
    text.extend_from_slice(buffer.format(number).as_bytes())
}

/// Appends a byte as two hexadecimal digits.
pub fn put_byte(text: &mut Vec<u8>, byte: u8) -> Result<(), AllocError>
    ensures { OnOk result (text.new.items ≡ text.old.items ++ encode_lower (byte ∷ [])) }
{
    let mut digits = [0; 2];
    match hex::encode_to_slice([byte], &mut digits) {
        Ok(()) => {}
        Err(_) => unreachable!(),
    }
    text.extend_from_slice(&digits)
}

/// Appends a digest as 64 hexadecimal digits.
pub fn put_digest(text: &mut Vec<u8>, digest: &Digest) -> Result<(), AllocError>
    ensures { OnOk result (text.new.items ≡ text.old.items ++ encode_lower digest.now.0) }
{
    let mut digits = [0; 64];
    match hex::encode_to_slice(digest.0, &mut digits) {
        Ok(()) => {}
        Err(_) => unreachable!(),
    }
    text.extend_from_slice(&digits)
}
