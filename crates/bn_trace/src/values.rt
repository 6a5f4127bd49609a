//! The values that a field's text can spell.
ghost use Rattle.std.specs.Prelude.{◌≡◌, ◌+◌, ◌∷◌, ◌≤◌, ◌&&◌, ◌++◌, ◌<◌, ◌==◌};
ghost use Rattle.std.specs.Prelude.{IfSome, codes, length, option_map, slice_index};
ghost use Rattle.std.specs.Bool.{OnTrue};
ghost use Rattle.std.specs.Str.{bytes_eq};
ghost use Rattle.hex.specs.Hex.{decode_sized};
ghost use Rattle.bn_model.specs.LineReading as flat;
ghost use Rattle.bn_model.specs.LineShapes as shape;
ghost use Rattle.bn_model.specs.Spelling as spelled;

use crate::putting::encode;
use bn_types::{Digest, Finish, Kind, Request, read_numeral};

/// A number of at most so much.
pub fn number_of(piece: &[u8], most: u64) -> Option<u64>
    ensures exact { result ≡ flat.value_of (shape.Decimal (most + 1)) piece.now }
    ensures range { IfSome result (λ n. n ≤ most) }
{
    match read_numeral(piece) {
        Some(n) => { if n <= most { Some(n) } else { None } }
        None => None,
    }
}

#[tactic(auto, unfolding(bn_model::specs::LineReading::value_of))]
pub fn byte_of(piece: &[u8]) -> Option<u8>
    ensures { result ≡ flat.value_of shape.Byte piece.now }
{
    let byte = decode_byte(piece)?;
    if is_byte_text(byte, piece) {
        Some(byte)
    } else {
        None
    }
}

#[tactic(auto, unfolding(bn_model::specs::LineReading::value_of))]
pub fn word_of(piece: &[u8]) -> Option<u64>
    ensures { result ≡ flat.value_of shape.Word piece.now }
{
    let word = decode_word(piece)?;
    if is_word_text(word, piece) {
        Some(word)
    } else {
        None
    }
}

#[tactic(auto, unfolding(bn_model::specs::LineReading::value_of))]
pub fn page_of(piece: &[u8]) -> Option<u64>
    ensures { result ≡ flat.value_of shape.Page piece.now }
{
    if piece.len() != 13 {
        return None;
    }
    let page = decode_word(&padded(piece))?;
    if is_page_text(page, piece) {
        Some(page)
    } else {
        None
    }
}

#[tactic(auto, unfolding(bn_model::specs::LineReading::value_of))]
pub fn digest_of(piece: &[u8]) -> Option<Digest>
    ensures { flat.value_of shape.Sha piece.now ≡ option_map (λ digest. digest.0) result }
{
    let bytes = decode_digest(piece)?;
    if is_digest_text(&bytes, piece) {
        Some(Digest(bytes))
    } else {
        None
    }
}

/// A code is below 0.
#[tactic(auto, using(crate::proofs::ValueLemmas::no_minus, crate::proofs::ValueLemmas::with_minus))]
pub fn code_of(piece: &[u8]) -> Option<i64>
    ensures { result ≡ flat.value_of shape.Code piece.now }
{
    if is_signed(piece) {
        negative(&piece[1..])
    } else {
        None
    }
}

fn is_signed(piece: &[u8]) -> bool
    ensures minus { result ≡ (slice_index piece.now 0 == 45) }
    ensures some { OnTrue result (0 < length piece.now) }
{
    !piece.is_empty() && piece[0] == b'-'
}

/// The code of these digits after its minus sign.
fn negative(digits: &[u8]) -> Option<i64>
    ensures { result ≡ flat.value_of shape.Code (45 ∷ digits.now) }
{
    match read_numeral(digits) {
        Some(n) => {
            if 0 < n && n <= 1 << 63 {
                Some(-1 - (n - 1) as i64)
            } else {
                None
            }
        }
        None => None,
    }
}

/// The 32 bytes of 64 hexadecimal digits, of either case.
fn decode_digest(digits: &[u8]) -> Option<[u8; 32]>
    ensures { result ≡ flat.bytes_decoded (decode_sized digits.now 32) }
{
    let mut bytes = [0; 32];
    match hex::decode_to_slice(digits, &mut bytes) {
        Ok(()) => Some(bytes),
        Err(_) => None,
    }
}

fn is_digest_text(bytes: &[u8], piece: &[u8]) -> bool
    requires { length bytes.now ≡ 32 }
    ensures { result ≡ (flat.is_in shape.Sha bytes.now
        && bytes_eq (spelled.field_text shape.Sha bytes.now) piece.now) }
{
    let mut digits = [0; 64];
    encode(bytes, &mut digits);
    digits.as_slice() == piece
}

/// The byte of two hexadecimal digits, of either case.
fn decode_byte(digits: &[u8]) -> Option<u8>
    ensures { result ≡ flat.byte_decoded (decode_sized digits.now 1) }
{
    let mut bytes = [0; 1];
    match hex::decode_to_slice(digits, &mut bytes) {
        Ok(()) => Some(bytes[0]),
        Err(_) => None,
    }
}

/// The word of 16 hexadecimal digits, of either case.
fn decode_word(digits: &[u8]) -> Option<u64>
    ensures { result ≡ flat.word_decoded (decode_sized digits.now 8) }
{
    let mut bytes = [0; 8];
    match hex::decode_to_slice(digits, &mut bytes) {
        Ok(()) => Some(u64::from_be_bytes(bytes)),
        Err(_) => None,
    }
}

fn is_byte_text(byte: u8, piece: &[u8]) -> bool
    ensures { result ≡ bytes_eq (spelled.field_text shape.Byte byte) piece.now }
{
    let mut digits = [0; 2];
    encode(&[byte], &mut digits);
    digits.as_slice() == piece
}

fn is_word_text(word: u64, piece: &[u8]) -> bool
    ensures { result ≡ bytes_eq (spelled.field_text shape.Word word) piece.now }
{
    let mut digits = [0; 16];
    encode(&word.to_be_bytes(), &mut digits);
    digits.as_slice() == piece
}

fn is_page_text(page: u64, piece: &[u8]) -> bool
    ensures { result ≡ (flat.is_in shape.Page page
        && bytes_eq (spelled.field_text shape.Page page) piece.now) }
{
    let mut digits = [0; 16];
    encode(&page.to_be_bytes(), &mut digits);
    page < 0x10_0000_0000_0000 && &digits[3..] == piece
}

/// 13 digits with three zeros in front.
fn padded(piece: &[u8]) -> [u8; 16]
    requires { length piece.now ≡ 13 }
    ensures { result ≡ codes "000" ++ piece.now }
{
    let mut digits = [b'0'; 16];
    digits[3..].copy_from_slice(piece);
    digits
}

#[tactic(auto, unfolding(bn_model::specs::LineReading::value_of))]
pub fn kind_of(piece: &[u8]) -> Option<Kind>
    ensures { result ≡ flat.value_of shape.Access piece.now }
{
    if piece == b"fetch".as_slice() {
        Some(Kind::Fetch)
    } else if piece == b"load".as_slice() {
        Some(Kind::Load)
    } else if piece == b"store".as_slice() {
        Some(Kind::Store)
    } else {
        None
    }
}

#[tactic(auto, unfolding(bn_model::specs::LineReading::value_of))]
pub fn request_of(piece: &[u8]) -> Option<Request>
    ensures { result ≡ flat.value_of shape.Asked piece.now }
{
    if piece == b"launch".as_slice() {
        Some(Request::Launch)
    } else if piece == b"call".as_slice() {
        Some(Request::Call)
    } else if piece == b"evict".as_slice() {
        Some(Request::Evict)
    } else if piece == b"sset".as_slice() {
        Some(Request::Sset)
    } else {
        None
    }
}

#[tactic(auto, unfolding(bn_model::specs::LineReading::value_of))]
pub fn finish_of(piece: &[u8]) -> Option<Finish>
    ensures { result ≡ flat.value_of shape.Ended piece.now }
{
    if piece == b"shutdown".as_slice() {
        Some(Finish::Shutdown)
    } else if piece == b"limit".as_slice() {
        Some(Finish::Limit)
    } else {
        None
    }
}
