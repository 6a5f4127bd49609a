//! The parts of a line, appended one by one: its first word and the number of its event, the other
//! fields, each after a space, and its end.
ghost use Rattle.std.specs.Prelude.{◌≡◌, ◌+◌, ◌*◌, ◌++◌, [], ◌∷◌, ◌≤◌, codes, decimal, length};
ghost use Rattle.std.specs.Fmt.{signed_decimal};
ghost use Rattle.hex.specs.Hex.{encode_lower};
ghost use Rattle.bn_model.specs.Spelling as flat;

use crate::text::append;
use arrayvec::ArrayVec;
use bn_types::{Digest, Finish, Gpn, Kind, Request};
use itoa::Buffer;

/// The first word of a line, and the number of its event.
pub fn begin(bytes: &mut ArrayVec<u8, 512>, word: &[u8], n: u64)
    requires { length bytes.old.items + length word.now + 21 ≤ 512 }
    ensures text { bytes.new.items ≡ bytes.old.items ++ (word.now ++ 32 ∷ decimal n) }
    ensures short { length bytes.new.items ≤ length bytes.old.items + length word.now + 21 }
{
    append(bytes, word);
    put_number(bytes, n);
}

/// The first word of a line, the number of its event, and the hart.
pub fn begin_on_hart(bytes: &mut ArrayVec<u8, 512>, word: &[u8], n: u64, h: u8)
    requires { length bytes.old.items + length word.now + 25 ≤ 512 }
    ensures text { bytes.new.items
        ≡ bytes.old.items ++ (word.now ++ 32 ∷ decimal n ++ 32 ∷ decimal h) }
    ensures short { length bytes.new.items ≤ length bytes.old.items + length word.now + 25 }
{
    begin(bytes, word, n);
    put_small(bytes, h);
}

/// The end of a line.
pub fn end(bytes: &mut ArrayVec<u8, 512>)
    requires { length bytes.old.items + 1 ≤ 512 }
    ensures { bytes.new.items ≡ bytes.old.items ++ codes "\n" }
{
    bytes.push(b'\n');
}

/// A number, in decimal.
pub fn put_number(bytes: &mut ArrayVec<u8, 512>, n: u64)
    requires { length bytes.old.items + 21 ≤ 512 }
    ensures text { bytes.new.items ≡ bytes.old.items ++ 32 ∷ decimal n }
    ensures short { length bytes.new.items ≤ length bytes.old.items + 21 }
{
    let mut buffer = Buffer::new();
    put(bytes, buffer.format(n).as_bytes());
}

/// A page of RAM, and an offset in it.
pub fn put_place(bytes: &mut ArrayVec<u8, 512>, page: Gpn, offset: u16)
    requires { length bytes.old.items + 42 ≤ 512 }
    ensures text { bytes.new.items ≡ bytes.old.items ++ 32 ∷ decimal page.0 ++ 32 ∷ decimal offset }
    ensures short { length bytes.new.items ≤ length bytes.old.items + 42 }
{
    put_number(bytes, u64::from(page.0));
    put_number(bytes, u64::from(offset));
}

/// A number below 256, in decimal.
pub fn put_small(bytes: &mut ArrayVec<u8, 512>, n: u8)
    requires { length bytes.old.items + 4 ≤ 512 }
    ensures text { bytes.new.items ≡ bytes.old.items ++ 32 ∷ decimal n }
    ensures short { length bytes.new.items ≤ length bytes.old.items + 4 }
{
    let mut buffer = Buffer::new();
    put(bytes, buffer.format(n).as_bytes());
}

/// A byte.
pub fn put_byte(bytes: &mut ArrayVec<u8, 512>, b: u8)
    requires { length bytes.old.items + 3 ≤ 512 }
    ensures text { bytes.new.items ≡ bytes.old.items ++ 32 ∷ encode_lower (b ∷ []) }
    ensures short { length bytes.new.items ≡ length bytes.old.items + 3 }
{
    let mut digits = [0; 2];
    encode(&[b], &mut digits);
    put(bytes, &digits);
}

/// The number of a virtual page.
pub fn put_page(bytes: &mut ArrayVec<u8, 512>, page: u64)
    requires { length bytes.old.items + 14 ≤ 512 }
    ensures text { bytes.new.items ≡ bytes.old.items ++ 32 ∷ flat.page_digits page }
    ensures short { length bytes.new.items ≡ length bytes.old.items + 14 }
{
    let mut digits = [0; 16];
    encode(&page.to_be_bytes(), &mut digits);
    put(bytes, &digits[3..]);
}

/// 64 bits.
pub fn put_word(bytes: &mut ArrayVec<u8, 512>, word: u64)
    requires { length bytes.old.items + 17 ≤ 512 }
    ensures text { bytes.new.items ≡ bytes.old.items ++ 32 ∷ flat.word_digits word }
    ensures short { length bytes.new.items ≡ length bytes.old.items + 17 }
{
    let mut digits = [0; 16];
    encode(&word.to_be_bytes(), &mut digits);
    put(bytes, &digits);
}

/// A digest.
pub fn put_digest(bytes: &mut ArrayVec<u8, 512>, digest: Digest)
    requires { length bytes.old.items + 65 ≤ 512 }
    ensures text { bytes.new.items ≡ bytes.old.items ++ 32 ∷ encode_lower digest.0 }
    ensures short { length bytes.new.items ≡ length bytes.old.items + 65 }
{
    let mut digits = [0; 64];
    encode(&digest.0, &mut digits);
    put(bytes, &digits);
}

/// The code of a refusal.
pub fn put_code(bytes: &mut ArrayVec<u8, 512>, code: i64)
    requires { length bytes.old.items + 21 ≤ 512 }
    ensures text { bytes.new.items ≡ bytes.old.items ++ 32 ∷ signed_decimal code }
    ensures short { length bytes.new.items ≤ length bytes.old.items + 21 }
{
    let mut buffer = Buffer::new();
    put(bytes, buffer.format(code).as_bytes());
}

/// The kind of an access.
pub fn put_kind(bytes: &mut ArrayVec<u8, 512>, kind: Kind)
    requires { length bytes.old.items + 6 ≤ 512 }
    ensures text { bytes.new.items ≡ bytes.old.items ++ 32 ∷ flat.kind_word kind }
    ensures short { length bytes.new.items ≤ length bytes.old.items + 6 }
{
    match kind {
        Kind::Fetch => put(bytes, b"fetch"),
        Kind::Load => put(bytes, b"load"),
        Kind::Store => put(bytes, b"store"),
    }
}

/// A request.
pub fn put_request(bytes: &mut ArrayVec<u8, 512>, request: Request)
    requires { length bytes.old.items + 7 ≤ 512 }
    ensures text { bytes.new.items ≡ bytes.old.items ++ 32 ∷ flat.request_word request }
    ensures short { length bytes.new.items ≤ length bytes.old.items + 7 }
{
    match request {
        Request::Launch => put(bytes, b"launch"),
        Request::Call => put(bytes, b"call"),
        Request::Evict => put(bytes, b"evict"),
        Request::Sset => put(bytes, b"sset"),
    }
}

/// How a run ended.
pub fn put_finish(bytes: &mut ArrayVec<u8, 512>, finish: Finish)
    requires { length bytes.old.items + 9 ≤ 512 }
    ensures text { bytes.new.items ≡ bytes.old.items ++ 32 ∷ flat.finish_word finish }
    ensures short { length bytes.new.items ≤ length bytes.old.items + 9 }
{
    match finish {
        Finish::Shutdown => put(bytes, b"shutdown"),
        Finish::Limit => put(bytes, b"limit"),
    }
}

/// A space and a field.
fn put(bytes: &mut ArrayVec<u8, 512>, field: &[u8])
    requires { length bytes.old.items + length field.now + 1 ≤ 512 }
    ensures { bytes.new.items ≡ bytes.old.items ++ 32 ∷ field.now }
{
    bytes.push(b' ');
    append(bytes, field);
}

/// Writes bytes as lower-case hexadecimal digits.
pub fn encode(bytes: &[u8], digits: &mut [u8])
    requires { length digits.old ≡ 2 * length bytes.now }
    ensures { digits.new ≡ encode_lower bytes.now }
{
    match hex::encode_to_slice(bytes, digits) {
        Ok(()) => {}
        Err(_) => unreachable!(),
    }
}
