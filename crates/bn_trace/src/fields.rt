//! The fields of a line, read one by one. A rest of a line begins with the space before its next
//! field, or is empty. An error tells how many bytes of the line are left where it comes.
ghost use Rattle.std.specs.Prelude.{◌≡◌, ◌+◌, ◌∷◌, [], ◌≤◌, IfOk, IfErr, length};
ghost use Rattle.bn_types.specs.Splitting.{pieces_after};
ghost use Rattle.bn_model.specs.LineReading as flat;
ghost use Rattle.bn_model.specs.LineShapes as shape;
ghost use Rattle.bn_trace.specs.Reading.{given};

use crate::values::{
    byte_of, code_of, digest_of, finish_of, kind_of, number_of, page_of, request_of, word_of,
};
use bn_types::{Digest, Finish, Kind, Request, split_first};

/// The text of the next field, and the rest after it.
fn begin(rest: &[u8]) -> Result<(&[u8], &[u8]), usize>
    ensures pieces { IfOk result
        (λ x. pieces_after 32 rest.now ≡ x.0.now ∷ pieces_after 32 x.1.now) }
    ensures left { IfOk result
        (λ x. flat.bytes_left (x.0.now ∷ pieces_after 32 x.1.now) + 1 ≡ length rest.now) }
    ensures missing { IfErr result (λ left. (left ≡ 0) × (pieces_after 32 rest.now ≡ [])) }
{
    if rest.is_empty() {
        return Err(0);
    }
    Ok(split_first(&rest[1..], b' '))
}

/// A number of at most so much.
#[tactic(auto, unfolding(bn_model::specs::LineReading::field_at))]
pub fn number(rest: &[u8], most: u64) -> Result<(u64, &[u8]), usize>
    ensures exact { flat.field_at (shape.Decimal (most + 1)) (pieces_after 32 rest.now)
        ≡ given (λ x. (x.0, pieces_after 32 x.1.now)) result }
    ensures range { IfOk result (λ x. x.0 ≤ most) }
{
    let (piece, after) = begin(rest)?;
    match number_of(piece, most) {
        Some(n) => Ok((n, after)),
        None => Err(rest.len() - 1),
    }
}

/// A byte.
#[tactic(auto, unfolding(bn_model::specs::LineReading::field_at))]
pub fn byte(rest: &[u8]) -> Result<(u8, &[u8]), usize>
    ensures { flat.field_at shape.Byte (pieces_after 32 rest.now)
        ≡ given (λ x. (x.0, pieces_after 32 x.1.now)) result }
{
    let (piece, after) = begin(rest)?;
    match byte_of(piece) {
        Some(value) => Ok((value, after)),
        None => Err(rest.len() - 1),
    }
}

/// The number of a virtual page.
#[tactic(auto, unfolding(bn_model::specs::LineReading::field_at))]
pub fn page(rest: &[u8]) -> Result<(u64, &[u8]), usize>
    ensures { flat.field_at shape.Page (pieces_after 32 rest.now)
        ≡ given (λ x. (x.0, pieces_after 32 x.1.now)) result }
{
    let (piece, after) = begin(rest)?;
    match page_of(piece) {
        Some(value) => Ok((value, after)),
        None => Err(rest.len() - 1),
    }
}

/// 64 bits.
#[tactic(auto, unfolding(bn_model::specs::LineReading::field_at))]
pub fn word(rest: &[u8]) -> Result<(u64, &[u8]), usize>
    ensures { flat.field_at shape.Word (pieces_after 32 rest.now)
        ≡ given (λ x. (x.0, pieces_after 32 x.1.now)) result }
{
    let (piece, after) = begin(rest)?;
    match word_of(piece) {
        Some(value) => Ok((value, after)),
        None => Err(rest.len() - 1),
    }
}

/// A digest.
#[tactic(auto, unfolding(bn_model::specs::LineReading::field_at))]
pub fn digest(rest: &[u8]) -> Result<(Digest, &[u8]), usize>
    ensures { flat.field_at shape.Sha (pieces_after 32 rest.now)
        ≡ given (λ x. (x.0.0, pieces_after 32 x.1.now)) result }
{
    let (piece, after) = begin(rest)?;
    match digest_of(piece) {
        Some(value) => Ok((value, after)),
        None => Err(rest.len() - 1),
    }
}

/// The code of a refusal.
#[tactic(auto, unfolding(bn_model::specs::LineReading::field_at))]
pub fn code(rest: &[u8]) -> Result<(i64, &[u8]), usize>
    ensures { flat.field_at shape.Code (pieces_after 32 rest.now)
        ≡ given (λ x. (x.0, pieces_after 32 x.1.now)) result }
{
    let (piece, after) = begin(rest)?;
    match code_of(piece) {
        Some(value) => Ok((value, after)),
        None => Err(rest.len() - 1),
    }
}

/// The kind of an access.
#[tactic(auto, unfolding(bn_model::specs::LineReading::field_at))]
pub fn access(rest: &[u8]) -> Result<(Kind, &[u8]), usize>
    ensures { flat.field_at shape.Access (pieces_after 32 rest.now)
        ≡ given (λ x. (x.0, pieces_after 32 x.1.now)) result }
{
    let (piece, after) = begin(rest)?;
    match kind_of(piece) {
        Some(value) => Ok((value, after)),
        None => Err(rest.len() - 1),
    }
}

/// A request.
#[tactic(auto, unfolding(bn_model::specs::LineReading::field_at))]
pub fn asked(rest: &[u8]) -> Result<(Request, &[u8]), usize>
    ensures { flat.field_at shape.Asked (pieces_after 32 rest.now)
        ≡ given (λ x. (x.0, pieces_after 32 x.1.now)) result }
{
    let (piece, after) = begin(rest)?;
    match request_of(piece) {
        Some(value) => Ok((value, after)),
        None => Err(rest.len() - 1),
    }
}

/// How a run ended.
#[tactic(auto, unfolding(bn_model::specs::LineReading::field_at))]
pub fn ended(rest: &[u8]) -> Result<(Finish, &[u8]), usize>
    ensures { flat.field_at shape.Ended (pieces_after 32 rest.now)
        ≡ given (λ x. (x.0, pieces_after 32 x.1.now)) result }
{
    let (piece, after) = begin(rest)?;
    match finish_of(piece) {
        Some(value) => Ok((value, after)),
        None => Err(rest.len() - 1),
    }
}

/// Nothing is left.
#[tactic(auto, unfolding(bn_model::specs::LineReading::end_at))]
pub fn end(rest: &[u8]) -> Result<(), usize>
    ensures { flat.end_at (pieces_after 32 rest.now) ≡ result }
{
    match begin(rest) {
        Ok(_) => Err(rest.len() - 1),
        Err(_) => Ok(()),
    }
}
