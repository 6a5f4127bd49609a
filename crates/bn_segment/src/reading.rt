ghost use Rattle.std.specs.Prelude.{◌≡◌, ◌<◌, ◌≤◌, ◌+◌, length, map, IfOk};
ghost use Rattle.std.specs.List.{range_with_len};
ghost use Rattle.bn_model.specs.Segments.{entry_count, entry_in, mode_if, page_count, page_in};
ghost use Rattle.bn_model.specs.Segments.{partner_count, partner_in, segment_in, segment_of};
ghost use Rattle.bn_model.specs.Segments.{spelling_of_segment};
ghost use Rattle.bn_model.specs.SegmentLaws.{IsSegment};

use crate::faults::fault_in;
use crate::fields::{
    PARTNERS, entry_at, entry_count_in, mask_at, page_count_in, partner_count_in, rights_at,
    sort_at, vpn_at,
};
use arrayvec::ArrayVec;
use bn_types::{Digest, Mode, Rights, SegFault, SegPage, Segment, Vpn};

/// What a segment text says. The error is the first test that it fails, each made over the whole
/// text before the next.
pub fn read(text: &[u8; 1232]) -> Result<Segment, SegFault>
    ensures segment { result ≡ segment_of text.now }
    ensures spelling { IfOk result (λ segment. spelling_of_segment segment ≡ text.now) }
    ensures sound { IfOk result IsSegment }
{
    read_slice(text)
}

#[tactic(auto, unfolding(bn_model::specs::Segments::segment_of))]
fn read_slice(text: &[u8]) -> Result<Segment, SegFault>
    requires { length text.now ≡ 1232 }
    ensures { result ≡ segment_of text.now }
{
    match fault_in(text) {
        Some(fault) => Err(fault),
        None => Ok(segment_at(text)),
    }
}

#[tactic(auto, unfolding(bn_model::specs::Segments::segment_in))]
fn segment_at(text: &[u8]) -> Segment
    requires size { length text.now ≡ 1232 }
    requires entries { entry_count text.now ≤ 8 }
    requires pages { page_count text.now ≤ 64 }
    requires partners { partner_count text.now ≤ 4 }
    ensures { result ≡ segment_in text.now }
{
    Segment {
        mode: if text[5] == 0 { Mode::U } else { Mode::S },
        entries: entries_in(text),
        pages: pages_in(text),
        partners: partners_in(text),
    }
}

#[tactic(auto, using(crate::proofs::Filled::filled_more, crate::proofs::Filled::filled_length))]
fn entries_in(text: &[u8]) -> ArrayVec<u64, 8>
    requires size { length text.now ≡ 1232 }
    requires few { entry_count text.now ≤ 8 }
    ensures { result.items ≡ map (entry_in text.now) (range_with_len 0 (entry_count text.now)) }
{
    let mut entries = ArrayVec::new();
    for i in 0..entry_count_in(text) {
        entries.push(entry_at(text, i));
    }
    entries
}

#[tactic(auto, using(crate::proofs::Filled::filled_more, crate::proofs::Filled::filled_length))]
fn pages_in(text: &[u8]) -> ArrayVec<SegPage, 64>
    requires size { length text.now ≡ 1232 }
    requires few { page_count text.now ≤ 64 }
    ensures { result.items ≡ map (page_in text.now) (range_with_len 0 (page_count text.now)) }
{
    let mut pages = ArrayVec::new();
    for i in 0..page_count_in(text) {
        pages.push(page_at(text, i));
    }
    pages
}

#[tactic(auto, unfolding(bn_model::specs::Segments::page_in))]
fn page_at(text: &[u8], i: usize) -> SegPage
    requires size { length text.now ≡ 1232 }
    requires page { i < 64 }
    ensures { result ≡ page_in text.now i }
{
    SegPage {
        vpn: Vpn(vpn_at(text, i)),
        sort: sort_at(text, i),
        rights: Rights(rights_at(text, i)),
        mask: mask_at(text, i),
    }
}

#[tactic(auto, using(crate::proofs::Filled::filled_more, crate::proofs::Filled::filled_length))]
fn partners_in(text: &[u8]) -> ArrayVec<Digest, 4>
    requires size { length text.now ≡ 1232 }
    requires few { partner_count text.now ≤ 4 }
    ensures { result.items ≡ map (partner_in text.now) (range_with_len 0 (partner_count text.now)) }
{
    let mut partners = ArrayVec::new();
    for i in 0..partner_count_in(text) {
        partners.push(partner_at(text, i));
    }
    partners
}

fn partner_at(text: &[u8], i: usize) -> Digest
    requires size { length text.now ≡ 1232 }
    requires partner { i < 4 }
    ensures { result ≡ partner_in text.now i }
{
    let at = PARTNERS + 32 * i;
    let mut digest = [0; 32];
    digest.copy_from_slice(&text[at..at + 32]);
    Digest(digest)
}
