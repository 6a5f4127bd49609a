ghost use Rattle.std.specs.Prelude.{◌≡◌, ◌+◌, ◌*◌, ◌%◌, ◌≤◌, true, length, Ok};
ghost use Rattle.bn_types.specs.Visible.{state_at};
ghost use Rattle.bn_types.specs.declared.page_state.PageState.TheVariants as page_state;
ghost use Rattle.bn_model.specs.CsrFile.{HasMode};
ghost use Rattle.bn_model.specs.Launching.{decls_of, decls_unless_refused, is_text_address};
ghost use Rattle.bn_model.specs.Launching.{judged_of, judgement, judgement_by_decls};
ghost use Rattle.bn_model.specs.Launching.{judgement_by_identity, judgement_by_segment, text_bytes};
ghost use Rattle.bn_model.specs.Rows.{enclaves};
ghost use Rattle.bn_model.specs.Segments.{segment_of};
ghost use Rattle.bn_launch.specs.Readable.{AreWhole, HaveVpns, LieInRam};

use crate::LaunchRefused;
use crate::declaring::{declare_all, reach_twice, take_owned};
use crate::measuring::measure;
use crate::reading::{reach_free, read_text};
use crate::sourcing::source_all;
use arrayvec::ArrayVec;
use bn_segment::read;
use bn_table::Table;
use bn_types::{Decl, Digest, Gpn, Judged, Pages, Segment, Steps};
use std::sync::ledger::Ledger;

/// What the launch of the segment text at a virtual address comes to, by the present `satp`.
///
/// `satp` has MODE 0 (Bare) or 8 (Sv39), there are at most 4,096 pages, and each that can be read
/// has 4,096 bytes.
/// The error is the first test that fails, each made over the whole segment before the next.
/// Nothing changes.
#[tactic(auto, unfolding(bn_model::specs::Launching::judgement))]
pub fn judge<P: Pages, L: Ledger>(
    table: &Table,
    pages: &P,
    satp: u64,
    at: u64,
    steps: &mut Steps<L>,
) -> Result<Judged, LaunchRefused>
    requires mode { HasMode satp }
    requires few { length (P.visible pages.now) ≤ 4096 }
    requires whole { AreWhole (P.visible pages.now) }
    ensures { result ≡ judgement (enclaves table.now.rows) table.now.next (P.visible pages.now)
        satp at }
{
    if !is_address(at) {
        return Err(LaunchRefused::Address);
    }
    match reach_free(pages, satp, at, steps) {
        Some(page) => judge_text(table, pages, satp, page, at, steps),
        None => Err(LaunchRefused::Unmapped),
    }
}

#[tactic(auto, unfolding(bn_model::specs::Launching::is_text_address))]
fn is_address(at: u64) -> bool
    ensures test { result ≡ is_text_address at }
    ensures aligned { result ≡ true → at % 8 ≡ 0 }
    ensures inside { result ≡ true → at % 4096 ≤ 2864 }
{
    at % 8 == 0 && at % 4096 <= 2864
}

#[tactic(auto, using(crate::proofs::Judgements::vpns_of))]
fn judge_text<P: Pages, L: Ledger>(
    table: &Table,
    pages: &P,
    satp: u64,
    page: Gpn,
    at: u64,
    steps: &mut Steps<L>,
) -> Result<Judged, LaunchRefused>
    requires mode { HasMode satp }
    requires few { length (P.visible pages.now) ≤ 4096 }
    requires whole { AreWhole (P.visible pages.now) }
    requires free { state_at (P.visible pages.now) page.0 ≡ page_state.Free }
    requires aligned { at % 8 ≡ 0 }
    requires inside { at % 4096 ≤ 2864 }
    ensures { let text = text_bytes (P.visible pages.now) page.0 at in
        result ≡ judgement_by_segment (enclaves table.now.rows) table.now.next
        (P.visible pages.now) satp text (segment_of text) }
{
    let text = read_text(pages, page, at, steps);
    match read(&text) {
        Ok(segment) => judge_segment(table, pages, satp, &text, segment, steps),
        Err(fault) => Err(LaunchRefused::Segment(fault)),
    }
}

fn judge_segment<P: Pages, L: Ledger>(
    table: &Table,
    pages: &P,
    satp: u64,
    text: &[u8],
    segment: Segment,
    steps: &mut Steps<L>,
) -> Result<Judged, LaunchRefused>
    requires mode { HasMode satp }
    requires few { length (P.visible pages.now) ≤ 4096 }
    requires whole { AreWhole (P.visible pages.now) }
    requires vpns { HaveVpns segment.pages.items }
    ensures { result ≡ judgement_by_decls (enclaves table.now.rows) table.now.next
        (P.visible pages.now) text.now segment (decls_of (P.visible pages.now) satp segment) }
{
    // For the prover: a length read is the length of the list.
    let _page_count = segment.pages.len();
    match declare_all(pages, satp, &segment.pages, steps) {
        Some(decls) => judge_decls(table, pages, text, segment, decls, steps),
        None => Err(LaunchRefused::NoPage),
    }
}

fn judge_decls<P: Pages, L: Ledger>(
    table: &Table,
    pages: &P,
    text: &[u8],
    segment: Segment,
    decls: ArrayVec<Decl, 64>,
    steps: &mut Steps<L>,
) -> Result<Judged, LaunchRefused>
    requires whole { AreWhole (P.visible pages.now) }
    requires inside { LieInRam (P.visible pages.now) decls.items }
    ensures { result ≡ judgement_by_decls (enclaves table.now.rows) table.now.next
        (P.visible pages.now) text.now segment
        (decls_unless_refused (P.visible pages.now) true decls.items) }
{
    if take_owned(pages, &decls) {
        return Err(LaunchRefused::Owned);
    }
    if reach_twice(&decls) {
        return Err(LaunchRefused::Alias);
    }
    let who = measure(pages, text, &decls, steps);
    // For the prover: a length read is the length of the list.
    let _decl_count = decls.len();
    judge_identity(table, segment, &decls, who)
}

#[tactic(auto, using(crate::proofs::Judgements::length_enclaves))]
fn judge_identity(
    table: &Table,
    segment: Segment,
    decls: &[Decl],
    who: Digest,
) -> Result<Judged, LaunchRefused>
    requires { length decls.now ≤ 64 }
    ensures { result ≡ judgement_by_identity (enclaves table.now.rows) table.now.next segment
        decls.now who }
{
    let Some(decls) = source_all(table, &who, decls) else {
        return Err(LaunchRefused::NotOffered);
    };
    if table.has_identity(&who) {
        return Err(LaunchRefused::Duplicate);
    }
    if table.live() >= 15 {
        return Err(LaunchRefused::TableFull);
    }
    if table.next_id() >= 65536 {
        return Err(LaunchRefused::IdsSpent);
    }
    Ok(judged(segment, decls, who))
}

fn judged(segment: Segment, decls: ArrayVec<Decl, 64>, who: Digest) -> Judged
    ensures { result ≡ record {
      digest = who;
      mode = segment.mode;
      entries = segment.entries;
      decls
          = decls;
      partners = segment.partners;
    } }
{
    let Segment {
        mode,
        entries,
        pages: _,
        partners,
    } = segment;
    Judged {
        digest: who,
        mode,
        entries,
        decls,
        partners,
    }
}
