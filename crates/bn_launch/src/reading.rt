ghost use Rattle.std.specs.Prelude.{◌≡◌, ◌≢◌, ◌++◌, ◌+◌, ◌*◌, ◌%◌, ◌<◌, ◌≤◌, ◌^◌, List, Some};
ghost use Rattle.std.specs.Prelude.{IfSome, drop, length, take};
ghost use Rattle.std.specs.Int.{to_le_bytes, w64};
ghost use Rattle.bn_types.specs.Visible.{state_at};
ghost use Rattle.bn_types.specs.declared.page_state.PageState.TheVariants as page_state;
ghost use Rattle.bn_model.specs.CsrFile.{HasMode};
ghost use Rattle.bn_model.specs.Launching.{bytes_on, free_page, page_if_free, page_if_in_ram};
ghost use Rattle.bn_model.specs.Launching.{page_in_ram, page_of_address, page_of_leaf, text_bytes};
ghost use Rattle.bn_model.specs.Walking.{guest_page};
ghost use Rattle.bn_launch.specs.Readable.{AreWhole, page_number};

use bn_types::{Gpn, PageState, Pages, Steps};
use g_walk::leaf;
use std::sync::ledger::Ledger;

/// The page number of guest physical address 0x80000000, where RAM begins.
const RAM_START: u64 = 0x80000;

/// The page of RAM to which the structural walk of an address leads.
#[tactic(auto, unfolding(bn_model::specs::Launching::page_of_address))]
pub fn reach<P: Pages, L: Ledger>(
    pages: &P,
    satp: u64,
    va: u64,
    steps: &mut Steps<L>,
) -> Option<Gpn>
    requires mode { HasMode satp }
    requires few { length (P.visible pages.now) ≤ 4096 }
    ensures page { page_number result ≡ page_of_address (P.visible pages.now) satp va }
    ensures ram { IfSome result (λ page. state_at (P.visible pages.now) page.0 ≢
        page_state.Outside) }
{
    match leaf(pages, satp, va, steps) {
        Ok(leaf) => page_of(pages, leaf.ppn),
        Err(_) => None,
    }
}

/// The page of RAM with this physical page number.
#[tactic(auto, using(std::proofs::lemmas::Option::slice_get_past))]
fn page_of<P: Pages>(pages: &P, ppn: u64) -> Option<Gpn>
    requires { length (P.visible pages.now) ≤ 4096 }
    ensures page { page_number result ≡ page_if_in_ram (P.visible pages.now) (guest_page ppn) }
    ensures ram { IfSome result (λ page. state_at (P.visible pages.now) page.0 ≢
        page_state.Outside) }
{
    if ppn < RAM_START {
        return None;
    }
    let number = ppn - RAM_START;
    if number >= 4096 {
        return None;
    }
    inside(pages, Gpn(number as u32))
}

fn inside<P: Pages>(pages: &P, page: Gpn) -> Option<Gpn>
    ensures page { page_number result ≡ page_in_ram (state_at (P.visible pages.now) page.0) page.0 }
    ensures ram { IfSome result (λ page. state_at (P.visible pages.now) page.0 ≢
        page_state.Outside) }
{
    match pages.state(page) {
        PageState::Outside => None,
        PageState::Owned | PageState::Free => Some(page),
    }
}

/// The page without owners to which the structural walk of an address leads.
pub fn reach_free<P: Pages, L: Ledger>(
    pages: &P,
    satp: u64,
    va: u64,
    steps: &mut Steps<L>,
) -> Option<Gpn>
    requires mode { HasMode satp }
    requires few { length (P.visible pages.now) ≤ 4096 }
    ensures page { page_number result ≡ page_if_free (P.visible pages.now)
        (page_of_address (P.visible pages.now) satp va) }
    ensures free { IfSome result (λ page. state_at (P.visible pages.now) page.0 ≡ page_state.Free) }
{
    match reach(pages, satp, va, steps) {
        Some(page) => only_free(pages, page),
        None => None,
    }
}

fn only_free<P: Pages>(pages: &P, page: Gpn) -> Option<Gpn>
    ensures page { page_number result ≡ free_page (state_at (P.visible pages.now) page.0) page.0 }
    ensures free { IfSome result (λ page. state_at (P.visible pages.now) page.0 ≡ page_state.Free) }
{
    match pages.state(page) {
        PageState::Free => Some(page),
        PageState::Outside | PageState::Owned => None,
    }
}

/// The bytes of a segment text on a page without owners.
#[tactic(auto, unfolding(bn_model::specs::Launching::text_bytes))]
pub fn read_text<P: Pages, L: Ledger>(
    pages: &P,
    page: Gpn,
    at: u64,
    steps: &mut Steps<L>,
) -> [u8; 1232]
    requires free { state_at (P.visible pages.now) page.0 ≡ page_state.Free }
    requires whole { AreWhole (P.visible pages.now) }
    requires aligned { at % 8 ≡ 0 }
    requires inside { at % 4096 ≤ 2864 }
    ensures { result ≡ text_bytes (P.visible pages.now) page.0 at }
{
    let mut text = [0; 1232];
    read_words(pages, page, (at % 4096) as u16, &mut text, steps);
    text
}

/// Reads whole words of a page without owners, from an offset on.
pub fn read_words<P: Pages, L: Ledger>(
    pages: &P,
    page: Gpn,
    from: u16,
    bytes: &mut [u8],
    steps: &mut Steps<L>,
)
    requires free { state_at (P.visible pages.now) page.0 ≡ page_state.Free }
    requires whole { AreWhole (P.visible pages.now) }
    requires aligned { from % 8 ≡ 0 }
    requires words { length bytes.old % 8 ≡ 0 }
    requires inside { from + length bytes.old ≤ 4096 }
    ensures { bytes.new ≡ take (length bytes.old)
        (drop from (bytes_on (P.visible pages.now) page.0)) }
{
    for i in 0..bytes.len() / 8 {
        let word = word_on(pages, page, from + 8 * i as u16, steps);
        put_word(bytes, 8 * i, word);
    }
}

#[tactic(auto, using(crate::proofs::WordTexts::word_read, crate::proofs::WordTexts::word_there))]
fn word_on<P: Pages, L: Ledger>(pages: &P, page: Gpn, offset: u16, steps: &mut Steps<L>) -> u64
    requires free { state_at (P.visible pages.now) page.0 ≡ page_state.Free }
    requires whole { AreWhole (P.visible pages.now) }
    requires aligned { offset % 8 ≡ 0 }
    requires inside { offset < 4096 }
    ensures { to_le_bytes w64 result
        ≡ take 8 (drop offset (bytes_on (P.visible pages.now) page.0)) }
{
    match pages.word(page, offset, steps) {
        Some(word) => word,
        None => 0,
    }
}

fn put_word(bytes: &mut [u8], at: usize, word: u64)
    requires { at + 8 ≤ length bytes.old }
    ensures bytes { take (at + 8) bytes.new ≡ take at bytes.old ++ to_le_bytes w64 word }
    ensures size { length bytes.new ≡ length bytes.old }
{
    bytes[at..at + 8].copy_from_slice(&word.to_le_bytes());
}
