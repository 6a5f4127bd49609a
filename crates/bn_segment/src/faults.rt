ghost use Rattle.std.specs.Prelude.{◌≡◌, ◌+◌, ◌<◌, ◌≤◌, ◌^◌, true, None, length};
ghost use Rattle.bn_model.specs.Segments.{are_pages_padded, are_placed, are_zero, ascends};
ghost use Rattle.bn_model.specs.Segments.{entry_count, first_fault, has_entries, has_magic};
ghost use Rattle.bn_model.specs.Segments.{has_mask, has_mode, has_pages, has_partners, has_rights};
ghost use Rattle.bn_model.specs.Segments.{has_sort, has_version, have_masks, have_rights};
ghost use Rattle.bn_model.specs.Segments.{have_sorts, holds_code, in_order, is_executed, is_padded};
ghost use Rattle.bn_model.specs.Segments.{is_page_padded, is_placed, page_count, partner_count};

use crate::fields::{
    ENTRIES, PAGES, PARTNERS, TEXT_BYTES, entry_at, entry_count_in, mask_at, page_count_in,
    partner_count_in, rights_at, sort_at, sort_number_at, vpn_at,
};
use bn_types::{SegFault, Sort};

/// The first test that the text fails, each made over the whole text before the next.
#[tactic(auto, unfolding(bn_model::specs::Segments::first_fault))]
pub fn fault_in(text: &[u8]) -> Option<SegFault>
    requires size { length text.now ≡ 1232 }
    ensures fault { result ≡ first_fault text.now }
    ensures entries { result ≡ None → entry_count text.now ≤ 8 }
    ensures pages { result ≡ None → page_count text.now ≤ 64 }
    ensures partners { result ≡ None → partner_count text.now ≤ 4 }
{
    if !is_magic(text) {
        return Some(SegFault::Magic);
    }
    if !is_known_version(text) {
        return Some(SegFault::Version);
    }
    if !is_mode(text) {
        return Some(SegFault::Mode);
    }
    if !are_entries_few(text) {
        return Some(SegFault::Entries);
    }
    if !are_pages_few(text) {
        return Some(SegFault::Pages);
    }
    if !are_pages_ordered(text) {
        return Some(SegFault::Order);
    }
    if !are_sorts(text) {
        return Some(SegFault::Sort);
    }
    if !are_rights(text) {
        return Some(SegFault::RightsBits);
    }
    if !are_entries_placed(text) {
        return Some(SegFault::EntryPlace);
    }
    if !are_partners_named(text) {
        return Some(SegFault::PartnerPlace);
    }
    if !is_rest_zero(text) {
        return Some(SegFault::Padding);
    }
    None
}

#[tactic(auto, unfolding(bn_model::specs::Segments::has_magic))]
fn is_magic(text: &[u8]) -> bool
    requires { length text.now ≡ 1232 }
    ensures { result ≡ has_magic text.now }
{
    text.starts_with(b"BNSG")
}

#[tactic(auto, unfolding(bn_model::specs::Segments::has_version))]
fn is_known_version(text: &[u8]) -> bool
    requires { length text.now ≡ 1232 }
    ensures { result ≡ has_version text.now }
{
    text[4] == 1
}

#[tactic(auto, unfolding(bn_model::specs::Segments::has_mode))]
fn is_mode(text: &[u8]) -> bool
    requires { length text.now ≡ 1232 }
    ensures { result ≡ has_mode text.now }
{
    text[5] <= 1
}

#[tactic(auto, unfolding(bn_model::specs::Segments::has_entries))]
fn are_entries_few(text: &[u8]) -> bool
    requires { length text.now ≡ 1232 }
    ensures test { result ≡ has_entries text.now }
    ensures few { result ≡ true → entry_count text.now ≤ 8 }
{
    (1..=8).contains(&entry_count_in(text))
}

#[tactic(auto, unfolding(bn_model::specs::Segments::has_pages))]
fn are_pages_few(text: &[u8]) -> bool
    requires { length text.now ≡ 1232 }
    ensures test { result ≡ has_pages text.now }
    ensures few { result ≡ true → page_count text.now ≤ 64 }
{
    (1..=64).contains(&page_count_in(text))
}

#[tactic(auto, unfolding(bn_model::specs::Segments::in_order))]
fn are_pages_ordered(text: &[u8]) -> bool
    requires size { length text.now ≡ 1232 }
    requires few { page_count text.now ≤ 64 }
    ensures { result ≡ in_order text.now }
{
    (0..page_count_in(text)).all(|i| is_after(text, i))
}

/// Whether page `i`'s virtual page fits, and is greater than the one before it.
#[tactic(auto, unfolding(bn_model::specs::Segments::ascends))]
fn is_after(text: &[u8], i: usize) -> bool
    requires size { length text.now ≡ 1232 }
    requires page { i < 64 }
    ensures { result ≡ ascends text.now i }
{
    vpn_at(text, i) < 1 << 52 && (i == 0 || vpn_at(text, i - 1) < vpn_at(text, i))
}

#[tactic(auto, unfolding(bn_model::specs::Segments::have_sorts))]
fn are_sorts(text: &[u8]) -> bool
    requires size { length text.now ≡ 1232 }
    requires few { page_count text.now ≤ 64 }
    ensures { result ≡ have_sorts text.now }
{
    (0..page_count_in(text)).all(|i| is_sort(text, i))
}

#[tactic(auto, unfolding(bn_model::specs::Segments::has_sort))]
fn is_sort(text: &[u8], i: usize) -> bool
    requires size { length text.now ≡ 1232 }
    requires page { i < 64 }
    ensures { result ≡ has_sort text.now i }
{
    (1..=3).contains(&sort_number_at(text, i))
}

#[tactic(auto, unfolding(bn_model::specs::Segments::have_rights))]
fn are_rights(text: &[u8]) -> bool
    requires size { length text.now ≡ 1232 }
    requires few { page_count text.now ≤ 64 }
    ensures { result ≡ have_rights text.now }
{
    (0..page_count_in(text)).all(|i| is_right(text, i))
}

/// Whether a page of page `i`'s sort may have its rights.
#[tactic(auto, unfolding(bn_model::specs::Segments::has_rights))]
fn is_right(text: &[u8], i: usize) -> bool
    requires size { length text.now ≡ 1232 }
    requires page { i < 64 }
    ensures { result ≡ has_rights text.now i }
{
    let rights = rights_at(text, i);
    match sort_at(text, i) {
        Sort::Private => matches!(rights, 1 | 3 | 4 | 5 | 7),
        Sort::Offer | Sort::Accept => matches!(rights, 1 | 3),
    }
}

#[tactic(auto, unfolding(bn_model::specs::Segments::are_placed))]
fn are_entries_placed(text: &[u8]) -> bool
    requires size { length text.now ≡ 1232 }
    requires entries { entry_count text.now ≤ 8 }
    requires pages { page_count text.now ≤ 64 }
    ensures { result ≡ are_placed text.now }
{
    (0..entry_count_in(text)).all(|i| is_entry_placed(text, i))
}

#[tactic(auto, unfolding(bn_model::specs::Segments::is_placed))]
fn is_entry_placed(text: &[u8], i: usize) -> bool
    requires size { length text.now ≡ 1232 }
    requires entry { i < 8 }
    requires few { page_count text.now ≤ 64 }
    ensures { result ≡ is_placed text.now i }
{
    let entry = entry_at(text, i);
    entry % 4 == 0 && is_code_page(text, entry / 4096)
}

#[tactic(auto, unfolding(bn_model::specs::Segments::is_executed))]
fn is_code_page(text: &[u8], vpn: u64) -> bool
    requires size { length text.now ≡ 1232 }
    requires few { page_count text.now ≤ 64 }
    ensures { result ≡ is_executed text.now vpn }
{
    (0..page_count_in(text)).any(|i| is_code_at(text, vpn, i))
}

/// Whether page `i` is private, may be fetched from, and is this virtual page.
#[tactic(auto, unfolding(bn_model::specs::Segments::holds_code))]
fn is_code_at(text: &[u8], vpn: u64, i: usize) -> bool
    requires size { length text.now ≡ 1232 }
    requires page { i < 64 }
    ensures { result ≡ holds_code text.now vpn i }
{
    vpn_at(text, i) == vpn && sort_number_at(text, i) == 1 && (rights_at(text, i) >> 2) % 2 == 1
}

#[tactic(auto, unfolding(bn_model::specs::Segments::has_partners))]
fn are_partners_named(text: &[u8]) -> bool
    requires size { length text.now ≡ 1232 }
    requires few { page_count text.now ≤ 64 }
    ensures test { result ≡ has_partners text.now }
    ensures few { result ≡ true → partner_count text.now ≤ 4 }
{
    partner_count_in(text) <= 4 && are_masks(text)
}

#[tactic(auto, unfolding(bn_model::specs::Segments::have_masks))]
fn are_masks(text: &[u8]) -> bool
    requires size { length text.now ≡ 1232 }
    requires pages { page_count text.now ≤ 64 }
    requires partners { partner_count text.now ≤ 4 }
    ensures { result ≡ have_masks text.now }
{
    (0..page_count_in(text)).all(|i| is_mask(text, i))
}

/// Whether page `i` names partners as its sort may.
#[tactic(auto, unfolding(bn_model::specs::Segments::has_mask))]
fn is_mask(text: &[u8], i: usize) -> bool
    requires size { length text.now ≡ 1232 }
    requires page { i < 64 }
    requires partners { partner_count text.now ≤ 4 }
    ensures { result ≡ has_mask text.now i }
{
    let mask = mask_at(text, i);
    match sort_at(text, i) {
        Sort::Private | Sort::Accept => mask == 0,
        Sort::Offer => mask != 0 && mask < 1 << partner_count_in(text),
    }
}

/// Whether each byte is zero that has no meaning, or belongs to an unused entry, page or partner.
#[tactic(auto, unfolding(bn_model::specs::Segments::is_padded))]
fn is_rest_zero(text: &[u8]) -> bool
    requires size { length text.now ≡ 1232 }
    requires entries { entry_count text.now ≤ 8 }
    requires pages { page_count text.now ≤ 64 }
    requires partners { partner_count text.now ≤ 4 }
    ensures { result ≡ is_padded text.now }
{
    let entries_end = ENTRIES + 8 * entry_count_in(text);
    let pages_end = PAGES + 16 * page_count_in(text);
    let partners_end = PARTNERS + 32 * partner_count_in(text);
    is_zero_from(text, 9, ENTRIES)
        && is_zero_from(text, entries_end, PAGES)
        && are_page_ends_zero(text)
        && is_zero_from(text, pages_end, PARTNERS)
        && is_zero_from(text, partners_end, TEXT_BYTES)
}

#[tactic(auto, unfolding(bn_model::specs::Segments::are_pages_padded))]
fn are_page_ends_zero(text: &[u8]) -> bool
    requires size { length text.now ≡ 1232 }
    requires pages { page_count text.now ≤ 64 }
    ensures { result ≡ are_pages_padded text.now }
{
    (0..page_count_in(text)).all(|i| is_page_end_zero(text, i))
}

#[tactic(auto, unfolding(bn_model::specs::Segments::is_page_padded))]
fn is_page_end_zero(text: &[u8], i: usize) -> bool
    requires size { length text.now ≡ 1232 }
    requires page { i < 64 }
    ensures { result ≡ is_page_padded text.now i }
{
    is_zero_from(text, PAGES + 16 * i + 11, PAGES + 16 * i + 16)
}

#[tactic(auto, unfolding(bn_model::specs::Segments::are_zero))]
fn is_zero_from(text: &[u8], from: usize, to: usize) -> bool
    requires order { from ≤ to }
    requires inside { to ≤ length text.now }
    ensures { result ≡ are_zero text.now from to }
{
    text[from..to].iter().all(|byte| *byte == 0)
}
