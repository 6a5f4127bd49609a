ghost use Rattle.std.specs.Prelude.{◌≡◌, ◌+◌, ◌<◌, ◌≤◌, ◌^◌, length};
ghost use Rattle.bn_types.specs.Numbers.{number_at};
ghost use Rattle.bn_types.specs.declared.width.Width.TheVariants.{B8};
ghost use Rattle.bn_model.specs.Segments.{entry_count, entry_in, mask_in, page_count};
ghost use Rattle.bn_model.specs.Segments.{partner_count, rights_in, sort_in, sort_of, vpn_in};

use bn_types::Sort;

/// How long a segment text is, in bytes.
pub const TEXT_BYTES: usize = 1232;

/// Where the 8 entries begin, of 8 bytes each.
pub const ENTRIES: usize = 16;

/// Where the 64 pages begin, of 16 bytes each.
pub const PAGES: usize = 80;

/// Where the 4 partners begin, of 32 bytes each.
pub const PARTNERS: usize = 1104;

/// How many entries the text says that it has.
pub fn entry_count_in(text: &[u8]) -> usize
    requires { length text.now ≡ 1232 }
    ensures { result ≡ entry_count text.now }
{
    text[6] as usize
}

/// How many pages the text says that it has.
pub fn page_count_in(text: &[u8]) -> usize
    requires { length text.now ≡ 1232 }
    ensures { result ≡ page_count text.now }
{
    text[7] as usize
}

/// How many partners the text says that it has.
pub fn partner_count_in(text: &[u8]) -> usize
    requires { length text.now ≡ 1232 }
    ensures { result ≡ partner_count text.now }
{
    text[8] as usize
}

/// The address of entry `i`.
pub fn entry_at(text: &[u8], i: usize) -> u64
    requires size { length text.now ≡ 1232 }
    requires entry { i < 8 }
    ensures { result ≡ entry_in text.now i }
{
    word_at(text, ENTRIES + 8 * i)
}

/// The virtual page of page `i`.
pub fn vpn_at(text: &[u8], i: usize) -> u64
    requires size { length text.now ≡ 1232 }
    requires page { i < 64 }
    ensures { result ≡ vpn_in text.now i }
{
    word_at(text, PAGES + 16 * i)
}

/// The number of page `i`'s sort.
pub fn sort_number_at(text: &[u8], i: usize) -> u8
    requires size { length text.now ≡ 1232 }
    requires page { i < 64 }
    ensures { result ≡ sort_in text.now i }
{
    text[PAGES + 16 * i + 8]
}

/// Page `i`'s sort. A number that is no sort's counts as an acceptance.
pub fn sort_at(text: &[u8], i: usize) -> Sort
    requires size { length text.now ≡ 1232 }
    requires page { i < 64 }
    ensures { result ≡ sort_of (sort_in text.now i) }
{
    match sort_number_at(text, i) {
        1 => Sort::Private,
        2 => Sort::Offer,
        _ => Sort::Accept,
    }
}

/// Page `i`'s rights.
pub fn rights_at(text: &[u8], i: usize) -> u8
    requires size { length text.now ≡ 1232 }
    requires page { i < 64 }
    ensures { result ≡ rights_in text.now i }
{
    text[PAGES + 16 * i + 9]
}

/// Page `i`'s mask.
pub fn mask_at(text: &[u8], i: usize) -> u8
    requires size { length text.now ≡ 1232 }
    requires page { i < 64 }
    ensures { result ≡ mask_in text.now i }
{
    text[PAGES + 16 * i + 10]
}

#[tactic(auto, unfolding(bn_types::specs::Numbers::number_at))]
fn word_at(text: &[u8], at: usize) -> u64
    requires { at + 8 ≤ length text.now }
    ensures { result ≡ number_at B8 text.now at }
{
    u64::from_le_bytes([
        text[at],
        text[at + 1],
        text[at + 2],
        text[at + 3],
        text[at + 4],
        text[at + 5],
        text[at + 6],
        text[at + 7],
    ])
}
