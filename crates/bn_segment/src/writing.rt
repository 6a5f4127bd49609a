ghost use Rattle.std.specs.Prelude.{◌≡◌, ◌<◌, ◌≤◌, ◌+◌, ◌-◌, ◌*◌, ◌++◌, length, take, flat_map};
ghost use Rattle.std.specs.Prelude.{replicate};
ghost use Rattle.bn_model.specs.Segments.{entry_bytes, header_bytes, mode_number, page_bytes};
ghost use Rattle.bn_model.specs.Segments.{partner_bytes, segment_of, sort_number};
ghost use Rattle.bn_model.specs.Segments.{spelling_of_segment};
ghost use Rattle.bn_model.specs.SegmentLaws.{IsSegment};
ghost use Rattle.bn_types.specs.declared.digest.Digest.{Digest};
ghost use Rattle.bn_types.specs.declared.seg_page.SegPage.{SegPage};
ghost use Rattle.bn_types.specs.declared.segment.Segment.{Segment};

use bn_types::{Digest, Mode, SegPage, Segment, Sort};

/// Writes the text of a segment. Where the segment passes the tests, `read` gives it back.
pub fn write(segment: &Segment, text: &mut [u8; 1232])
    ensures spelling { text.new ≡ spelling_of_segment segment.now }
    ensures back { IsSegment segment.now → segment_of text.new ≡ Ok segment.now }
{
    write_slice(segment, text);
}

#[tactic(auto, unfolding(bn_model::specs::Segments::spelling_of_segment))]
fn write_slice(segment: &Segment, text: &mut [u8])
    requires { length text.old ≡ 1232 }
    ensures { text.new ≡ spelling_of_segment segment.now }
{
    let at = put_header(text, segment);
    let at = put_entries(text, at, &segment.entries);
    let at = put_zeros(text, at, 64 - 8 * segment.entries.len());
    let at = put_pages(text, at, &segment.pages);
    let at = put_zeros(text, at, 1024 - 16 * segment.pages.len());
    let at = put_partners(text, at, &segment.partners);
    put_zeros(text, at, 128 - 32 * segment.partners.len());
}

/// Writes the 16 bytes before the entries, and tells where they end.
#[tactic(auto, unfolding(bn_model::specs::Segments::header_bytes))]
fn put_header(text: &mut [u8], segment: &Segment) -> usize
    requires { length text.old ≡ 1232 }
    ensures bytes { take result text.new ≡ header_bytes segment.now }
    ensures end { result ≡ 16 }
    ensures size { length text.new ≡ length text.old }
{
    let mode = match segment.mode {
        Mode::U => 0,
        Mode::S => 1,
    };
    let entries = segment.entries.len() as u8;
    let pages = segment.pages.len() as u8;
    let partners = segment.partners.len() as u8;
    let head = [
        b'B', b'N', b'S', b'G', 1, mode, entries, pages, partners, 0, 0, 0, 0, 0, 0, 0,
    ];
    put(text, 0, &head)
}

fn put_entries(text: &mut [u8], mut at: usize, entries: &[u64]) -> usize
    requires { at + 8 * length entries.now ≤ length text.old }
    ensures bytes { take result text.new ≡ take at text.old ++ flat_map entry_bytes entries.now }
    ensures end { result ≡ at + 8 * length entries.now }
    ensures size { length text.new ≡ length text.old }
{
    for entry in entries {
        at = put_entry(text, at, *entry);
    }
    at
}

#[tactic(auto, unfolding(bn_model::specs::Segments::entry_bytes))]
fn put_entry(text: &mut [u8], at: usize, entry: u64) -> usize
    requires { at + 8 ≤ length text.old }
    ensures bytes { take result text.new ≡ take at text.old ++ entry_bytes entry }
    ensures end { result ≡ at + 8 }
    ensures size { length text.new ≡ length text.old }
{
    put(text, at, &entry.to_le_bytes())
}

fn put_pages(text: &mut [u8], mut at: usize, pages: &[SegPage]) -> usize
    requires { at + 16 * length pages.now ≤ length text.old }
    ensures bytes { take result text.new ≡ take at text.old ++ flat_map page_bytes pages.now }
    ensures end { result ≡ at + 16 * length pages.now }
    ensures size { length text.new ≡ length text.old }
{
    for page in pages {
        at = put_page(text, at, page);
    }
    at
}

#[tactic(auto, unfolding(bn_model::specs::Segments::page_bytes))]
fn put_page(text: &mut [u8], at: usize, page: &SegPage) -> usize
    requires { at + 16 ≤ length text.old }
    ensures bytes { take result text.new ≡ take at text.old ++ page_bytes page.now }
    ensures end { result ≡ at + 16 }
    ensures size { length text.new ≡ length text.old }
{
    let at = put(text, at, &page.vpn.0.to_le_bytes());
    let tail = [
        number_of(page.sort),
        page.rights.0,
        page.mask,
        0,
        0,
        0,
        0,
        0,
    ];
    put(text, at, &tail)
}

fn number_of(sort: Sort) -> u8
    ensures { result ≡ sort_number sort }
{
    match sort {
        Sort::Private => 1,
        Sort::Offer => 2,
        Sort::Accept => 3,
    }
}

fn put_partners(text: &mut [u8], mut at: usize, partners: &[Digest]) -> usize
    requires { at + 32 * length partners.now ≤ length text.old }
    ensures bytes { take result text.new ≡ take at text.old ++ flat_map partner_bytes partners.now }
    ensures end { result ≡ at + 32 * length partners.now }
    ensures size { length text.new ≡ length text.old }
{
    for partner in partners {
        at = put_partner(text, at, partner);
    }
    at
}

#[tactic(auto, unfolding(bn_model::specs::Segments::partner_bytes))]
fn put_partner(text: &mut [u8], at: usize, partner: &Digest) -> usize
    requires { at + 32 ≤ length text.old }
    ensures bytes { take result text.new ≡ take at text.old ++ partner_bytes partner.now }
    ensures end { result ≡ at + 32 }
    ensures size { length text.new ≡ length text.old }
{
    put(text, at, &partner.0)
}

/// Writes a piece, and tells where it ends.
fn put(text: &mut [u8], at: usize, piece: &[u8]) -> usize
    requires { at + length piece.now ≤ length text.old }
    ensures bytes { take result text.new ≡ take at text.old ++ piece.now }
    ensures end { result ≡ at + length piece.now }
    ensures size { length text.new ≡ length text.old }
{
    let end = at + piece.len();
    text[at..end].copy_from_slice(piece);
    end
}

fn put_zeros(text: &mut [u8], at: usize, count: usize) -> usize
    requires { at + count ≤ length text.old }
    ensures bytes { take result text.new ≡ take at text.old ++ replicate count 0 }
    ensures end { result ≡ at + count }
    ensures size { length text.new ≡ length text.old }
{
    let end = at + count;
    text[at..end].fill(0);
    end
}
