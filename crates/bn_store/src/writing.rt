ghost use Rattle.std.specs.Prelude.{◌≡◌, ℕ, ◌+◌, ◌*◌, ◌≤◌, ◌++◌, length, take};
ghost use Rattle.bn_model.specs.StoredImages.{image_of, record_text, records_text, words_text};

use bn_types::Record;

const MAGIC: &[u8; 8] = b"BNSTORE1";

/// Writes the stored image of the records to the front of a text, and says how many bytes that are.
#[tactic(auto, unfolding(bn_model::specs::StoredImages::image_of))]
pub fn write_image(records: &[Record], text: &mut [u8]) -> usize
    requires { 16 + 288 * length records.now ≤ length text.old }
    ensures image { take result text.new ≡ image_of records.now }
    ensures size { result ≡ 16 + 288 * length records.now }
    ensures room { length text.new ≡ length text.old }
{
    let after_magic = put(text, 0, MAGIC);
    let count = records.len() as u64;
    let after_count = put(text, after_magic, &count.to_le_bytes());
    write_records(records, text, after_count)
}

fn write_records(records: &[Record], text: &mut [u8], at: usize) -> usize
    requires { at + 288 * length records.now ≤ length text.old }
    ensures written { take result text.new ≡ take at text.old ++ records_text records.now }
    ensures end { result ≡ at + 288 * length records.now }
    ensures room { length text.new ≡ length text.old }
{
    let mut end = at;
    for record in records {
        end = write_record(record, text, end);
    }
    end
}

fn write_record(one: &Record, text: &mut [u8], at: usize) -> usize
    requires { at + 288 ≤ length text.old }
    ensures written { take result text.new ≡ take at text.old ++ record_text one.now }
    ensures end { result ≡ at + 288 }
    ensures room { length text.new ≡ length text.old }
{
    let end = put(text, at, &one.who.0);
    write_words(&one.words, text, end)
}

fn write_words(words: &[u64], text: &mut [u8], at: usize) -> usize
    requires { at + 8 * length words.now ≤ length text.old }
    ensures written { take result text.new ≡ take at text.old ++ words_text words.now }
    ensures end { result ≡ at + 8 * length words.now }
    ensures room { length text.new ≡ length text.old }
{
    let mut end = at;
    for word in words {
        end = put(text, end, &word.to_le_bytes());
    }
    end
}

/// Writes bytes from a place on, and says where they end.
fn put(text: &mut [u8], at: usize, bytes: &[u8]) -> usize
    requires { at + length bytes.now ≤ length text.old }
    ensures written { take result text.new ≡ take at text.old ++ bytes.now }
    ensures end { result ≡ at + length bytes.now }
    ensures room { length text.new ≡ length text.old }
{
    let end = at + bytes.len();
    text[at..end].copy_from_slice(bytes);
    end
}
