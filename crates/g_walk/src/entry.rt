ghost use Rattle.std.specs.Prelude.{◌≡◌, ◌<◌, ◌≤◌, ◌||◌};
ghost use Rattle.bn_model.specs.Bits as bits;
ghost use Rattle.bn_model.specs.Entries as entries;
ghost use Rattle.g_walk.specs.Answers.{kind};

// The places of an entry's flags.
pub const VALID: u32 = 0;

pub const READ: u32 = 1;

pub const WRITE: u32 = 2;

pub const EXECUTE: u32 = 3;

pub const USER: u32 = 4;

pub const ACCESSED: u32 = 6;

pub const DIRTY: u32 = 7;

/// What an entry is to a walk: none that it can take, the end of the walk, or the way to the next
/// table.
#[derive(Clone, Copy, Debug, PartialEq, Eq)]
pub enum EntryKind {
    Invalid,
    Leaf,
    Pointer,
}

/// Whether the bit of an entry is set.
pub fn is_set(entry: u64, index: u32) -> bool
    requires { index < 64 }
    ensures { result ≡ bits.is_set entry index }
{
    (entry >> index) % 2 == 1
}

/// The physical page number that the entry holds, below 2^44.
pub fn ppn_in(entry: u64) -> u64
    ensures { result ≡ entries.ppn_of entry }
{
    (entry >> 10) % (1 << 44)
}

/// What an entry is that is read at the level, 2 for the root.
pub fn kind_of(level: u8, entry: u64) -> EntryKind
    requires { level ≤ 2 }
    ensures { kind result ≡ entries.entry_kind level entry }
{
    if is_malformed(entry) {
        return EntryKind::Invalid;
    }
    if is_set(entry, READ) || is_set(entry, EXECUTE) {
        if is_aligned(level, entry) {
            EntryKind::Leaf
        } else {
            EntryKind::Invalid
        }
    } else if level == 0 || has_leaf_flags(entry) {
        EntryKind::Invalid
    } else {
        EntryKind::Pointer
    }
}

/// Not valid at any level: without V, with W but not R, or with one of bits 63:54.
fn is_malformed(entry: u64) -> bool
    ensures { result ≡ entries.is_malformed entry }
{
    !is_set(entry, VALID) || (is_set(entry, WRITE) && !is_set(entry, READ)) || entry >> 54 != 0
}

/// Whether the page number fits a leaf of the level: a superpage's low 9 or 18 bits are zero.
fn is_aligned(level: u8, entry: u64) -> bool
    requires { level ≤ 2 }
    ensures { result ≡ entries.is_aligned level entry }
{
    ppn_in(entry) % (1 << (9 * level)) == 0
}

/// Whether one of U, A and D is set, which a pointer may not have.
fn has_leaf_flags(entry: u64) -> bool
    ensures { result
        ≡ (entries.is_user entry || entries.is_accessed entry || entries.is_dirty entry) }
{
    is_set(entry, USER) || is_set(entry, ACCESSED) || is_set(entry, DIRTY)
}
