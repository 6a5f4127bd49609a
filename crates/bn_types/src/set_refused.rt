/// Why a word isn't set: the first of these that holds.
#[derive(Clone, Copy, Debug, PartialEq, Eq)]
pub enum SetRefused {
    /// The index is above 31.
    BadIndex,
    /// The identity has no words, and 64 others have.
    Full,
}
