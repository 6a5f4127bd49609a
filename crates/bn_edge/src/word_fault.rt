/// Why no word was copied.
#[derive(Clone, Copy, Debug, PartialEq, Eq)]
pub enum WordFault {
    /// There are no more words.
    Past,
    /// The word is longer than the room for it.
    Long,
}
