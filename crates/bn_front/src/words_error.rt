use thiserror::Error;

/// Why words aren't read.
#[derive(Clone, Copy, Debug, Drop, Error, PartialEq, Eq)]
pub enum WordsError {
    /// They are no command line.
    #[error("the words are no command line")]
    Words,
    /// There is no memory for what they say.
    #[error("out of memory")]
    Memory,
}
