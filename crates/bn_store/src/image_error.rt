use thiserror::Error;

/// Why a text gave no store.
#[derive(Clone, Copy, Debug, Drop, Error, PartialEq, Eq)]
pub enum ImageError {
    /// The text is no stored image: this is the first place where it is wrong.
    #[error("malformed at byte {at}")]
    Malformed { at: usize },
    /// Memory ran out.
    #[error("out of memory")]
    Memory,
}
