use bn_types::Digest;
use thiserror::Error;

/// Why a store wasn't opened.
#[derive(Clone, Copy, Debug, Drop, Error, PartialEq, Eq)]
pub enum ReopenFault {
    /// Neither area has the register's digest.
    #[error("neither area has the register's digest")]
    Mismatch {
        register: Digest,
        first: Digest,
        second: Digest,
    },
    /// The area with the register's digest is no stored image: the first place where it is wrong.
    #[error("malformed at byte {at}")]
    Malformed {
        at: usize,
    },
    #[error("the vault failed")]
    Vault,
    #[error("the chip failed")]
    Chip,
    #[error("out of memory")]
    Memory,
}
