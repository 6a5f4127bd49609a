use thiserror::Error;

/// Which object failed in a commit.
#[derive(Clone, Copy, Debug, Drop, Error, PartialEq, Eq)]
pub enum CommitFault {
    #[error("the vault failed")]
    Vault,
    #[error("the chip failed")]
    Chip,
}
