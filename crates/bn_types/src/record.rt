use crate::Digest;

/// What a secure module keeps beyond its life: 32 words, under its identity.
#[derive(Clone, Copy, Debug, PartialEq, Eq)]
pub struct Record {
    /// The identity of the module, the SHA-256 digest of its launch.
    pub who: Digest,
    pub words: [u64; 32],
}
