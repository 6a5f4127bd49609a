use crate::{Decl, Digest, Mode};
use arrayvec::ArrayVec;

/// A module as a launch admits it.
#[derive(Debug, Default, Drop)]
pub struct Judged {
    /// The module's identity: the digest of its segment text and of its own pages.
    pub digest: Digest,
    pub mode: Mode,
    pub entries: ArrayVec<u64, 8>,
    pub decls: ArrayVec<Decl, 64>,
    pub partners: ArrayVec<Digest, 4>,
}
