use crate::{Digest, Mode, SegPage};
use arrayvec::ArrayVec;

/// What a segment text says: the mode, entries, pages and partners of a module.
#[derive(Debug, Drop)]
pub struct Segment {
    pub mode: Mode,
    /// 1 to 8 addresses, multiples of 4 on declared pages.
    pub entries: ArrayVec<u64, 8>,
    /// 1 to 64 pages, by ascending virtual page.
    pub pages: ArrayVec<SegPage, 64>,
    pub partners: ArrayVec<Digest, 4>,
}
