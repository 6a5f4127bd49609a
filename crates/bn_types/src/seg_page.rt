use crate::{Rights, Sort, Vpn};

/// A page as a segment text declares it, before it is known which guest page it reaches.
#[derive(Clone, Copy, Debug, Default, PartialEq, Eq)]
pub struct SegPage {
    pub vpn: Vpn,
    pub sort: Sort,
    pub rights: Rights,
    /// Bit i names partner i. It is 0 but in an offer.
    pub mask: u8,
}
