use crate::{Gpn, ModId, Rights, Sort, Vpn};

/// What a live module declares of one of its pages.
#[derive(Clone, Copy, Debug, Default, PartialEq, Eq)]
pub struct Decl {
    pub vpn: Vpn,
    pub gpn: Gpn,
    pub sort: Sort,
    pub rights: Rights,
    /// Bit i names partner i. It is 0 but in an offer.
    pub mask: u8,
    /// The offering module, 0 but in an acceptance.
    pub source: ModId,
}
