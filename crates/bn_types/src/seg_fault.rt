/// Why a text is no segment: the first test that fails, each made over the whole text before the
/// next.
#[derive(Clone, Copy, Debug, PartialEq, Eq)]
pub enum SegFault {
    /// The first 4 bytes aren't `BNSG`.
    Magic,
    /// The version isn't 1.
    Version,
    /// The mode is above 1.
    Mode,
    /// The number of entries isn't from 1 to 8.
    Entries,
    /// The number of pages isn't from 1 to 64.
    Pages,
    /// A virtual page is 2^52 or more, or isn't greater than the one before it.
    Order,
    /// A sort isn't 1, 2 or 3.
    Sort,
    /// A private page's rights aren't 1, 3, 4, 5 or 7, or another page's aren't 1 or 3.
    RightsBits,
    /// An entry isn't a multiple of 4, or its page isn't declared private with fetch.
    EntryPlace,
    /// There are more than 4 partners; or an offer's mask is 0 or names none; or another page has a
    /// mask.
    PartnerPlace,
    /// A byte isn't zero that has no meaning, or that belongs to an unused entry, page or partner.
    Padding,
}
