use crate::SegFault;

/// Why a launch is refused: the first test that fails, each made over the whole segment before the
/// next.
#[derive(Clone, Copy, Debug, PartialEq, Eq)]
pub enum LaunchRefused {
    /// The text's address isn't a multiple of 8, or the text doesn't lie in one page.
    Address,
    /// The text's page isn't a page of RAM that no module owns.
    Unmapped,
    /// The text is no segment.
    Segment(SegFault),
    /// A declared page leads to no page of RAM.
    NoPage,
    /// A private or offered page has owners.
    Owned,
    /// Two declarations reach one guest page.
    Alias,
    /// No live module offers an accepted page to this identity with these rights.
    NotOffered,
    /// A live module has this identity.
    Duplicate,
    /// 15 modules are live.
    TableFull,
    /// The next id is 65,536.
    IdsSpent,
}
