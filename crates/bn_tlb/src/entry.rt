use arrayvec::ArrayVec;
use bn_types::{Frame, Gpn, Rights};

/// A translation by both stages.
#[derive(Debug, Default, Drop)]
pub struct Entry {
    /// The guest page that it leads to.
    pub page: Gpn,
    /// The machine frame of that page.
    pub frame: Frame,
    /// The low eight bits of the guest's leaf entry (Privileged ISA, "Sv39: Page-Based 39-bit
    /// Virtual-Memory System").
    pub flags: u8,
    /// Whether the guest translates nothing, so that there is no leaf entry.
    pub bare: bool,
    /// The kinds of access that the module may make there.
    pub rights: Rights,
    /// The pages of the tables that the guest's walk read.
    pub tables: ArrayVec<Gpn, 3>,
}
