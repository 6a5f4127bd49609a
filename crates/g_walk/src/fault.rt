/// Why a walk finds no page.
#[derive(Clone, Copy, Debug, PartialEq, Eq)]
pub enum LeafFault {
    /// The tables hold no leaf for the address.
    Page,
    /// A table entry lies on a page that isn't free.
    Refused,
}
