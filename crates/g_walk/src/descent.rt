/// How the way from table to table ends: at a leaf, without one, or at an entry that lies on a page
/// that isn't free.
#[derive(Clone, Copy, Debug, PartialEq, Eq)]
pub enum Descent {
    Found,
    NoLeaf,
    Refused,
}
