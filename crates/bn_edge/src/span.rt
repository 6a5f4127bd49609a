/// A text among those that a vault in memory has kept.
#[derive(Clone, Copy, Debug, PartialEq, Eq)]
pub struct Span {
    /// Where it begins.
    pub at: usize,
    /// How many bytes it has, at most 65,536.
    pub len: usize,
    /// It isn't on the disk yet.
    pub loose: bool,
}
