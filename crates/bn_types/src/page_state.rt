/// What a guest page is to the untrusted world.
#[derive(Clone, Copy, Debug, PartialEq, Eq)]
pub enum PageState {
    /// It isn't in RAM.
    Outside,
    /// A live module declares it.
    Owned,
    /// It is in RAM, and no live module declares it.
    Free,
}
