/// The kind of a memory access.
#[derive(Clone, Copy, Debug, Default, PartialEq, Eq)]
pub enum Kind {
    #[default]
    Fetch,
    Load,
    Store,
}
