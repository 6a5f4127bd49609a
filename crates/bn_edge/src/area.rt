/// One of the two areas of a vault.
#[derive(Clone, Copy, Debug, PartialEq, Eq)]
pub enum Area {
    First,
    Second,
}
