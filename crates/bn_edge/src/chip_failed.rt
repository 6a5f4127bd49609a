/// A read or a set of a chip's register failed.
#[derive(Clone, Copy, Debug, PartialEq, Eq)]
pub struct ChipFailed;
