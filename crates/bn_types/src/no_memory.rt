/// Memory ran out.
#[derive(Clone, Copy, Debug, Default, PartialEq, Eq)]
pub struct NoMemory;
