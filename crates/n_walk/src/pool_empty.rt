/// No frame is free.
#[derive(Clone, Copy, Debug, Default, PartialEq, Eq)]
pub struct PoolEmpty;
