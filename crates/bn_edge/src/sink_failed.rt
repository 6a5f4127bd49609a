/// A write failed, and nothing was written.
#[derive(Clone, Copy, Debug, PartialEq, Eq)]
pub struct SinkFailed;
