/// A write to a vault or its sync failed.
#[derive(Clone, Copy, Debug, PartialEq, Eq)]
pub struct VaultFailed;
