use crate::Held;
use bn_store::Store;

/// A store that was opened.
#[derive(Drop)]
pub struct Reopened {
    pub store: Store,
    /// The register was that of a new machine.
    pub fresh: bool,
    /// What commits to the same vault and chip.
    pub held: Held,
}
