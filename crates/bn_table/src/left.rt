use bn_types::{ModId, SavedFrame};

/// What a module leaves that returns.
#[derive(Clone, Copy, Debug, PartialEq, Eq)]
pub struct Left {
    /// Its caller, 0 for the untrusted world.
    pub caller: ModId,
    /// What the untrusted world gets back, where it is the caller.
    pub back: SavedFrame,
}
