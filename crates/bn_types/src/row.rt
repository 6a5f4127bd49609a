use crate::{Judged, ModId, RowState, SavedFrame};

/// A live module.
#[derive(Debug, Default, Drop)]
pub struct Row {
    pub id: ModId,
    pub judged: Judged,
    pub state: RowState,
    /// The module's own registers, pc and mode while it is waiting or stopped, else all zeros in
    /// mode U.
    pub saved: SavedFrame,
    /// The module that called it, 0 for the untrusted world or none.
    pub caller: ModId,
    /// What the untrusted world gets back while it waits for this module, else all zeros in mode U.
    pub back: SavedFrame,
}
