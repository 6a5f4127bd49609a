use crate::ModId;

/// What a live module is doing.
#[derive(Clone, Copy, Debug, Default, PartialEq, Eq)]
pub enum RowState {
    #[default]
    Idle,
    Running { hart: u8 },
    /// It waits for the module that it called.
    Waiting { callee: ModId },
    Stopped,
}
