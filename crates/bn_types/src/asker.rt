use crate::{ModId, Mode};

/// Who makes a memory access: a hart, with what translation and permissions depend on (Privileged
/// ISA, "Supervisor Address Translation and Protection Register", "Supervisor Status Register").
#[derive(Clone, Copy, Debug, PartialEq, Eq)]
pub struct Asker {
    pub hart: u8,
    /// The hart's current module, 0 for the untrusted world.
    pub module: ModId,
    pub mode: Mode,
    /// `satp`, of MODE 0 (Bare) or 8 (Sv39).
    pub satp: u64,
    /// SUM of `sstatus`: mode S may load from and store to pages of mode U.
    pub sum: bool,
    /// MXR of `sstatus`: pages that may be executed may be loaded from.
    pub mxr: bool,
}
