use bn_types::{ModId, Vpn};

/// What a translation is held under.
#[derive(Clone, Copy, Debug, Default, PartialEq, Eq)]
pub struct Key {
    /// The module that made the access, 0 for the untrusted world.
    pub module: ModId,
    /// The value of `satp` that it was made under (Privileged ISA, "Supervisor Address Translation
    /// and Protection Register").
    pub satp: u64,
    pub vpn: Vpn,
}
