use crate::{Cause, Gpn};

/// A memory access that failed.
#[derive(Clone, Copy, Debug, Default, PartialEq, Eq)]
pub struct Fault {
    pub cause: Cause,
    /// The virtual address that was accessed.
    pub va: u64,
    /// The guest page, exactly where the admission rule refused it.
    pub denied: Option<Gpn>,
}
