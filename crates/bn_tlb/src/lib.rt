//! Translations that are held for each hart, with the drops that keep them right.
#![tactic(auto)]

pub use entry::Entry;
pub use key::Key;
pub use tlb::Tlb;

mod entry;
mod key;
mod leaving;
mod marks;
mod set;
mod slot;
#[cfg(test)]
mod tests;
mod tlb;
