//! The guest's Sv39 walk over the guest pages.
#![tactic(auto)]

pub use access::walk;
pub use fault::LeafFault;
pub use found::Leaf;
pub use permission::{permit, permit_by_flags};
pub use structure::leaf;

mod access;
mod descent;
mod entry;
mod fault;
mod found;
mod permission;
mod structure;
#[cfg(test)]
mod tests;
