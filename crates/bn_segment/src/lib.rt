//! Segment texts: 1,232 bytes from which a module is launched.
#![tactic(auto)]

pub use bn_types::SegFault;
pub use reading::read;
pub use writing::write;

mod faults;
mod fields;
mod reading;
#[cfg(test)]
mod tests;
mod writing;
