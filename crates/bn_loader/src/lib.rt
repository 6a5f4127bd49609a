//! Images of guests: raw files and ELF files of 64 bits, as they stand in RAM.
#![tactic(auto)]

pub use bn_types::{ImageFault, ImageSort};
pub use load_error::LoadError;
pub use loaded::Loaded;
pub use loading::load;

mod checking;
mod header;
mod load_error;
mod loaded;
mod loading;
mod numbers;
mod placing;
#[cfg(test)]
mod tests;
