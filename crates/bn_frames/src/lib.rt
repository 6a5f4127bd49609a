//! The machine's memory: frames of 4,096 bytes, read and written little endian.
#![tactic(auto)]

pub use frames::Frames;

mod frames;
#[cfg(test)]
mod tests;
