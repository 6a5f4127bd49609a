//! The words that secure modules keep beyond their lives, by identity, and their stored image.
#![tactic(auto)]

pub use bn_types::SetRefused;
pub use image_error::ImageError;
pub use store::Store;

mod image_error;
mod reading;
mod store;
#[cfg(test)]
mod tests;
mod writing;
