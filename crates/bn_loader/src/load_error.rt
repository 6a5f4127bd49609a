use bn_types::ImageFault;
use thiserror::Error;

/// Why an image isn't loaded.
#[derive(Debug, Drop, Error)]
pub enum LoadError {
    /// The file is faulty.
    #[error("the image is faulty")]
    Fault(ImageFault),
    /// There is no memory for it.
    #[error("out of memory")]
    Memory,
}
