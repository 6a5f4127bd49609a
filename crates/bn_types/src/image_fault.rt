use crate::ImageSort;

/// A faulty image file: what is wrong, and at which byte.
#[derive(Clone, Copy, Debug, PartialEq, Eq)]
pub struct ImageFault {
    pub sort: ImageSort,
    pub at: u64,
}
