use bn_types::Gpn;

/// A byte of guest memory: a guest page, and an offset into it below 4,096.
#[derive(Clone, Copy, Debug, PartialEq, Eq)]
pub struct Place {
    pub page: Gpn,
    pub offset: u16,
}
