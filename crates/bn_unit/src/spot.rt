use bn_types::{Frame, Gpn};

/// A page of RAM, and the machine frame that it lies on.
#[derive(Clone, Copy)]
pub struct Spot {
    pub page: Gpn,
    pub frame: Frame,
}
