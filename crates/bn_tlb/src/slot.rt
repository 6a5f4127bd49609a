use crate::{Entry, Key};

/// A translation that is held, with its key.
#[derive(Debug, Default, Drop)]
pub struct Slot {
    pub key: Key,
    pub entry: Entry,
}
