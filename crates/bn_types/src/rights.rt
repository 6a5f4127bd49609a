/// The kinds of access that a declaration permits: bit 0 loads, bit 1 stores, bit 2 fetches.
#[derive(Clone, Copy, Debug, Default, PartialEq, Eq)]
pub struct Rights(pub u8);
