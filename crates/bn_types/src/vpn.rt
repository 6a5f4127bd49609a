/// A virtual page number: an address without its low 12 bits, below 2^52.
#[derive(Clone, Copy, Debug, Default, PartialEq, Eq)]
pub struct Vpn(pub u64);
