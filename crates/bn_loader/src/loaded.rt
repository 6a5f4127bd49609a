/// An image as it stands in RAM.
#[derive(Debug, Drop)]
pub struct Loaded {
    /// All bytes of RAM.
    pub bytes: Vec<u8>,
    /// The address of the first instruction, a multiple of 4 in RAM.
    pub entry: u64,
}
