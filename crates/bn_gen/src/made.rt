/// What is made of a number.
#[derive(Debug, Drop)]
pub struct Made {
    /// A raw image of 131,072 bytes.
    pub image: Vec<u8>,
    /// The text of a script of 128 commands, for one hart.
    pub script: Vec<u8>,
}
