/// What is wrong with an image file (System V ABI, "ELF Header" and "Program Header").
#[derive(Clone, Copy, Debug, PartialEq, Eq)]
pub enum ImageSort {
    /// It is longer than any image, or than RAM.
    Long,
    /// It has no bytes.
    Empty,
    /// It ends within the file header.
    Short,
    /// It isn't of 64 bits.
    Class,
    /// It isn't little endian.
    Order,
    /// It is no executable.
    Kind,
    /// It is for another machine than RISC-V.
    Machine,
    /// A program header has another size, or they aren't all in the file.
    Headers,
    /// A segment has more bytes in the file than in memory.
    Sizes,
    /// A segment's bytes aren't all in the file.
    Bytes,
    /// A segment's memory isn't all in RAM.
    Range,
    /// No program header is loaded.
    Nothing,
    /// The entry isn't a multiple of 4 in RAM.
    Entry,
}
