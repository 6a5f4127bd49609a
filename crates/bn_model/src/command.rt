use bn_types::Gpn;

/// A command of a script.
#[derive(Clone, Copy, Debug, PartialEq, Eq)]
pub enum Command {
    /// So many turns of that hart.
    Turn(u8, u32),
    /// So many turns, of one hart after the other.
    Go(u32),
    /// A key comes in.
    Key(u8),
    /// A device writes the byte at an offset of the page.
    Poke(Gpn, u16, u8),
    /// A device reads the byte at an offset of the page.
    Peek(Gpn, u16),
}
