use crate::Gpn;

/// One step of the machine.
#[derive(Clone, Copy, Debug, PartialEq, Eq)]
pub enum Event {
    /// One turn of the hart with this number.
    Turn(u8),
    /// One key comes in.
    Key(u8),
    /// A device writes the byte of the guest page at an offset below 4,096.
    Poke(Gpn, u16, u8),
    /// A device reads the byte of the guest page at an offset below 4,096.
    Peek(Gpn, u16),
}
