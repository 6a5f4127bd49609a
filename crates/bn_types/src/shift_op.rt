/// A shift to the left, to the right, or to the right with the sign (SLL, SRL, SRA).
#[derive(Clone, Copy, Debug, PartialEq, Eq)]
pub enum ShiftOp {
    Left,
    Right,
    RightSigned,
}
