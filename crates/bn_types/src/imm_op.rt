/// An operation of a register and an immediate (Unprivileged ISA, "Integer Register-Immediate
/// Instructions"). `Slt` is signed.
#[derive(Clone, Copy, Debug, PartialEq, Eq)]
pub enum ImmOp {
    Add,
    Slt,
    Sltu,
    Xor,
    Or,
    And,
}
