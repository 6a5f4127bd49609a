/// An operation of the low 32 bits of two registers (Unprivileged ISA, "RV64I Base Integer
/// Instruction Set").
#[derive(Clone, Copy, Debug, PartialEq, Eq)]
pub enum WordOp {
    Add,
    Sub,
    Sll,
    Srl,
    Sra,
}
