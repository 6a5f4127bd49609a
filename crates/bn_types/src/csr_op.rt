/// What a CSR instruction does with its operand: CSRRW, CSRRS or CSRRC (Unprivileged ISA, "Zicsr").
#[derive(Clone, Copy, Debug, PartialEq, Eq)]
pub enum CsrOp {
    Write,
    Set,
    Clear,
}
