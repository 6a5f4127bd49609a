use bn_types::CsrOp;

/// What a CSR instruction asks for, as `Act::Csr` tells it (Unprivileged ISA, "Zicsr").
#[derive(Clone, Copy, Debug, PartialEq, Eq)]
pub struct CsrAsked {
    pub op: CsrOp,
    /// The CSR's number.
    pub number: u16,
    pub operand: u64,
    /// Whether the old value is read.
    pub reads: bool,
    /// Whether the CSR is written.
    pub writes: bool,
}
