/// The CSR may not be read or written so: no CSR has the number, the mode is U, or a counter was to
/// be written (Privileged ISA, "CSR Address Mapping Conventions").
#[derive(Clone, Copy, Debug, PartialEq, Eq)]
pub struct Illegal;
