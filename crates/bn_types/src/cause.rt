/// The cause of a trap as `scause` holds it, bit 63 set for an interrupt (Privileged ISA,
/// "Supervisor Cause Register").
#[derive(Clone, Copy, Debug, Default, PartialEq, Eq)]
pub struct Cause(pub u64);
