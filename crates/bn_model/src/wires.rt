/// The interrupts that come to a hart from outside its CSRs, as `sip` shows them in bits 5 and 9.
#[derive(Clone, Copy, Debug, Default, PartialEq, Eq)]
pub struct Wires {
    /// The hart's timer has run out.
    pub timer: bool,
    /// A device asks for the hart.
    pub external: bool,
}
