/// What a call to the hypervisor asks for (this project's own table, after the RISC-V SBI).
#[derive(Clone, Copy, Debug, PartialEq, Eq)]
pub enum SbiAsk {
    /// The hart's timer is pending from this clock on.
    SetTimer(u64),
    /// Writes a byte to the console.
    Put(u8),
    /// Takes the oldest key that waits.
    Get,
    /// Shuts the machine down.
    Shutdown,
    /// Starts the hart at a pc, a multiple of 4, with this in its a1.
    Start { hart: u8, pc: u64, opaque: u64 },
    /// Sets the software interrupt of each hart whose bit is set.
    Ipi { harts: u8 },
    /// Is answered by this in a0 and 0 in a1, and has no other effect.
    Refuse { a0: u64 },
}
