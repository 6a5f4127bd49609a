use bn_table::Seat;
use bn_types::{Mode, Regs};

/// What a hart hands over where another module goes on: registers, pc, mode and seat. It must be
/// used up, as a seat must.
pub struct Context {
    pub regs: Regs,
    /// The address of the next instruction, a multiple of 4.
    pub pc: u64,
    pub mode: Mode,
    /// The seat of the module that runs, none in the untrusted world.
    pub seat: Option<Seat>,
}
