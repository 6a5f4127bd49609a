//! The supervisor's control and status registers of a hart, its traps and its interrupts.
#![tactic(auto)]

pub use asked::CsrAsked;
pub use bn_model::Wires;
pub use csrs::Csrs;
pub use illegal::Illegal;

mod asked;
mod bits;
mod csrs;
mod illegal;
mod operating;
#[cfg(test)]
mod tests;
