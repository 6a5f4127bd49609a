//! The nested page tables, which lead the guest's pages to machine frames. The tables lie in those
//! frames themselves, as the Privileged ISA's Sv39x4 lays them out.
#![tactic(auto)]

pub use nest::Nest;
pub use pool_empty::PoolEmpty;

mod nest;
mod pool_empty;
#[cfg(test)]
mod tests;
