//! The calls to the hypervisor: what an ECALL of the untrusted kernel asks for.
#![tactic(auto)]

pub use asking::ask;
pub use bn_types::SbiAsk;

mod asking;
mod errors;
mod sending;
mod starting;
#[cfg(test)]
mod tests;
