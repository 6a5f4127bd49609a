//! What an RV64I, Zicsr or secure instruction asks of its machine, by its registers and pc alone.
#![tactic(auto)]

pub use acting::act;
pub use extending::extend;

mod acting;
mod arithmetic;
mod control;
mod extending;
#[cfg(test)]
mod tests;
