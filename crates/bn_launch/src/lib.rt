//! The judgement of a launch: the module that a segment text makes, or the first test that it
//! fails.
#![tactic(auto)]

pub use bn_types::LaunchRefused;
pub use code::code_of;
pub use judging::judge;

mod code;
mod declaring;
mod judging;
mod measuring;
mod reading;
mod sourcing;
#[cfg(test)]
mod tests;
