//! Calls into modules and their returns, stops and resumptions: what of a hart goes into the table
//! of modules, and what comes out.
#![tactic(auto)]

pub use call_refused::CallRefused;
pub use calling::call;
pub use code::code_of;
pub use context::Context;
pub use resuming::resume;
pub use returning::ret;
pub use stopping::stop;

mod call_refused;
mod calling;
mod code;
mod context;
mod entering;
mod registers;
mod resuming;
mod returning;
mod stopping;
#[cfg(test)]
mod tests;
