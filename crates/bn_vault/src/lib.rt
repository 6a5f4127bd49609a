//! A store in the two areas of a vault under a chip's register, which a crash at any moment of a
//! commit leaves as it was before or after.
#![tactic(auto)]

pub use commit_fault::CommitFault;
pub use held::Held;
pub use reopen_fault::ReopenFault;
pub use reopened::Reopened;
pub use reopening::reopen;

mod commit_fault;
mod committing;
mod hashing;
mod held;
mod opening;
mod putting;
mod read_fault;
mod reopen_fault;
mod reopened;
mod reopening;
#[cfg(test)]
mod tests;
