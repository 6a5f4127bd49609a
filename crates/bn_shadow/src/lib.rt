//! The index of owned pages: which accesses the declarations of live modules admit.
#![tactic(auto)]

pub use shadow::Shadow;

mod counts;
mod dropping;
mod giving;
mod search;
mod shadow;
#[cfg(test)]
mod tests;
