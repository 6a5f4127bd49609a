//! The table of live modules: their rows, and the seat of each that runs.
#![tactic(auto)]

pub use evict_refused::EvictRefused;
pub use left::Left;
pub use seat::Seat;
pub use table::Table;

mod change;
mod evict_refused;
mod eviction;
mod left;
mod offers;
mod search;
mod seat;
mod table;
#[cfg(test)]
mod tests;
