//! The memory unit: fetches, loads and stores of the guest by both stages of translation, over
//! nested tables that lie in the machine's frames.
#![tactic(auto)]

pub use bn_tlb::Key;
pub use bn_types::Asker;
pub use unit::Unit;
pub use view::View;

mod judging;
mod spot;
#[cfg(test)]
mod tests;
mod unit;
mod view;
