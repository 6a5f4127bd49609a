//! The machine: what a guest sees of it, event by event, and runs of events.
#![tactic(auto)]

pub use bn_trace::LineBuf;
pub use bn_types::Ending;
pub use machine::Machine;
pub use settings::Settings;

mod engine;
mod hart;
mod machine;
mod settings;
#[cfg(test)]
mod tests;
