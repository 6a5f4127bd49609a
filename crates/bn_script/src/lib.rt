//! Scripts: texts that order the events of a run.
#![tactic(auto)]

pub use bn_types::{ScriptFault, ScriptSort};
pub use reading::read;
pub use script::Script;
pub use script_error::ScriptError;

mod commands;
mod fields;
mod reading;
mod script;
mod script_error;
#[cfg(test)]
mod tests;
