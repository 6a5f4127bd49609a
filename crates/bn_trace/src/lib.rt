//! The lines of the trace: what the machine tells of its events, written and read.
#![tactic(auto)]

pub use bn_types::LineFault;
pub use line_buf::LineBuf;
pub use reading::read_line;

mod fields;
pub mod laws;
mod line_buf;
mod putting;
mod readers;
mod reading;
#[cfg(test)]
mod tests;
pub mod text;
mod values;
