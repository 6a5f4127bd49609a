//! The flat machine: what the emulator is proved to do, as definitions that anyone can read, in
//! specs/, and the laws of these definitions, in `laws`.
#![tactic(auto)]

pub use command::Command;
pub use head::Head;
pub use owner::Owner;
pub use place::Place;
pub use wires::Wires;

mod command;
mod head;
pub mod laws;
mod owner;
mod place;
mod wires;
