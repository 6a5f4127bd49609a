//! A generated load: from a number, an image and a script that try the secure machine. The image
//! has a kernel with its trap handler, and eight modules, which the kernel launches and then calls
//! by turns; the script interrupts them by keys and devices. A tally counts the lines of the run,
//! and writes its summary.
#![tactic(auto)]

pub use made::Made;
pub use making::make;
pub use tally::Tally;

mod bytes;
mod kernel;
mod kinds;
mod listing;
mod made;
mod making;
mod modules;
mod script;
mod stream;
mod summary;
mod tally;
#[cfg(test)]
mod tests;
mod text;
