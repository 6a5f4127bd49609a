//! The program's front: the words of a command line, what they order, and the one call that reads
//! the files of a run, makes the run and writes its report.
#![tactic(auto)]

pub use order::Order;
pub use reading::read_words;
pub use run_order::RunOrder;
pub use top::bastion;
pub use words_error::WordsError;

mod command;
mod generated;
mod images;
mod inputs;
mod named_file;
mod number;
mod option_name;
mod order;
mod plain;
mod reading;
mod refusal;
mod refusing;
mod report;
mod run_order;
mod run_order_ref;
mod running;
mod scripts;
mod stored;
mod summary;
#[cfg(test)]
mod tests;
mod texts;
mod tool;
mod top;
mod unopened;
mod values;
mod words_error;
