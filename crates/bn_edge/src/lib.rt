//! The outside as traits, in memory and over the host's words, files and standard output.
#![tactic(auto)]

pub use area::Area;
pub use area_fault::AreaFault;
pub use chip::Chip;
pub use chip_failed::ChipFailed;
pub use desk::Desk;
pub use desk_fault::DeskFault;
pub use file_chip::FileChip;
pub use file_desk::FileDesk;
pub use file_vault::FileVault;
pub use gathering::gather_words;
pub use host_words::HostWords;
pub use mem_chip::MemChip;
pub use mem_desk::MemDesk;
pub use mem_sink::MemSink;
pub use mem_vault::MemVault;
pub use mem_words::MemWords;
pub use out_sink::OutSink;
pub use sink::Sink;
pub use sink_failed::SinkFailed;
pub use vault::Vault;
pub use vault_failed::VaultFailed;
pub use word_fault::WordFault;
pub use words::Words;
pub use writing::write_all;

mod area;
mod area_fault;
mod chip;
mod chip_failed;
mod counted;
mod desk;
mod desk_fault;
mod file_chip;
mod file_desk;
mod file_vault;
mod folder;
mod gathering;
mod host_words;
mod listed;
mod mem_chip;
mod mem_desk;
mod mem_sink;
mod mem_vault;
mod mem_words;
mod out_sink;
mod sink;
mod sink_failed;
mod span;
mod standing;
#[cfg(test)]
mod tests;
mod vault;
mod vault_failed;
mod word_fault;
mod words;
mod writing;
