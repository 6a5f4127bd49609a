/// Why a desk gave no file.
#[derive(Clone, Copy, Debug, PartialEq, Eq)]
pub enum DeskFault {
    /// No file has the name.
    Missing,
    /// The file can't be read.
    Failed,
    /// Memory ran out.
    Memory,
}
