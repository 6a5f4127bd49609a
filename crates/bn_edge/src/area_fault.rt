/// Why a vault gave no area.
#[derive(Clone, Copy, Debug, PartialEq, Eq)]
pub enum AreaFault {
    /// The area can't be read.
    Failed,
    /// Memory ran out.
    Memory,
}
