/// Why a call into a module is refused. The first that holds is told.
#[derive(Clone, Copy, Debug, PartialEq, Eq)]
pub enum CallRefused {
    /// No live module has the id.
    NoModule,
    /// The address is none of the module's entries.
    NotEntry,
    /// The caller isn't in the module's mode.
    ModeDiffers,
    /// The module runs, waits or is stopped.
    Busy,
}
