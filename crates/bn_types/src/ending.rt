/// Why a run of events stopped.
#[derive(Clone, Copy, Debug, PartialEq, Eq)]
pub enum Ending {
    /// An event shut the machine down.
    Shutdown,
    /// The limit's events were made without shutdown.
    Limit,
}
