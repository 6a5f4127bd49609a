/// How a finished run ended.
#[derive(Clone, Copy, Debug, PartialEq, Eq)]
pub enum Finish {
    /// The guest shut the machine down.
    Shutdown,
    /// The limit's events were made without shutdown.
    Limit,
}
