use bn_loader::Loaded;
use bn_script::Script;

/// What a run's files come to.
#[derive(Debug, Drop)]
pub struct Inputs {
    /// All bytes of RAM, and where hart 0 starts.
    pub image: Loaded,
    /// The events.
    pub script: Script,
}
