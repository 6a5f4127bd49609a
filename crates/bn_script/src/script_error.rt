use bn_types::ScriptFault;
use thiserror::Error;

/// Why a script isn't read.
#[derive(Debug, Drop, Error)]
pub enum ScriptError {
    /// It is faulty.
    #[error("the script is faulty")]
    Fault(ScriptFault),
    /// There is no memory for it.
    #[error("out of memory")]
    Memory,
}
