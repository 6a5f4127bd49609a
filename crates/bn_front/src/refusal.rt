//! Why a run doesn't begin.
ghost use Rattle.std.specs.Prelude.{◌≡◌};
ghost use Rattle.bn_front.specs.Reading.{refusal_of};

use crate::named_file::NamedFile;
use bn_edge::DeskFault;
use bn_types::{ImageFault, ScriptFault};

/// What refuses a run before its first event.
#[derive(Clone, Copy, Debug, PartialEq, Eq)]
pub enum Refusal {
    /// The file isn't there.
    Missing(NamedFile),
    /// Reading the file failed.
    Failed(NamedFile),
    /// The image is faulty.
    Image(ImageFault),
    /// The script is faulty.
    Script(ScriptFault),
    /// There is no memory for the files.
    Memory,
}

impl Refusal {
    /// Why a named file wasn't read.
    pub fn of_file(file: NamedFile, fault: DeskFault) -> Refusal
        ensures { result ≡ refusal_of file fault }
    {
        match fault {
            DeskFault::Missing => Refusal::Missing(file),
            DeskFault::Failed => Refusal::Failed(file),
            DeskFault::Memory => Refusal::Memory,
        }
    }
}
