ghost use Rattle.std.specs.Prelude.{◌≡◌};
ghost use Rattle.bn_types.specs.ExitCodes.{exit_code};

/// How a call of the program ends.
#[derive(Clone, Copy, Debug, PartialEq, Eq)]
pub enum Status {
    /// The guest shut the machine down.
    Ended,
    /// The words are no command line.
    Words,
    /// The limit's events were made without shutdown.
    Limit,
    /// A named file isn't there.
    NoFile,
    /// The image file is faulty.
    Image,
    /// The script file is faulty.
    Script,
    /// The stored areas don't open under the register.
    Store,
    /// Writing the output failed.
    SinkFault,
    /// Reading a named file failed.
    DeskFault,
    /// Reading or writing a stored area failed.
    VaultFault,
    /// Reading or setting the register failed.
    ChipFault,
    /// Memory ran out before the first event.
    Memory,
}

impl Status {
    /// The exit code of the program.
    pub fn code(self) -> u8
        ensures { result ≡ exit_code self }
    {
        match self {
            Status::Ended => 0,
            Status::Words => 2,
            Status::Limit => 3,
            Status::NoFile => 4,
            Status::Image => 5,
            Status::Script => 6,
            Status::Store => 7,
            Status::SinkFault => 8,
            Status::DeskFault => 9,
            Status::VaultFault => 10,
            Status::ChipFault => 11,
            Status::Memory => 71,
        }
    }
}
