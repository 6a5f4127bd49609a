use crate::Reg;

/// The instructions of opcode custom-0, which launch, call and serve enclave modules.
#[derive(Clone, Copy, Debug, PartialEq, Eq)]
pub enum Secure {
    /// Launches the module whose segment text is at the address in `at`.
    Launch { rd: Reg, at: Reg },
    /// Calls a module by its id at one of its entries.
    Call { rd: Reg, id: Reg, entry: Reg },
    /// Returns from a module to its caller.
    Ret,
    /// Removes a module.
    Evict { rd: Reg, id: Reg },
    /// Gives one of the four words of a module's identity.
    Ident { rd: Reg, id: Reg, word: Reg },
    /// Gives the id of the running module's caller.
    Caller { rd: Reg },
    /// Gives the id of the module that offers the page accepted at an address.
    Offerer { rd: Reg, at: Reg },
    /// Reads a stored word of the running module's identity.
    Sget { rd: Reg, index: Reg },
    /// Sets a stored word of the running module's identity.
    Sset { rd: Reg, index: Reg, value: Reg },
}
