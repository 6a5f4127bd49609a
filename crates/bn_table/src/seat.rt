ghost use Rattle.std.specs.Prelude.{◌≡◌};

use bn_types::ModId;
use std::marker::Model;

/// The right to run as a module that is running. It is made by a call into the module or by its
/// resumption, and must be spent: by a call out of it, a return or a stop, or at the end of the
/// machine.
pub struct Seat {
    id: ModId,
}

impl Model for Seat {
    ghost use Rattle.bn_types.specs.declared.mod_id.ModId.{ModId};

    ghost Value = { ModId };

    ghost view = { λ s. s.id };
}

impl Seat {
    /// The module that runs.
    pub fn id(&self) -> ModId
        ensures { result ≡ self.now }
    {
        self.id
    }

    /// Spends the seat of a machine that is given up. No row changes.
    pub fn end(self) {
        let Seat { id: _ } = self;
    }

    pub(crate) fn of(id: ModId) -> Seat
        ensures { result ≡ id }
    {
        Seat { id }
    }

    pub(crate) fn spend(self) -> ModId
        ensures { result ≡ self }
    {
        let Seat { id } = self;
        id
    }
}
