//! The secrets of a module, zeroed.
ghost use Rattle.std.specs.Prelude.{◌≡◌};
ghost use Rattle.bn_model.specs.Blanking as flat;
ghost use Rattle.bn_model.specs.Running.{blind_at, state_before};
ghost use Rattle.bn_machine.specs.Standing.{IsMachine};

use crate::machine::Machine;
use bn_types::{ModId, Steps};
use std::sync::ledger::Ledger;

impl Machine {
    /// Zeroes the bytes of a module's private pages and its saved registers, where it is live and
    /// no hart runs it; otherwise it does nothing. The module's saved pc and mode, the frame that
    /// its caller comes back to, and the pages that it offers or accepts stay. Each page that is
    /// zeroed costs three steps.
    pub fn blank<L: Ledger>(&mut self, id: ModId, steps: &mut Steps<L>)
        ensures blanked { self.new.state ≡ flat.blank id.0 self.old.state }
        ensures stands { IsMachine self.new }
    {
        self.engine.blank(id, steps);
        // For the prover: the parts stand for a state of the flat machine.
        self.engine.stand();
    }

    /// Zeroes the module's secrets where the next event has this number.
    pub(super) fn blank_before_event<L: Ledger>(
        &mut self,
        blind: Option<(ModId, u64)>,
        steps: &mut Steps<L>,
    )
        ensures blanked { self.new.state ≡ state_before (blind_at blind) self.old.state }
    {
        if let Some((id, event)) = blind {
            if event == self.clock() {
                self.blank(id, steps);
            }
        }
    }
}
