//! Devices' access to memory.
ghost use Rattle.std.specs.Prelude.{◌≡◌, ◌+◌, ◌<◌, ◌≤◌};
ghost use Rattle.bn_machine.specs.Standing.{IsMachine};
ghost use Rattle.bn_model.specs.Stepping.{seen_page};
ghost use Rattle.bn_machine.specs.Making.{after_write};
ghost use Rattle.bn_unit.specs.Memory.{byte_seen, is_seen};

use crate::machine::Machine;
use bn_types::{Gpn, Steps};
use std::sync::ledger::Ledger;

impl Machine {
    /// Reads the byte at the offset, below 4,096, of a page of RAM that no live module owns. None
    /// where it is no such page. It makes no event.
    pub fn device_read<L: Ledger>(&self, page: Gpn, offset: u16, steps: &mut Steps<L>) -> Option<u8>
        requires { offset < 4096 }
        ensures byte { result ≡ byte_seen (seen_page self.now.state page) offset }
        ensures few { steps.new ≤ steps.old + 3 }
    {
        self.engine.unit().peek(page, offset, steps)
    }

    /// Writes the byte at the offset, below 4,096, of a page of RAM that no live module owns, and
    /// tells whether it is such a page; otherwise it does nothing. It makes no event.
    pub fn device_write<L: Ledger>(
        &mut self,
        page: Gpn,
        offset: u16,
        byte: u8,
        steps: &mut Steps<L>,
    ) -> bool
        requires { offset < 4096 }
        ensures seen { result ≡ is_seen (seen_page self.old.state page) }
        ensures written { self.new.state ≡ after_write self.old.state page offset byte }
        ensures stands { IsMachine self.new }
        ensures few { steps.new ≤ steps.old + 3 }
    {
        let reached = self.engine.write_byte(page, offset, byte, steps);
        // For the prover: the parts stand for a state of the flat machine.
        self.engine.stand();
        reached
    }
}
