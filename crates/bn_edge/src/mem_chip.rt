ghost use Rattle.std.specs.Prelude.{◌≡◌, ℕ, ◌+◌, ◌-◌, ◌^◌, ◌<◌, ◌≤◌, ◌↔◌, Some, IfOk, IsErr, OnOk};
ghost use Rattle.std.specs.Prelude.{OnErr, Contains};
ghost use Rattle.bn_edge.specs.Counts.{CanCount, CountsRefusals};
ghost use Rattle.bn_edge.specs.InMemory.{ChipContents};
ghost use Rattle.bn_edge.specs.Registers.{GivesRegister, replaced, IsOldOrNew};

use crate::counted::counted;
use crate::listed::is_listed;
use crate::{Chip, ChipFailed};
use std::marker::Model;

/// A chip in memory. It tells its register.
#[derive(Debug, Drop)]
pub struct MemChip {
    register: [u8; 32],
    fails: Vec<u64>,
    calls: u64,
    faults: u64,
}

impl Model for MemChip {
    ghost Value = { ChipContents };

    ghost view = { λ c. record {
      register = c.register;
      fails = c.fails.items;
      calls = c.calls;
      faults = c.faults;
    } };
}

impl MemChip {
    /// A chip with this register. The calls whose numbers, counted from 1, stand in `fails` fail.
    pub fn of(register: [u8; 32], fails: Vec<u64>) -> MemChip
        ensures { result ≡
            record { register = register; fails = fails.items; calls = 0; faults = 0 } }
    {
        MemChip {
            register,
            fails,
            calls: 0,
            faults: 0,
        }
    }
}

impl Chip for MemChip {
    ghost account = { λ c. record { register = Some c.register; faults = c.faults } };

    fn register(&mut self) -> Result<[u8; 32], ChipFailed>
        ensures gives { IfOk result (λ bytes. GivesRegister (Some self.old.register) bytes) }
        ensures kept { Some self.new.register ≡ Some self.old.register }
        ensures failed { CountsRefusals result self.old.faults self.new.faults }
        // It fails exactly at the listed calls.
        ensures listed { CanCount self.old.calls →
            (IsErr result ↔ Contains self.old.fails (self.old.calls + 1)) }
        ensures counted { CanCount self.old.calls → self.new.calls ≡ self.old.calls + 1 }
        ensures once { CanCount self.old.faults → self.new.faults ≤ self.old.faults + 1 }
        ensures lasting { self.new.fails ≡ self.old.fails }
    {
        self.calls = counted(self.calls);
        if is_listed(&self.fails, self.calls) {
            self.faults = counted(self.faults);
            return Err(ChipFailed);
        }
        Ok(self.register)
    }

    fn set_register(&mut self, value: &[u8; 32]) -> Result<(), ChipFailed>
        ensures ok { OnOk result
            (Some self.new.register ≡ replaced (Some self.old.register) value.now) }
        ensures err { OnErr result
            (IsOldOrNew (Some self.old.register) value.now (Some self.new.register)) }
        ensures failed { CountsRefusals result self.old.faults self.new.faults }
        // It fails exactly at the listed calls, and then it sets nothing.
        ensures listed { CanCount self.old.calls →
            (IsErr result ↔ Contains self.old.fails (self.old.calls + 1)) }
        ensures stays { OnErr result (self.new.register ≡ self.old.register) }
        ensures counted { CanCount self.old.calls → self.new.calls ≡ self.old.calls + 1 }
        ensures once { CanCount self.old.faults → self.new.faults ≤ self.old.faults + 1 }
        ensures lasting { self.new.fails ≡ self.old.fails }
    {
        self.calls = counted(self.calls);
        if is_listed(&self.fails, self.calls) {
            self.faults = counted(self.faults);
            return Err(ChipFailed);
        }
        self.register = *value;
        Ok(())
    }
}
