ghost use Rattle.std.specs.Prelude.{◌≡◌, ◌<◌, [], false, length};
ghost use Rattle.bn_model.specs.Nesting.{contents};
ghost use Rattle.bn_machine.specs.Standing.{IsMachine};
ghost use Rattle.bn_model.specs.State.{hart_at, memory};
ghost use Rattle.bn_unit.specs.Memory.{memory_of};

use crate::hart::Hart;
use arrayvec::ArrayVec;
use bn_store::Store;
use bn_table::Table;
use bn_types::ModId;
use bn_unit::Unit;
use std::marker::Model;

mod blanking;
mod calling;
mod carrying;
mod devices;
mod evicting;
mod launching;
mod making;
mod offering;
mod reaching;
mod secure;
mod storing;
mod switching;
mod turning;

/// The parts of a machine: memory, live modules, harts, keys, stored words and the clock, and how
/// events are made over them.
#[derive(Drop)]
pub(crate) struct Engine {
    unit: Unit,
    table: Table,
    harts: Vec<Hart>,
    /// The keys that wait, the oldest one first.
    keys: ArrayVec<u8, 256>,
    /// The words that modules keep beyond their lives.
    store: Store,
    clock: u64,
    off: bool,
}

impl Model for Engine {
    ghost use Rattle.bn_machine.specs.Standing.{HasParts, Standing, standing};

    ghost Value = { Standing };

    ghost view = { λ e. standing (record {
      nest = e.unit.nest;
      harts = e.harts.items;
      rows = e.table.rows;
      records = e.store;
      keys = e.keys.items;
      next = e.table.next;
      clock = e.clock;
      off = e.off;
    }) e.unit.cache };

    ghost invariant = { λ e. HasParts e.unit e.table.rows e.harts.items };
}

impl Engine {
    /// The parts of a machine that has made no event and launched no module.
    #[tactic(auto, unfolding(bn_model::specs::Rows::owners))]
    pub(crate) fn of(unit: Unit, harts: Vec<Hart>, store: Store) -> Engine
        requires some { 0 < length harts.items }
        requires unowned { unit.live ≡ [] }
        requires held { unit.cache.harts ≡ length harts.items }
        ensures nest { result.parts.nest ≡ unit.nest }
        ensures state { result.state ≡ record {
          pages = contents unit.nest;
          harts = harts.items;
          rows = [];
          records = store;
          keys = [];
          next = 1;
          clock = 0;
          off = false;
        } }
    {
        // For the prover: what holds of every unit.
        unit.facts();
        Engine {
            unit,
            table: Table::empty(),
            harts,
            keys: ArrayVec::new(),
            store,
            clock: 0,
            off: false,
        }
    }

    /// Whether the guest has shut the machine down.
    pub(crate) fn is_off(&self) -> bool
        ensures { result ≡ self.now.state.off }
    {
        self.off
    }

    /// How many events were made.
    pub(crate) fn clock(&self) -> u64
        ensures { result ≡ self.now.state.clock }
    {
        self.clock
    }

    /// The words that modules keep beyond their lives.
    pub(crate) fn stored_words(&self) -> &Store
        ensures { result.now ≡ self.now.state.records }
    {
        &self.store
    }

    /// The guest's memory.
    pub(crate) fn unit(&self) -> &Unit
        ensures { memory_of result.now ≡ memory self.now.state }
    {
        &self.unit
    }

    /// The parts stand for a state of the flat machine at all times, each translation that is held
    /// is right, and there is a hart. It does nothing.
    pub(crate) fn stand(&self)
        ensures stands { IsMachine self.now }
        ensures some { 0 < length self.now.state.harts }
    {
        // For the prover: what holds of every unit.
        self.unit.facts();
    }

    /// The address of hart h's next instruction.
    fn pc(&self, h: u8) -> u64
        requires { h < length self.now.state.harts }
        ensures { result ≡ (hart_at self.now.state h).pc }
    {
        self.harts[h as usize].pc()
    }

    /// The module that hart h runs, 0 for the untrusted world.
    fn current(&self, h: u8) -> ModId
        requires { h < length self.now.state.harts }
        ensures { result ≡ (hart_at self.now.state h).current }
    {
        self.harts[h as usize].current()
    }
}
