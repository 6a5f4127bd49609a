ghost use Rattle.std.specs.Prelude.{◌≡◌};

use crate::engine::Engine;
use bn_store::Store;
use std::marker::Model;

mod blanking;
mod booting;
mod devices;
mod digesting;
mod running;
mod turning;

/// The machine that a guest runs on. The state for which it stands is sound at all times.
#[derive(Drop)]
pub struct Machine {
    engine: Engine,
}

impl Model for Machine {
    ghost use Rattle.bn_model.specs.Soundness.{IsSound};
    ghost use Rattle.bn_machine.specs.Standing.{Standing};

    ghost Value = { Standing };

    ghost view = { λ m. m.engine };

    ghost invariant = { λ m. IsSound m.engine.state };
}

impl Machine {
    /// Whether the guest has shut the machine down.
    pub fn is_off(&self) -> bool
        ensures { result ≡ self.now.state.off }
    {
        self.engine.is_off()
    }

    /// The words that modules keep beyond their lives.
    pub fn store(&self) -> &Store
        ensures { result.now ≡ self.now.state.records }
    {
        self.engine.stored_words()
    }

    /// How many events were made.
    pub fn clock(&self) -> u64
        ensures { result ≡ self.now.state.clock }
    {
        self.engine.clock()
    }
}
