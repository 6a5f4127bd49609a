//! Pages of modules, zeroed.
ghost use Rattle.std.specs.Prelude.{◌≡◌, ◌+◌, ◌<◌, slice_set, true};
ghost use Rattle.bn_types.specs.Numbers.{zero_page};
ghost use Rattle.bn_model.specs.Nesting.{IsNested, contents};
ghost use Rattle.bn_model.specs.Owners.{is_owned};

use crate::Unit;
use bn_types::{Gpn, Steps};
use std::sync::ledger::Ledger;

impl Unit {
    /// Zeroes a page of RAM that a live module declares, at a cost of three steps. The modules stay
    /// as they are.
    pub fn blank_page<L: Ledger>(&mut self, page: Gpn, steps: &mut Steps<L>)
        requires inside { page.0 < self.old.nest.ram }
        requires owned { is_owned self.old.live page.0 ≡ true }
        ensures pages { contents self.new.nest
            ≡ slice_set (contents self.old.nest) page.0 zero_page }
        ensures live { self.new.live ≡ self.old.live }
        ensures cache { self.new.cache ≡ self.old.cache }
        ensures nested { IsNested self.new.nest }
        ensures ram { self.new.nest.ram ≡ self.old.nest.ram }
        ensures read { steps.new ≡ steps.old + 3 }
    {
        self.zero_page(page, steps);
    }
}
