//! The secrets of a module, zeroed.
ghost use Rattle.std.specs.Prelude.{◌≡◌, true};
ghost use Rattle.std.specs.List.{list_any};
ghost use Rattle.bn_model.specs.Blanking as flat;
ghost use Rattle.bn_model.specs.Nesting.{IsNested, contents};
ghost use Rattle.bn_model.specs.Soundness.{IsSound};
ghost use Rattle.bn_machine.specs.Zeroing.{AreHeld, IsHeld, after_decl, zeroed_pages};

use crate::engine::Engine;
use crate::hart::Hart;
use bn_types::{Decl, ModId, Sort, Steps};
use bn_unit::Unit;
use std::sync::ledger::Ledger;

impl Engine {
    /// Zeroes the private pages and the saved registers of a module, where it is live and no hart
    /// runs it. Each of the pages costs three steps.
    pub(crate) fn blank<L: Ledger>(&mut self, id: ModId, steps: &mut Steps<L>)
        requires sound { IsSound self.old.state }
        ensures blanked { self.new.state ≡ flat.blank id.0 self.old.state }
    {
        if !is_run(&self.harts, id) {
            self.blank_resting(id, steps);
        }
    }

    fn blank_resting<L: Ledger>(&mut self, id: ModId, steps: &mut Steps<L>)
        requires sound { IsSound self.old.state }
        requires rests { flat.rests id.0 self.old.state ≡ true }
        ensures blanked { self.new.state ≡ flat.blank id.0 self.old.state }
    {
        // For the prover: what holds of every table and of every unit.
        self.table.facts();
        self.unit.facts();
        if let Some(row) = self.table.row(id) {
            blank_pages(&mut self.unit, &row.judged.decls, steps);
            self.table.blank(id);
        }
    }
}

/// Whether one of the harts runs the module.
fn is_run(harts: &[Hart], id: ModId) -> bool
    ensures { result ≡ list_any (flat.runs id.0) harts.now }
{
    harts.iter().any(|hart| hart.current() == id)
}

/// Zeroes the pages that the declarations make private.
fn blank_pages<L: Ledger>(unit: &mut Unit, decls: &[Decl], steps: &mut Steps<L>)
    requires held { AreHeld unit.old.nest.ram unit.old.live decls.now }
    ensures pages { contents unit.new.nest ≡ zeroed_pages decls.now (contents unit.old.nest) }
    ensures live { unit.new.live ≡ unit.old.live }
    ensures harts { unit.new.cache.harts ≡ unit.old.cache.harts }
    ensures nested { IsNested unit.new.nest }
    ensures ram { unit.new.nest.ram ≡ unit.old.nest.ram }
{
    // For the prover: what holds of every unit.
    unit.facts();
    for decl in decls {
        blank_if_private(unit, decl, steps);
    }
}

fn blank_if_private<L: Ledger>(unit: &mut Unit, decl: &Decl, steps: &mut Steps<L>)
    requires held { IsHeld unit.old.nest.ram unit.old.live decl.now }
    ensures pages { contents unit.new.nest ≡ after_decl decl.now (contents unit.old.nest) }
    ensures live { unit.new.live ≡ unit.old.live }
    ensures harts { unit.new.cache.harts ≡ unit.old.cache.harts }
    ensures nested { IsNested unit.new.nest }
    ensures ram { unit.new.nest.ram ≡ unit.old.nest.ram }
{
    match decl.sort {
        Sort::Private => unit.blank_page(decl.gpn, steps),
        // For the prover: what holds of every unit.
        Sort::Offer | Sort::Accept => unit.facts(),
    }
}
