ghost use Rattle.std.specs.Prelude.{◌≡◌, ◌+◌, ◌%◌, ◌<◌, ◌≤◌, ◌&&◌, length, nat_lt, not, replicate};
ghost use Rattle.std.specs.Prelude.{slice_index_or, None};
ghost use Rattle.std.specs.Prelude as prelude;
ghost use Rattle.bn_types.specs.Numbers.{page_at};
ghost use Rattle.bn_model.specs.Memory.{visible};
ghost use Rattle.bn_model.specs.Nesting.{contents, place};
ghost use Rattle.bn_model.specs.Owners.{is_owned};
ghost use Rattle.bn_unit.specs.Memory.{bytes_if, memory_seen, words_if};

use bn_shadow::Shadow;
use bn_types::{Frame, Gpn, PageState, Pages, Steps, Width};
use n_walk::Nest;
use std::marker::Model;
use std::sync::ledger::Ledger;

/// The guest's pages as the untrusted world reads them: those that no module owns.
#[derive(Drop)]
pub struct View<'a> {
    nest: &'a Nest,
    shadow: &'a Shadow,
}

impl<'a> Model for View<'a> {
    ghost use Rattle.bn_unit.specs.Memory.{Seen};

    ghost Value = { Seen };

    ghost view = { λ v. record { nest = v.nest.now; live = v.shadow.now.live } };
}

impl<'a> View<'a> {
    /// The view of a nest's pages, by their owners.
    pub(crate) fn of(nest: &'a Nest, shadow: &'a Shadow) -> View<'a>
        ensures { result ≡ record { nest = nest.now; live = shadow.now.live } }
    {
        View { nest, shadow }
    }

    /// Reads the whole page into 4,096 bytes where it is a page of RAM that no module owns, and
    /// tells whether it is. Then it costs three steps, else none.
    #[tactic(auto, unfolding(bn_types::specs::Numbers::zero_page))]
    pub fn read_page<L: Ledger>(&self, page: Gpn, bytes: &mut [u8], steps: &mut Steps<L>) -> bool
        requires room { length bytes.old ≡ 4096 }
        ensures bytes { bytes_if result bytes.new ≡ slice_index_or
            (visible (memory_seen self.now)) page.0 None }
        ensures room { length bytes.new ≡ 4096 }
        ensures read { steps.new ≡ steps.old + words_if result }
    {
        if !self.is_free(page) {
            return false;
        }
        match self.nest.look(page, steps) {
            Some(frame) => read_frame(self.nest, frame, bytes),
            None => blank(bytes),
        }
        true
    }

    /// Whether it is a page of RAM that no module owns.
    pub(crate) fn is_free(&self, page: Gpn) -> bool
        ensures { result
            ≡ (nat_lt page.0 self.now.nest.ram && not (is_owned self.now.live page.0)) }
    {
        page.0 < self.nest.ram_pages() && !self.shadow.owned(page)
    }
}

impl Pages for View<'_> {
    ghost use Rattle.bn_model.specs.Memory.{visible as seen};
    ghost use Rattle.bn_unit.specs.Memory.{memory_seen};

    ghost visible = { λ v. seen (memory_seen v) };

    fn state(&self, page: Gpn) -> PageState {
        if page.0 >= self.nest.ram_pages() {
            PageState::Outside
        } else if self.shadow.owned(page) {
            PageState::Owned
        } else {
            PageState::Free
        }
    }

    fn word<L: Ledger>(&self, page: Gpn, offset: u16, steps: &mut Steps<L>) -> Option<u64> {
        // For the prover: what holds of every nest of tables.
        self.nest.facts();
        if !self.is_free(page) {
            return None;
        }
        let frame = self.nest.look(page, steps);
        steps.tick();
        Some(match frame {
            Some(frame) => self.nest.load(frame, offset, Width::B8),
            None => 0,
        })
    }
}

/// Reads the whole frame of a page.
fn read_frame(nest: &Nest, frame: Frame, bytes: &mut [u8])
    requires placed { (page : prelude.ℕ) × (place nest.now page ≡ prelude.Some frame) }
    requires room { length bytes.old ≡ 4096 }
    ensures { (page : prelude.ℕ) → place nest.now page ≡ prelude.Some frame → bytes.new ≡ page_at
        (contents nest.now) page }
{
    // For the prover: what holds of every nest of tables.
    nest.facts();
    for offset in 0..4096u16 {
        bytes[offset as usize] = nest.load(frame, offset, Width::B1) as u8;
    }
}

/// Makes all bytes 0.
fn blank(bytes: &mut [u8])
    ensures { bytes.new ≡ replicate (length bytes.old) 0 }
{
    for byte in bytes.iter_mut() {
        *byte = 0;
    }
}
