ghost use Rattle.std.specs.Prelude.{◌≡◌, ℕ, ◌+◌, ◌%◌, ◌<◌, List, Option};
ghost use Rattle.bn_types.specs.Visible.{state_at, word_at, words_read};

use crate::{Gpn, PageState, Steps};
use std::sync::ledger::Ledger;

/// The guest pages as table walks see them.
pub trait Pages {
    /// What can be read of each page: its bytes, or None where a live module declares it.
    ghost visible: { Self → List (Option (List ℕ)) };

    /// What the page is.
    fn state(&self, page: Gpn) -> PageState
        ensures { result ≡ state_at (visible self.now) page.0 };

    /// The 8-byte word at the offset, a multiple of 8 below 4,096. None exactly where the page
    /// isn't free. A free page's word costs four steps, three for the nested tables and one for
    /// itself; else none.
    fn word<L: Ledger>(&self, page: Gpn, offset: u16, steps: &mut Steps<L>) -> Option<u64>
        requires aligned { offset % 8 ≡ 0 }
        requires inside { offset < 4096 }
        ensures word { result ≡ word_at (visible self.now) page.0 offset }
        ensures read { steps.new ≡ steps.old + words_read (state_at (visible self.now) page.0) };
}
