ghost use Rattle.std.specs.Prelude.{◌≡◌};
ghost use Rattle.std.specs.List.{list_any};
ghost use Rattle.bn_tlb.specs.Caching.{is_page, is_walked, leads_to};
ghost use Rattle.bn_tlb.specs.Sweeping.{leaves};

use crate::slot::Slot;
use bn_types::{Gpn, ModId};

/// Which translations leave.
#[derive(Drop)]
pub enum Leaving {
    /// Those whose walk read the page.
    Walked(Gpn),
    /// Those and the ones that lead to the page.
    Reaching(Gpn),
    /// Those of the module.
    Module(ModId),
}

/// Whether the translation leaves.
pub fn is_leaving(slot: &Slot, leaving: &Leaving) -> bool
    ensures { result ≡ leaves leaving.now slot.now }
{
    match leaving {
        Leaving::Walked(page) => is_walked_through(slot, *page),
        Leaving::Reaching(page) => is_leading(slot, *page) || is_walked_through(slot, *page),
        Leaving::Module(id) => slot.key.module.0 == id.0,
    }
}

fn is_leading(slot: &Slot, page: Gpn) -> bool
    ensures { result ≡ leads_to page.0 slot.now }
{
    slot.entry.page.0 == page.0
}

fn is_walked_through(slot: &Slot, page: Gpn) -> bool
    ensures { result ≡ is_walked page.0 slot.now }
{
    is_among(&slot.entry.tables, page)
}

fn is_among(tables: &[Gpn], page: Gpn) -> bool
    ensures { result ≡ list_any (is_page page.0) tables.now }
{
    tables.iter().any(|table| table.0 == page.0)
}
