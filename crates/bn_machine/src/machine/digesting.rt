//! The digest of guest memory.
ghost use Rattle.std.specs.Prelude.{◌≡◌, ◌+◌, ◌*◌, ◌++◌, ℕ, List, count_by, flat_map, is_some};
ghost use Rattle.std.specs.Prelude.{length, slice_index_or, None};
ghost use Rattle.bn_model.specs.Memory.{visible};
ghost use Rattle.bn_model.specs.Reporting as flat;
ghost use Rattle.bn_model.specs.Reporting.{bytes_if_free};
ghost use Rattle.bn_model.specs.State.{memory};
ghost use Rattle.bn_unit.specs.Memory.{memory_seen, words_if};
ghost use Rattle.sha2.specs.Hashers.{Holds256};
ghost use Rattle.sha2.specs.Sha256.{sha256};

use crate::machine::Machine;
use bn_types::{Digest, Gpn, Steps};
use bn_unit::View;
use sha2::{Digest as Hash, Sha256};
use std::sync::ledger::Ledger;

impl Machine {
    /// SHA-256 (FIPS 180-4) of the contents of all guest pages that no module owns, in ascending
    /// order. Each of them costs three steps.
    #[tactic(auto, unfolding(bn_model::specs::Reporting::public_digest))]
    pub fn public_digest<L: Ledger>(&self, steps: &mut Steps<L>) -> Digest
        ensures digest { result ≡ flat.public_digest self.now.state }
        ensures read { steps.new
            ≡ steps.old + 3 * count_by is_some (visible (memory self.now.state)) }
    {
        let unit = self.engine.unit();
        Digest(digest_pages(&unit.view(), unit.ram_pages(), steps))
    }
}

fn digest_pages<L: Ledger>(pages: &View<'_>, count: u32, steps: &mut Steps<L>) -> [u8; 32]
    requires { length (visible (memory_seen pages.now)) ≡ count }
    ensures digest { result ≡ sha256 (flat_map bytes_if_free (visible (memory_seen pages.now))) }
    ensures read { steps.new ≡ steps.old + 3 * count_by is_some (visible (memory_seen pages.now)) }
{
    let mut hasher = Sha256::new();
    for page in 0..count {
        add_page(pages, Gpn(page), &mut hasher, steps);
    }
    hasher.finalize()
}

/// Adds a page where no module owns it.
fn add_page<L: Ledger>(pages: &View<'_>, page: Gpn, hasher: &mut Sha256, steps: &mut Steps<L>)
    ensures added { (text : List ℕ) → Holds256 hasher.old text → Holds256 hasher.new
        (text ++ bytes_if_free (slice_index_or (visible (memory_seen pages.now)) page.0 None)) }
    ensures read { steps.new ≡ steps.old + words_if
        (is_some (slice_index_or (visible (memory_seen pages.now)) page.0 None)) }
{
    let mut bytes = [0; 4096];
    if pages.read_page(page, &mut bytes, steps) {
        hasher.update(bytes.as_slice());
    }
}
