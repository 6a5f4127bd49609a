ghost use Rattle.std.specs.Prelude.{◌≡◌, ◌≢◌, ◌++◌, ℕ, List, flat_map, length};
ghost use Rattle.bn_types.specs.Visible.{state_at};
ghost use Rattle.bn_types.specs.declared.page_state.PageState.TheVariants as page_state;
ghost use Rattle.sha2.specs.Hashers.{Holds256};
ghost use Rattle.bn_model.specs.Launching.{bytes_on, identity, measured_bytes, takes_owned};
ghost use Rattle.bn_launch.specs.Readable.{AreWhole, LieInRam};
ghost use Rattle.std.specs.List.{list_any};
ghost use Rattle.std.specs.Prelude.{false};

use crate::declaring::is_own_sort;
use crate::reading::read_words;
use bn_types::{Decl, Digest, Gpn, Pages, Steps};
use sha2::{Digest as Hash, Sha256};
use std::sync::ledger::Ledger;

/// The identity of a module: the digest of its text and of its own pages in the order of their
/// declarations.
#[tactic(auto, unfolding(bn_model::specs::Launching::identity))]
pub fn measure<P: Pages, L: Ledger>(
    pages: &P,
    text: &[u8],
    decls: &[Decl],
    steps: &mut Steps<L>,
) -> Digest
    requires whole { AreWhole (P.visible pages.now) }
    requires inside { LieInRam (P.visible pages.now) decls.now }
    requires theirs { list_any (takes_owned (P.visible pages.now)) decls.now ≡ false }
    ensures { result ≡ identity (P.visible pages.now) text.now decls.now }
{
    let mut hasher = Sha256::new();
    hasher.update(text);
    for decl in decls {
        add_page(pages, decl, &mut hasher, steps);
    }
    Digest(hasher.finalize())
}

#[tactic(auto, unfolding(bn_model::specs::Launching::measured_bytes, bn_model::specs::Launching::takes_owned))]
fn add_page<P: Pages, L: Ledger>(pages: &P, decl: &Decl, hasher: &mut Sha256, steps: &mut Steps<L>)
    requires whole { AreWhole (P.visible pages.now) }
    requires inside { state_at (P.visible pages.now) decl.now.gpn.0 ≢ page_state.Outside }
    requires theirs { takes_owned (P.visible pages.now) decl.now ≡ false }
    ensures { (text : List ℕ) → Holds256 hasher.old text → Holds256 hasher.new
        (text ++ measured_bytes (P.visible pages.now) decl.now) }
{
    if is_own_sort(decl.sort) {
        let mut bytes = [0; 4096];
        read_page(pages, decl.gpn, &mut bytes, steps);
        hasher.update(bytes.as_slice());
    }
}

/// Reads the whole of a page without owners.
#[tactic(auto, using(crate::proofs::WordTexts::whole_page))]
fn read_page<P: Pages, L: Ledger>(pages: &P, page: Gpn, bytes: &mut [u8], steps: &mut Steps<L>)
    requires free { state_at (P.visible pages.now) page.0 ≡ page_state.Free }
    requires whole { AreWhole (P.visible pages.now) }
    requires size { length bytes.old ≡ 4096 }
    ensures { bytes.new ≡ bytes_on (P.visible pages.now) page.0 }
{
    read_words(pages, page, 0, bytes, steps);
}
