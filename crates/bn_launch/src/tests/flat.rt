ghost use Rattle.std.specs.Prelude.{◌≡◌, ◌+◌, ◌≤◌, length};
ghost use Rattle.bn_types.specs.Numbers.{number_at};
ghost use Rattle.bn_types.specs.declared.width.Width.TheVariants.{B8};
ghost use Rattle.bn_model.specs.SegmentLaws.{AreBytes};
ghost use Rattle.bn_launch.specs.Readable.{AreWhole, IsWholePage};

use bn_types::{Gpn, PageState, Pages, Steps};
use std::sync::ledger::Ledger;

/// Pages with their bytes, None where a module owns one.
#[derive(Clone, Copy)]
pub struct Flat<'a> {
    pub pages: &'a [Option<[u8; 4096]>],
}

impl Pages for Flat<'_> {
    ghost use Rattle.std.specs.Prelude.{ℕ, List, Option};

    ghost visible = { λ flat. flat.pages.now };

    fn state(&self, page: Gpn) -> PageState {
        match self.pages.get(page.0 as usize) {
            None => PageState::Outside,
            Some(None) => PageState::Owned,
            Some(Some(_)) => PageState::Free,
        }
    }

    fn word<L: Ledger>(&self, page: Gpn, offset: u16, steps: &mut Steps<L>) -> Option<u64> {
        match self.pages.get(page.0 as usize) {
            None | Some(None) => None,
            Some(Some(bytes)) => {
                steps.tick();
                steps.tick();
                steps.tick();
                steps.tick();
                Some(word_in(bytes, offset as usize))
            }
        }
    }
}

/// What holds of every list of pages. It does nothing.
pub fn read_all(pages: &[Option<[u8; 4096]>])
    ensures { AreWhole pages.now }
{
    for page in pages {
        read_page(*page);
    }
}

fn read_page(page: Option<[u8; 4096]>)
    ensures { IsWholePage page }
{
    match page {
        Some(bytes) => read_bytes(&bytes),
        None => {}
    }
}

fn read_bytes(bytes: &[u8; 4096])
    ensures size { length bytes.now ≡ 4096 }
    ensures bytes { AreBytes bytes.now }
{
    // For the prover: a slice that is read has as many bytes as its type says.
    let _bytes = bytes.as_slice();
}

/// The 8-byte word at the offset.
#[tactic(auto, unfolding(bn_types::specs::Numbers::number_at))]
fn word_in(page: &[u8], offset: usize) -> u64
    requires { offset + 8 ≤ length page.now }
    ensures { result ≡ number_at B8 page.now offset }
{
    let mut word = [0; 8];
    word.copy_from_slice(&page[offset..offset + 8]);
    u64::from_le_bytes(word)
}
