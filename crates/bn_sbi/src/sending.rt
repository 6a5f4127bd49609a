ghost use Rattle.std.specs.Prelude.{◌≡◌, ◌+◌, ◌<◌, ◌≤◌};
ghost use Rattle.bn_model.specs.Bits.{flag, is_set};
ghost use Rattle.bn_model.specs.Hypervisor.{are_harts, ask_of_ipi, is_below, is_hart_if_named};
ghost use Rattle.bn_model.specs.Hypervisor.{mask_of, names_hart};

use crate::errors::INVALID_PARAMETER;
use bn_types::SbiAsk;

/// The base that names all harts.
const ALL_HARTS: u64 = u64::MAX;

/// SEND_IPI: bit i of the mask names hart base + i.
pub fn send(harts: u8, mask: u64, base: u64) -> SbiAsk
    requires { harts ≤ 4 }
    ensures { result ≡ ask_of_ipi harts mask base }
{
    if base == ALL_HARTS {
        return SbiAsk::Ipi {
            harts: all_harts(harts),
        };
    }
    if !are_all_harts(harts, mask, base) {
        return SbiAsk::Refuse {
            a0: INVALID_PARAMETER,
        };
    }
    SbiAsk::Ipi {
        harts: named_harts(mask, base),
    }
}

/// Whether each bit of the mask names a hart.
#[tactic(auto, unfolding(bn_model::specs::Hypervisor::are_harts))]
fn are_all_harts(harts: u8, mask: u64, base: u64) -> bool
    ensures { result ≡ are_harts harts mask base }
{
    (0..64).all(|i| is_hart_or_unnamed(harts, mask, base, i))
}

/// The sum doesn't wrap.
fn is_hart_or_unnamed(harts: u8, mask: u64, base: u64, i: u64) -> bool
    requires { i < 64 }
    ensures { result ≡ is_hart_if_named harts mask base i }
{
    !has_bit(mask, i) || base as u128 + (i as u128) < harts as u128
}

fn all_harts(harts: u8) -> u8
    ensures { result ≡ mask_of (is_below harts) }
{
    mask(0 < harts, 1 < harts, 2 < harts, 3 < harts)
}

fn named_harts(bits: u64, base: u64) -> u8
    ensures { result ≡ mask_of (names_hart bits base) }
{
    mask(
        is_named(bits, base, 0),
        is_named(bits, base, 1),
        is_named(bits, base, 2),
        is_named(bits, base, 3),
    )
}

fn is_named(bits: u64, base: u64, hart: u64) -> bool
    requires { hart < 64 }
    ensures { result ≡ names_hart bits base hart }
{
    base <= hart && has_bit(bits, hart - base)
}

fn has_bit(bits: u64, place: u64) -> bool
    requires { place < 64 }
    ensures { result ≡ is_set bits place }
{
    (bits >> place) % 2 == 1
}

/// A mask of the harts 0 to 3.
fn mask(first: bool, second: bool, third: bool, fourth: bool) -> u8
    ensures { result ≡ flag 0 first + flag 1 second + flag 2 third + flag 3 fourth }
{
    first as u8 + 2 * (second as u8) + 4 * (third as u8) + 8 * (fourth as u8)
}
