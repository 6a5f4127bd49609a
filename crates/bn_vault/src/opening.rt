ghost use Rattle.std.specs.Prelude.{◌≡◌, true, false, [], bytes_eq, Err, IfOk, IfErr, OnErr};
ghost use Rattle.bn_model.specs.Reopening.{no_digest};
ghost use Rattle.bn_model.specs.StoredImages.{Stored, stored};
ghost use Rattle.bn_vault.specs.Openings.{IsCurrentIn, IsOpened, IsRefused, IsUnread, IsVerdict};

use crate::hashing::digest_of;
use crate::{Held, ReopenFault, Reopened};
use bn_edge::Area;
use bn_store::{ImageError, Store};
use bn_types::Digest;
use std::alloc::Global;

/// Opens what was read of register and areas.
#[tactic(auto, unfolding(bn_model::specs::Reopening::opens))]
pub fn open_areas(
    alloc: Global,
    register: &[u8; 32],
    first: &[u8],
    second: &[u8],
) -> Result<Reopened, ReopenFault>
    ensures opened { IfOk result (λ r. IsOpened r.fresh r.store r.held.current
        (record { first = first.now; second = second.now }) register.now) }
    ensures refused { IfErr result (λ fault. IsRefused fault
        (record { first = first.now; second = second.now }) register.now) }
    ensures current { IfOk result (λ r. IsCurrentIn r.held.current
        (record { first = first.now; second = second.now }) register.now) }
    ensures usable { IfOk result (λ r. r.held.spent ≡ false) }
    ensures no_fault { IfErr result IsVerdict }
{
    if is_fresh(register) {
        return open_fresh(alloc);
    }
    let first_digest = digest_of(first);
    if first_digest == *register {
        return open_image(alloc, first, Area::First);
    }
    let second_digest = digest_of(second);
    if second_digest == *register {
        return open_image(alloc, second, Area::Second);
    }
    Err(ReopenFault::Mismatch {
        register: Digest(*register),
        first: Digest(first_digest),
        second: Digest(second_digest),
    })
}

#[tactic(auto, unfolding(bn_model::specs::Reopening::no_digest))]
fn is_fresh(register: &[u8; 32]) -> bool
    ensures { result ≡ bytes_eq register.now no_digest }
{
    *register == [0; 32]
}

fn open_fresh(alloc: Global) -> Result<Reopened, ReopenFault>
    ensures ok { IfOk result (λ r. (r.fresh ≡ true) × (r.store ≡ [])
        × (r.held ≡ record { current = Area.Second; spent = false })) }
    ensures err { OnErr result (result ≡ Err ReopenFault.Memory) }
{
    match Store::empty(alloc) {
        Ok(store) => Ok(Reopened {
            store,
            fresh: true,
            held: Held::of(Area::Second),
        }),
        Err(_) => Err(ReopenFault::Memory),
    }
}

fn open_image(alloc: Global, text: &[u8], area: Area) -> Result<Reopened, ReopenFault>
    ensures ok { IfOk result (λ r. (r.fresh ≡ false) × (stored text.now ≡ Stored r.store)
        × (r.held ≡ record { current = area; spent = false })) }
    ensures err { IfErr result (IsUnread text.now) }
{
    match Store::from_image(alloc, text) {
        Ok(store) => Ok(Reopened {
            store,
            fresh: false,
            held: Held::of(area),
        }),
        Err(ImageError::Malformed { at }) => Err(ReopenFault::Malformed { at }),
        Err(ImageError::Memory) => Err(ReopenFault::Memory),
    }
}
