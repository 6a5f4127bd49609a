ghost use Rattle.std.specs.Prelude.{◌≡◌, ◌≢◌, ℕ, ◌-◌, ◌^◌, ◌<◌, ◌≤◌, List, Some, Ok, Err, OnOk};
ghost use Rattle.std.specs.Prelude.{length};
ghost use Rattle.sha2.specs.Sha256.{sha256};
ghost use Rattle.bn_edge.specs.Areas.{Areas, area_room, other_area};
ghost use Rattle.bn_edge.specs.Crashes.{IsStable, LeavesOnly};
ghost use Rattle.bn_edge.specs.Registers.{replaced, IsOldOrNew};
ghost use Rattle.bn_model.specs.Reopening.{Holds, no_digest};
ghost use Rattle.bn_model.specs.StoredImages.{stored};
ghost use Rattle.bn_vault.specs.Committing.{HasNoTwins, committed};
ghost use Rattle.bn_vault.specs.Counting.{CountsVaultCommit, CountsChipCommit};
ghost use Rattle.bn_vault.specs.Openings.{IsCurrent, opening_of};

use crate::CommitFault;
use crate::hashing::digest_of;
use crate::putting::put;
use bn_edge::{Area, Chip, Vault};

/// Commits a text to the area that isn't current.
pub fn commit_text<V: Vault, C: Chip>(
    current: Area,
    text: &[u8],
    vault: &mut V,
    chip: &mut C,
) -> Result<(), CommitFault>
    requires room { length text.now ≤ area_room }
    requires current { IsCurrent current (V.account vault.old).areas (C.account chip.old).register }
    ensures any_moment { (a : Areas) (r : List ℕ) → IsStable (V.account vault.old) a →
        (C.account chip.old).register ≡ Some r → HasNoTwins a →
        LeavesOnly (V.account vault.old) (V.account vault.new)
        (λ c. HasNoTwins c → opening_of c r ≡ opening_of a r) }
    ensures stable { result ≢ Err CommitFault.Vault → (a : Areas) →
        IsStable (V.account vault.old) a →
        IsStable (V.account vault.new) (committed current text.now a) }
    ensures opens_old { (a : Areas) (r : List ℕ) → (V.account vault.old).areas ≡ Some a →
        (C.account chip.old).register ≡ Some r → HasNoTwins a →
        HasNoTwins (committed current text.now a) →
        opening_of (committed current text.now a) r ≡ opening_of a r }
    ensures opens_new { (a : Areas) → sha256 text.now ≢ no_digest →
        HasNoTwins (committed current text.now a) →
        opening_of (committed current text.now a) (sha256 text.now) ≡ Holds (stored text.now) }
    ensures set { OnOk result ((C.account chip.new).register
        ≡ replaced (C.account chip.old).register (sha256 text.now)) }
    ensures unset { result ≡ Err CommitFault.Vault →
        (C.account chip.new).register ≡ (C.account chip.old).register }
    ensures unsure { result ≡ Err CommitFault.Chip →
        IsOldOrNew (C.account chip.old).register (sha256 text.now) (C.account chip.new).register }
    ensures next_current { OnOk result ((a : Areas) → IsStable (V.account vault.old) a →
        IsCurrent (other_area current) (V.account vault.new).areas (C.account chip.new).register) }
    ensures vault_faults { CountsVaultCommit result
        (V.account vault.old).faults (V.account vault.new).faults }
    ensures chip_faults { CountsChipCommit result
        (C.account chip.old).faults (C.account chip.new).faults }
{
    let area = other(current);
    let digest = digest_of(text);
    match put(area, text, &digest, vault, chip) {
        Ok(()) => Ok(()),
        Err(fault) => Err(fault),
    }
}

/// The other area.
pub fn other(area: Area) -> Area
    ensures { result ≡ other_area area }
{
    match area {
        Area::First => Area::Second,
        Area::Second => Area::First,
    }
}
