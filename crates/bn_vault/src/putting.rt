ghost use Rattle.std.specs.Prelude.{◌≡◌, ◌≢◌, ℕ, ◌-◌, ◌^◌, ◌<◌, ◌≤◌, Err, Ok, OnOk, length};
ghost use Rattle.bn_edge.specs.Areas.{Areas, area_at, area_room, other_area, with_area};
ghost use Rattle.bn_edge.specs.Crashes.{IsStable, LeavesOnly};
ghost use Rattle.bn_edge.specs.Registers.{replaced, IsOldOrNew};
ghost use Rattle.bn_vault.specs.Counting.{CountsVaultCommit, CountsChipCommit};

use crate::CommitFault;
use bn_edge::{Area, Chip, Vault};

/// Writes a text to an area, puts it on the disk, and sets the register to its digest, in this
/// order.
pub fn put<V: Vault, C: Chip>(
    area: Area,
    text: &[u8],
    digest: &[u8; 32],
    vault: &mut V,
    chip: &mut C,
) -> Result<(), CommitFault>
    requires { length text.now ≤ area_room }
    // A crash at any moment leaves the other area as it was.
    ensures any_moment { (a : Areas) → IsStable (V.account vault.old) a →
        LeavesOnly (V.account vault.old) (V.account vault.new)
        (λ c. area_at (other_area area) c ≡ area_at (other_area area) a) }
    ensures stable { result ≢ Err CommitFault.Vault → (a : Areas) →
        IsStable (V.account vault.old) a →
        IsStable (V.account vault.new) (with_area area text.now a) }
    ensures set { OnOk result
        ((C.account chip.new).register ≡ replaced (C.account chip.old).register digest.now) }
    ensures unset { result ≡ Err CommitFault.Vault →
        (C.account chip.new).register ≡ (C.account chip.old).register }
    ensures unsure { result ≡ Err CommitFault.Chip →
        IsOldOrNew (C.account chip.old).register digest.now (C.account chip.new).register }
    ensures vault_faults { CountsVaultCommit result
        (V.account vault.old).faults (V.account vault.new).faults }
    ensures chip_faults { CountsChipCommit result
        (C.account chip.old).faults (C.account chip.new).faults }
{
    match vault.write_area(area, text) {
        Ok(()) => {}
        Err(_) => return Err(CommitFault::Vault),
    }
    match vault.sync() {
        Ok(()) => {}
        Err(_) => return Err(CommitFault::Vault),
    }
    match chip.set_register(digest) {
        Ok(()) => Ok(()),
        Err(_) => Err(CommitFault::Chip),
    }
}
