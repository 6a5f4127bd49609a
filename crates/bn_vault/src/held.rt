ghost use Rattle.std.specs.Prelude.{◌≡◌, ◌≢◌, ℕ, ◌-◌, ◌^◌, ◌<◌, ◌≤◌, false, List, Some, Err, OnOk};
ghost use Rattle.std.specs.Prelude.{is_err, length};
ghost use Rattle.sha2.specs.Sha256.{sha256};
ghost use Rattle.bn_edge.specs.Areas.{Areas, area_room, other_area};
ghost use Rattle.bn_edge.specs.Crashes.{IsStable, LeavesOnly};
ghost use Rattle.bn_edge.specs.Registers.{replaced, IsOldOrNew};
ghost use Rattle.bn_model.specs.Reopening.{Holds, no_digest};
ghost use Rattle.bn_model.specs.StoredImages.{Stored, stored, image_of};
ghost use Rattle.bn_vault.specs.Committing.{HeldPlace, HasNoTwins, committed};
ghost use Rattle.bn_vault.specs.Counting.{CountsVaultCommit, CountsChipCommit};
ghost use Rattle.bn_vault.specs.Openings.{IsCurrent, opening_of};

use crate::CommitFault;
use crate::committing::{commit_text, other};
use bn_edge::{Area, Chip, Vault};
use bn_store::Store;
use std::marker::Model;

/// What commits stores to a vault and a chip: which area is current, and a buffer for an image.
#[derive(Drop)]
pub struct Held {
    current: Area,
    spent: bool,
    buffer: [u8; 18448],
}

impl Model for Held {
    ghost Value = { HeldPlace };

    ghost view = { λ h. record { current = h.current; spent = h.spent } };
}

impl Held {
    pub(crate) fn of(current: Area) -> Held
        ensures { result ≡ record { current = current; spent = false } }
    {
        Held {
            current,
            spent: false,
            buffer: [0; 18448],
        }
    }

    /// Writes the stored image to the area that isn't current, syncs, and sets the register to its
    /// digest. Then that area is current. It takes no memory.
    ///
    /// A crash at any moment leaves areas that open to what they opened to before, under the
    /// register as it was. After an `Err` the vault is to be opened again. `Vault`: a call of the
    /// vault failed, and the register is as before. `Chip`: the set failed, and the areas open
    /// under the old register to the old records and under the new one to the new records.
    pub fn commit<V: Vault, C: Chip>(
        &mut self,
        store: &Store,
        vault: &mut V,
        chip: &mut C,
    ) -> Result<(), CommitFault>
        requires usable { self.old.spent ≡ false }
        requires current { IsCurrent self.old.current
            (V.account vault.old).areas (C.account chip.old).register }

        // All that a crash may leave since the call began opens under the old register as before.
        ensures any_moment { (a : Areas) (r : List ℕ) → IsStable (V.account vault.old) a →
            (C.account chip.old).register ≡ Some r → HasNoTwins a →
            LeavesOnly (V.account vault.old) (V.account vault.new)
            (λ c. HasNoTwins c → opening_of c r ≡ opening_of a r) }

        // Once the vault has done its part, the areas are on the disk with the new image in one of
        // them.
        ensures stable { result ≢ Err CommitFault.Vault → (a : Areas) →
            IsStable (V.account vault.old) a →
            IsStable (V.account vault.new)
            (committed self.old.current (image_of store.now) a) }

        // These open under the old register as before, and under the new image's digest to the new
        // records.
        ensures opens_old { (a : Areas) (r : List ℕ) → (V.account vault.old).areas ≡ Some a →
            (C.account chip.old).register ≡ Some r → HasNoTwins a →
            HasNoTwins (committed self.old.current (image_of store.now) a) →
            opening_of (committed self.old.current (image_of store.now) a) r ≡ opening_of a r }
        ensures opens_new { (a : Areas) → sha256 (image_of store.now) ≢ no_digest →
            HasNoTwins (committed self.old.current (image_of store.now) a) →
            opening_of (committed self.old.current (image_of store.now) a)
            (sha256 (image_of store.now)) ≡ Holds (Stored store.now) }

        ensures set { OnOk result ((C.account chip.new).register
            ≡ replaced (C.account chip.old).register (sha256 (image_of store.now))) }
        ensures unset { result ≡ Err CommitFault.Vault →
            (C.account chip.new).register ≡ (C.account chip.old).register }
        ensures unsure { result ≡ Err CommitFault.Chip →
            IsOldOrNew (C.account chip.old).register (sha256 (image_of store.now))
            (C.account chip.new).register }

        // Another commit may follow an `Ok`, and none an `Err`.
        ensures next { OnOk result (self.new.current ≡ other_area self.old.current) }
        ensures next_current { OnOk result ((a : Areas) → IsStable (V.account vault.old) a →
            IsCurrent self.new.current (V.account vault.new).areas (C.account chip.new).register) }
        ensures spent { self.new.spent ≡ is_err result }

        ensures vault_faults { CountsVaultCommit result
            (V.account vault.old).faults (V.account vault.new).faults }
        ensures chip_faults { CountsChipCommit result
            (C.account chip.old).faults (C.account chip.new).faults }
    {
        let text = image_in(store, &mut self.buffer);
        match commit_text(self.current, text, vault, chip) {
            Ok(()) => {
                self.current = other(self.current);
                Ok(())
            }
            Err(fault) => {
                self.spent = true;
                Err(fault)
            }
        }
    }
}

/// Writes the stored image to the buffer, and gives it.
fn image_in<'a>(store: &Store, buffer: &'a mut [u8; 18448]) -> &'a [u8]
    ensures image { result.now ≡ image_of store.now }
    ensures room { length result.now ≤ area_room }
    ensures read_back { stored (image_of store.now) ≡ Stored store.now }
{
    let len = store.image(buffer);
    &buffer[..len]
}
