ghost use Rattle.std.specs.Prelude.{◌≡◌, ℕ, ◌-◌, ◌^◌, ◌<◌, false, List, Some, IfOk, IfErr};
ghost use Rattle.bn_edge.specs.Areas.{Areas, GivesArea};
ghost use Rattle.bn_edge.specs.Crashes.{Elapses, LeavesTheSame};
ghost use Rattle.bn_edge.specs.declared.area.Area.TheVariants.{First, Second};
ghost use Rattle.bn_vault.specs.Counting.{CountsVaultRead, CountsVaultReopen, CountsChipReopen};
ghost use Rattle.bn_vault.specs.Openings.{IsCurrent, IsOpened, IsRefused};

use crate::opening::open_areas;
use crate::read_fault::ReadFault;
use crate::{ReopenFault, Reopened};
use bn_edge::{Area, AreaFault, Chip, Vault};
use std::alloc::Global;

/// Reads the register and then both areas, and opens the store. It leaves areas and register as
/// they were.
///
/// A register of 32 zeros is that of a new machine: the store is empty, whatever the areas hold,
/// and the second area is current. Otherwise the first area whose SHA-256 digest is the register
/// is current. `Malformed`: that area is no stored image. `Mismatch`: neither area has that digest.
/// `Vault` and `Chip`: that object's call failed. `Memory` is free.
pub fn reopen<V: Vault, C: Chip>(
    alloc: Global,
    vault: &mut V,
    chip: &mut C,
) -> Result<Reopened, ReopenFault>
    ensures opened { IfOk result (λ o. (a : Areas) (r : List ℕ) →
        (V.account vault.old).areas ≡ Some a →
        (C.account chip.old).register ≡ Some r → IsOpened o.fresh o.store o.held.current a r) }
    ensures refused { IfErr result (λ fault. (a : Areas) (r : List ℕ) →
        (V.account vault.old).areas ≡ Some a →
        (C.account chip.old).register ≡ Some r → IsRefused fault a r) }

    // A commit may follow.
    ensures usable { IfOk result (λ o. o.held.spent ≡ false) }
    ensures current { IfOk result (λ o.
        IsCurrent o.held.current (V.account vault.new).areas (C.account chip.new).register) }

    // Areas and register stay, and so does what a crash may leave of them.
    ensures areas_stay { (V.account vault.new).areas ≡ (V.account vault.old).areas }
    ensures register_stays { (C.account chip.new).register ≡ (C.account chip.old).register }
    ensures crash { LeavesTheSame (V.account vault.old) (V.account vault.new) }
    ensures time { Elapses (V.account vault.old) (V.account vault.new) }

    ensures vault_faults { CountsVaultReopen result
        (V.account vault.old).faults (V.account vault.new).faults }
    ensures chip_faults { CountsChipReopen result
        (C.account chip.old).faults (C.account chip.new).faults }
{
    let register = match chip.register() {
        Ok(register) => register,
        Err(_) => return Err(ReopenFault::Chip),
    };
    match read_areas(alloc, vault) {
        Ok((first, second)) => open_areas(alloc, &register, &first, &second),
        Err(ReadFault::Vault) => Err(ReopenFault::Vault),
        Err(ReadFault::Memory) => Err(ReopenFault::Memory),
    }
}

fn read_areas<V: Vault>(alloc: Global, vault: &mut V) -> Result<(Vec<u8>, Vec<u8>), ReadFault>
    ensures first { IfOk result (λ read.
        GivesArea (V.account vault.old).areas First read.0.items) }
    ensures second { IfOk result (λ read.
        GivesArea (V.account vault.old).areas Second read.1.items) }
    ensures areas_stay { (V.account vault.new).areas ≡ (V.account vault.old).areas }
    ensures crash { LeavesTheSame (V.account vault.old) (V.account vault.new) }
    ensures time { Elapses (V.account vault.old) (V.account vault.new) }
    ensures vault_faults { CountsVaultRead result
        (V.account vault.old).faults (V.account vault.new).faults }
{
    let first = match vault.read_area(alloc, Area::First) {
        Ok(first) => first,
        Err(AreaFault::Failed) => return Err(ReadFault::Vault),
        Err(AreaFault::Memory) => return Err(ReadFault::Memory),
    };
    let second = match vault.read_area(alloc, Area::Second) {
        Ok(second) => second,
        Err(AreaFault::Failed) => return Err(ReadFault::Vault),
        Err(AreaFault::Memory) => return Err(ReadFault::Memory),
    };
    Ok((first, second))
}
