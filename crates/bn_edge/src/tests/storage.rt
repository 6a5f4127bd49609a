ghost use Rattle.std.specs.Prelude.{◌≡◌, IfOk, length};

use crate::{Area, AreaFault, Chip, FileChip, FileVault, MemChip, MemVault, Vault};
use std::alloc::Global;
use std::fs;
use std::rt::Files;
use std::test::Fail;

/// A vault in memory whose two areas are short.
fn vault_of(alloc: Global, fails: &[u64]) -> Result<MemVault, Fail> {
    let fails = Vec::from_slice(alloc, fails)?;
    let vault = MemVault::of(alloc, b"one", b"two", fails);
    Ok(vault.ok().ok_or("no memory")?)
}

/// A read of an area gives these bytes.
fn holds<V: Vault>(vault: &mut V, alloc: Global, area: Area, want: &[u8]) -> bool {
    match vault.read_area(alloc, area) {
        Ok(bytes) => bytes.as_slice() == want,
        Err(_) => false,
    }
}

#[test]
fn a_vault_gives_what_was_written(rt: HostRuntime) -> Result<(), Fail> {
    let mut vault = vault_of(rt.alloc(), &[])?;
    for (area, before) in [(Area::First, b"one".as_slice()), (Area::Second, b"two")] {
        assert!(rt; holds(&mut vault, rt.alloc(), area, before));
        assert!(rt; vault.write_area(area, b"three").is_ok());
        assert!(rt; vault.sync().is_ok());
        assert!(rt; holds(&mut vault, rt.alloc(), area, b"three"));
    }
    Ok(())
}

#[test]
fn a_vault_fails_at_the_listed_calls(rt: HostRuntime) -> Result<(), Fail> {
    let mut vault = vault_of(rt.alloc(), &[1, 2, 4])?;
    let read = vault.read_area(rt.alloc(), Area::First).err();
    assert!(rt; read == Some(AreaFault::Failed));
    assert!(rt; vault.write_area(Area::First, b"").is_err());
    assert!(rt; vault.sync().is_ok());
    assert!(rt; vault.sync().is_err());
    Ok(())
}

#[test]
fn a_vault_takes_64_writes(rt: HostRuntime) -> Result<(), Fail> {
    let mut vault = vault_of(rt.alloc(), &[])?;
    let text = filled(rt.alloc(), 7, 65_536)?;
    for _ in 0..64 {
        assert!(rt; vault.write_area(Area::First, &text).is_ok());
        assert!(rt; vault.sync().is_ok());
    }
    assert!(rt; vault.write_area(Area::First, b"").is_err());
    assert!(rt; holds(&mut vault, rt.alloc(), Area::First, &text));
    Ok(())
}

#[test]
fn a_chip_keeps_its_register_where_a_set_fails(rt: HostRuntime) -> Result<(), Fail> {
    let mut chip = MemChip::of([1; 32], Vec::from_slice(rt.alloc(), &[1, 5])?);
    assert!(rt; chip.set_register(&[2; 32]).is_err());
    assert!(rt; chip.register() == Ok([1; 32]));
    assert!(rt; chip.set_register(&[3; 32]).is_ok());
    assert!(rt; chip.register() == Ok([3; 32]));
    assert!(rt; chip.register().is_err());
    Ok(())
}

/// So many bytes of one value.
fn filled(alloc: Global, byte: u8, count: usize) -> Result<Vec<u8>, Fail>
    ensures { IfOk result (λ bytes. length bytes.items ≡ count) }
{
    Ok(vec![in alloc; byte; count]?)
}

/// Takes a file away, where it is.
fn remove<R: Files>(rt: &R, name: &str) {
    let _removed = fs::remove_file(rt, name);
}

/// A file has these bytes.
fn has<R: Files + Alloc>(rt: &R, name: &str, want: &[u8]) -> bool {
    match fs::read(rt, name) {
        Ok(bytes) => bytes.as_slice() == want,
        Err(_) => false,
    }
}

#[test]
fn areas_are_files_of_the_folder(rt: HostRuntime) {
    remove(&rt, "bastion.a");
    let mut vault = FileVault::of(&rt);
    assert!(rt; holds(&mut vault, rt.alloc(), Area::First, b""));
    assert!(rt; vault.write_area(Area::Second, b"two").is_ok());
    assert!(rt; vault.sync().is_ok());
    let second = has(&rt, "bastion.b", b"two");
    remove(&rt, "bastion.b");
    assert!(rt; second);
}

#[test]
fn the_front_of_a_longer_file_is_an_area(rt: HostRuntime) -> Result<(), Fail> {
    let long = filled(rt.alloc(), 9, 65_537)?;
    fs::write(&rt, "bastion.a", long.as_slice())?;
    let start = long.get(..65_536).unwrap_or(&[]);
    let front = holds(&mut FileVault::of(&rt), rt.alloc(), Area::First, start);
    remove(&rt, "bastion.a");
    assert!(rt; front);
    Ok(())
}

#[test]
fn the_register_is_a_file_of_the_folder(rt: HostRuntime) {
    remove(&rt, "bastion.reg");
    let mut chip = FileChip::of(&rt);
    assert!(rt; chip.register() == Ok([0; 32]));
    let set = chip.set_register(&[5; 32]);
    let register = chip.register();
    remove(&rt, "bastion.reg");
    assert!(rt; set.is_ok());
    assert!(rt; register == Ok([5; 32]));
}

#[test]
fn a_register_has_32_bytes(rt: HostRuntime) -> Result<(), Fail> {
    for bytes in [[9; 31].as_slice(), &[9; 33]] {
        fs::write(&rt, "bastion.reg", bytes)?;
        let register = FileChip::of(&rt).register();
        remove(&rt, "bastion.reg");
        assert!(rt; register.is_err());
    }
    Ok(())
}
