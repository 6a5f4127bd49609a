ghost use Rattle.std.specs.Prelude.{◌≡◌, false, IfOk};
ghost use Rattle.bn_vault.specs.Openings.{IsCurrent};

use crate::{CommitFault, ReopenFault, Reopened, reopen};
use bn_edge::{Area, Chip, FileChip, FileVault, MemChip, MemVault, Vault};
use bn_store::Store;
use bn_types::Digest;
use std::alloc::Global;
use std::fs;
use std::io::ErrorKind;
use std::rt::Files;
use std::test::Fail;

const WHO: Digest = Digest([7; 32]);

/// The SHA-256 digest of `BNSTORE1` and seven zeros, by sha256sum.
const SHORT_DIGEST: [u8; 32] = [
    0x43, 0x01, 0xc8, 0x3f, 0x2f, 0x28, 0xc9, 0x79, 0xe3, 0x6e, 0x04, 0x3c, 0xf2, 0xbb, 0xde, 0xcd,
    0xf8, 0xdc, 0x5b, 0x68, 0x65, 0xc9, 0x9a, 0x5d, 0xad, 0x78, 0xb2, 0x02, 0x56, 0x46, 0x04, 0x0d,
];

/// That of no bytes, by sha256sum.
const EMPTY_DIGEST: [u8; 32] = [
    0xe3, 0xb0, 0xc4, 0x42, 0x98, 0xfc, 0x1c, 0x14, 0x9a, 0xfb, 0xf4, 0xc8, 0x99, 0x6f, 0xb9, 0x24,
    0x27, 0xae, 0x41, 0xe4, 0x64, 0x9b, 0x93, 0x4c, 0xa4, 0x95, 0x99, 0x1b, 0x78, 0x52, 0xb8, 0x55,
];

fn vault_of(alloc: Global, fails: &[u64]) -> Result<MemVault, Fail> {
    let fails = Vec::from_slice(alloc, fails)?;
    Ok(
        MemVault::of(alloc, b"", b"", fails)
            .ok()
            .ok_or("no memory")?,
    )
}

fn chip_of(alloc: Global, fails: &[u64]) -> Result<MemChip, Fail> {
    Ok(MemChip::of([0; 32], Vec::from_slice(alloc, fails)?))
}

/// Opens a store that can be committed.
fn open<V: Vault, C: Chip>(alloc: Global, vault: &mut V, chip: &mut C) -> Result<Reopened, Fail>
    ensures usable { IfOk result (λ o. o.held.spent ≡ false) }
    ensures current { IfOk result (λ o.
        IsCurrent o.held.current (V.account vault.new).areas (C.account chip.new).register) }
{
    match reopen(alloc, vault, chip) {
        Ok(opened) => Ok(opened),
        Err(_) => Err(Fail::from("not opened")),
    }
}

/// Sets word 0 and commits.
fn commit<V: Vault, C: Chip>(
    alloc: Global,
    vault: &mut V,
    chip: &mut C,
    value: u64,
) -> Result<Option<CommitFault>, Fail> {
    let mut opened = open(alloc, vault, chip)?;
    opened.store.set(&WHO, 0, value).ok().ok_or("refused")?;
    let Reopened {
        store,
        mut held,
        ..
    } = opened;
    Ok(held.commit(&store, vault, chip).err())
}

#[test]
fn a_commit_is_found_again(rt: HostRuntime) -> Result<(), Fail> {
    let mut vault = vault_of(rt.alloc(), &[])?;
    let mut chip = chip_of(rt.alloc(), &[])?;
    assert!(rt; open(rt.alloc(), &mut vault, &mut chip)?.fresh);
    for value in 1..4 {
        assert_eq!(rt; commit(rt.alloc(), &mut vault, &mut chip, value)?, None);
        let opened = open(rt.alloc(), &mut vault, &mut chip)?;
        assert!(rt; !opened.fresh);
        assert_eq!(rt; opened.store.get(&WHO, 0), value);
    }
    Ok(())
}

#[test]
fn a_crash_before_the_sync_leaves_the_old_store_and_after_the_set_the_new(
    rt: HostRuntime,
) -> Result<(), Fail> {
    let mut vault = vault_of(rt.alloc(), &[])?;
    let mut chip = chip_of(rt.alloc(), &[])?;
    commit(rt.alloc(), &mut vault, &mut chip, 1)?;
    // a torn write to the area that isn't current, then a crash
    vault
        .write_area(Area::Second, b"BNSTORE1")
        .ok()
        .ok_or("a fault")?;
    assert_eq!(rt;
        open(rt.alloc(), &mut vault, &mut chip)?.store.get(&WHO, 0),
        1
    );
    commit(rt.alloc(), &mut vault, &mut chip, 2)?;
    assert_eq!(rt;
        open(rt.alloc(), &mut vault, &mut chip)?.store.get(&WHO, 0),
        2
    );
    Ok(())
}

#[test]
fn a_short_image_under_its_digest_is_malformed_at_its_end(rt: HostRuntime) -> Result<(), Fail> {
    let text = b"BNSTORE1\0\0\0\0\0\0\0";
    let fails = Vec::new(rt.alloc());
    let vault = MemVault::of(rt.alloc(), text, b"", fails);
    let mut vault = vault.ok().ok_or("no memory")?;
    let mut chip = MemChip::of(SHORT_DIGEST, Vec::new(rt.alloc()));
    let answer = reopen(rt.alloc(), &mut vault, &mut chip).err();
    assert_eq!(rt; answer, Some(ReopenFault::Malformed { at: 15 }));
    Ok(())
}

#[test]
fn areas_put_back_do_not_match(rt: HostRuntime) -> Result<(), Fail> {
    let mut vault = vault_of(rt.alloc(), &[])?;
    let mut chip = MemChip::of(SHORT_DIGEST, Vec::new(rt.alloc()));
    let answer = reopen(rt.alloc(), &mut vault, &mut chip).err();
    let want = ReopenFault::Mismatch {
        register: Digest(SHORT_DIGEST),
        first: Digest(EMPTY_DIGEST),
        second: Digest(EMPTY_DIGEST),
    };
    assert_eq!(rt; answer, Some(want));
    Ok(())
}

#[test]
fn each_fault_is_told(rt: HostRuntime) -> Result<(), Fail> {
    for (vault_fails, chip_fails, want) in [
        (&[3][..], &[][..], CommitFault::Vault),
        (&[4], &[], CommitFault::Vault),
        (&[], &[2], CommitFault::Chip),
    ] {
        let mut vault = vault_of(rt.alloc(), vault_fails)?;
        let mut chip = chip_of(rt.alloc(), chip_fails)?;
        assert_eq!(rt; commit(rt.alloc(), &mut vault, &mut chip, 1)?, Some(want));
        assert!(rt; open(rt.alloc(), &mut vault, &mut chip)?.fresh);
    }
    Ok(())
}

fn remove_all<R: Files>(rt: &R) -> Result<(), Fail> {
    for name in ["bastion.a", "bastion.b", "bastion.reg"] {
        match fs::remove_file(rt, name) {
            Ok(()) => {}
            Err(error) if error.kind() == ErrorKind::NotFound => {}
            Err(error) => return Err(Fail::from(error)),
        }
    }
    Ok(())
}

#[test]
fn a_store_is_kept_in_files(rt: HostRuntime) -> Result<(), Fail> {
    remove_all(&rt)?;
    let mut vault = FileVault::of(&rt);
    let mut chip = FileChip::of(&rt);
    let first = commit(rt.alloc(), &mut vault, &mut chip, 5)?;
    let second = commit(rt.alloc(), &mut vault, &mut chip, 6)?;
    let opened = open(rt.alloc(), &mut FileVault::of(&rt), &mut FileChip::of(&rt))?;
    remove_all(&rt)?;
    assert_eq!(rt; (first, second), (None, None));
    assert_eq!(rt; opened.store.get(&WHO, 0), 6);
    Ok(())
}
