ghost use Rattle.std.specs.Prelude.{◌≡◌, ℕ, ◌<◌, ◌≤◌, ◌^◌, length};
ghost use Rattle.bn_model.specs.CsrFile.{HasMode};

use super::flat::Flat;
use crate::{Leaf, LeafFault, leaf, permit, walk};
use bn_types::{Cause, Gpn, Kind, Mode, Steps};
use std::marker::Brand;
use std::sync::ledger::{Blank, Ledger};
use std::test::Fail;

const SATP: u64 = 0x8000000000080001;

/// A page whose first entry is this one, and the others 0.
fn table(entry: u64) -> Option<[u8; 4096]> {
    let mut bytes = [0; 4096];
    bytes[..8].copy_from_slice(&entry.to_le_bytes());
    Some(bytes)
}

/// A plain page, a root, a table of level 1 with the entry, and a plain page.
fn pages(entry: u64) -> [Option<[u8; 4096]>; 4] {
    [table(0), table(0x20000801), table(entry), table(0)]
}

fn walk_in_s<L: Ledger>(blank: Blank, flat: &Flat, va: u64, kind: Kind) -> Result<Leaf, Cause>
    requires name { blank.name ≡ L.name }
    requires parts { blank.parts ≡ L.parts }
    requires some { 0 < L.parts }
    requires few { length flat.now.pages.now ≤ 2 ^ 32 }
{
    let mut steps = Steps::<L>::open(blank);
    walk(flat, SATP, va, kind, Mode::S, false, false, &mut steps)
}

fn leaf_at<L: Ledger>(blank: Blank, flat: &Flat, va: u64) -> Result<Leaf, LeafFault>
    requires name { blank.name ≡ L.name }
    requires parts { blank.parts ≡ L.parts }
    requires some { 0 < L.parts }
    requires few { length flat.now.pages.now ≤ 2 ^ 32 }
{
    let mut steps = Steps::<L>::open(blank);
    leaf(flat, SATP, va, &mut steps)
}

fn walk_once(flat: &Flat, va: u64, kind: Kind) -> Result<Leaf, Cause>
    requires { length flat.now.pages.now ≤ 2 ^ 32 }
{
    walk_in_s::<Brand>(Blank::new(1), flat, va, kind)
}

fn leaf_once(flat: &Flat, va: u64) -> Result<Leaf, LeafFault>
    requires { length flat.now.pages.now ≤ 2 ^ 32 }
{
    leaf_at::<Brand>(Blank::new(1), flat, va)
}

#[test]
fn an_address_that_is_not_canonical_is_a_page_fault(rt: HostRuntime) -> Result<(), Fail> {
    let pages = pages(0x200000CF);
    let flat = Flat { pages: &pages };
    assert_eq!(rt;
        walk_once(&flat, 0x8000000000, Kind::Fetch).err(),
        Some(Cause(12))
    );
    assert_eq!(rt;
        walk_once(&flat, 0x8000000000, Kind::Load).err(),
        Some(Cause(13))
    );
    assert_eq!(rt;
        walk_once(&flat, 0x8000000000, Kind::Store).err(),
        Some(Cause(15))
    );
    Ok(())
}

#[test]
fn a_superpage_is_aligned(rt: HostRuntime) -> Result<(), Fail> {
    let pages = pages(0x200004CF);
    let flat = Flat { pages: &pages };
    assert_eq!(rt; walk_once(&flat, 0, Kind::Load).err(), Some(Cause(13)));
    assert_eq!(rt; leaf_once(&flat, 0).err(), Some(LeafFault::Page));
    Ok(())
}

#[test]
fn a_superpage_leads_to_the_page_of_the_address(rt: HostRuntime) -> Result<(), Fail> {
    let pages = pages(0x200000CF);
    let flat = Flat { pages: &pages };
    let leaf = walk_once(&flat, 0x3008, Kind::Load).ok().ok_or("no leaf")?;
    assert_eq!(rt; leaf.ppn, 0x80003);
    assert_eq!(rt; leaf.tables.as_slice(), [Gpn(1), Gpn(2)].as_slice());
    assert!(rt; !permit(&leaf, Kind::Load, Mode::U, false, false));
    Ok(())
}

#[test]
fn a_table_that_is_owned_is_an_access_fault(rt: HostRuntime) -> Result<(), Fail> {
    let pages = [table(0), table(0x20000801), None];
    let flat = Flat { pages: &pages };
    assert_eq!(rt; leaf_once(&flat, 0).err(), Some(LeafFault::Refused));
    assert_eq!(rt; walk_once(&flat, 0, Kind::Fetch).err(), Some(Cause(1)));
    assert_eq!(rt; walk_once(&flat, 0, Kind::Load).err(), Some(Cause(5)));
    assert_eq!(rt; walk_once(&flat, 0, Kind::Store).err(), Some(Cause(7)));
    Ok(())
}
