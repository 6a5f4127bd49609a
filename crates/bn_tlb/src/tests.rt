ghost use Rattle.std.specs.Prelude.{◌≡◌, ◌<◌, ◌≤◌, length};

use crate::{Entry, Key, Tlb};
use arrayvec::ArrayVec;
use bn_types::{Frame, Gpn, ModId, Rights, Vpn};
use std::test::Fail;

/// A value of `satp` that turns Sv39 on, with the first table in page 1.
const SV39: u64 = 0x8000_0000_0008_0001;

fn key(module: u16, satp: u64, vpn: u64) -> Key {
    Key {
        module: ModId(module),
        satp,
        vpn: Vpn(vpn),
    }
}

/// A translation that leads to a page, by tables in these pages.
fn entry(page: u16, tables: [u32; 3]) -> Entry {
    let mut list = ArrayVec::new();
    list.push(Gpn(tables[0]));
    list.push(Gpn(tables[1]));
    list.push(Gpn(tables[2]));
    Entry {
        page: Gpn(u32::from(page)),
        frame: Frame(u32::from(page) + 100),
        flags: 0xdf,
        bare: false,
        rights: Rights(7),
        tables: list,
    }
}

/// A translation that leads to a page where the guest translates nothing.
fn bare_entry(page: u16) -> Entry {
    Entry {
        page: Gpn(u32::from(page)),
        frame: Frame(u32::from(page) + 100),
        flags: 0,
        bare: true,
        rights: Rights(3),
        tables: ArrayVec::new(),
    }
}

/// Holds the translation, where its key isn't held.
fn hold(tlb: &mut Tlb, hart: u8, key: Key, entry: Entry)
    requires { hart < tlb.old.harts }
    ensures { tlb.new.harts ≡ tlb.old.harts }
{
    match tlb.find(hart, &key) {
        Some(_) => {}
        None => tlb.fill(hart, key, entry),
    }
}

/// The page to which a hart's translation leads, and 0xffff where none is held.
fn page_at(tlb: &Tlb, hart: u8, key: Key) -> u32
    requires { hart < tlb.now.harts }
{
    match tlb.find(hart, &key) {
        Some(entry) => entry.page.0,
        None => 0xffff,
    }
}

#[test]
fn of_five_keys_of_a_set_the_first_leaves(rt: HostRuntime) -> Result<(), Fail> {
    let mut tlb = Tlb::empty(rt.alloc(), 1)?;
    hold(&mut tlb, 0, key(0, 0, 0x80010), bare_entry(16));
    hold(&mut tlb, 0, key(0, 0, 0x80011), bare_entry(17));
    hold(&mut tlb, 0, key(0, 0, 0x80050), bare_entry(80));
    hold(&mut tlb, 0, key(0, 0, 0x80090), bare_entry(144));
    hold(&mut tlb, 0, key(0, 0, 0x800d0), bare_entry(208));
    assert_eq!(rt; page_at(&tlb, 0, key(0, 0, 0x80010)), 16);
    hold(&mut tlb, 0, key(0, 0, 0x80110), bare_entry(272));
    assert_eq!(rt; page_at(&tlb, 0, key(0, 0, 0x80010)), 0xffff);
    assert_eq!(rt; page_at(&tlb, 0, key(0, 0, 0x80050)), 80);
    assert_eq!(rt; page_at(&tlb, 0, key(0, 0, 0x80090)), 144);
    assert_eq!(rt; page_at(&tlb, 0, key(0, 0, 0x800d0)), 208);
    assert_eq!(rt; page_at(&tlb, 0, key(0, 0, 0x80110)), 272);
    assert_eq!(rt; page_at(&tlb, 0, key(0, 0, 0x80011)), 17);
    Ok(())
}

#[test]
fn harts_modules_and_values_of_satp_are_apart(rt: HostRuntime) -> Result<(), Fail> {
    let mut tlb = Tlb::empty(rt.alloc(), 4)?;
    hold(&mut tlb, 0, key(0, 0, 0x80010), bare_entry(1));
    assert_eq!(rt; page_at(&tlb, 3, key(0, 0, 0x80010)), 0xffff);
    assert_eq!(rt; page_at(&tlb, 0, key(5, 0, 0x80010)), 0xffff);
    assert_eq!(rt; page_at(&tlb, 0, key(0, SV39, 0x80010)), 0xffff);
    hold(&mut tlb, 3, key(0, 0, 0x80010), bare_entry(2));
    hold(&mut tlb, 0, key(5, 0, 0x80010), bare_entry(3));
    hold(&mut tlb, 0, key(0, SV39, 0x80010), bare_entry(4));
    assert_eq!(rt; page_at(&tlb, 0, key(0, 0, 0x80010)), 1);
    assert_eq!(rt; page_at(&tlb, 3, key(0, 0, 0x80010)), 2);
    assert_eq!(rt; page_at(&tlb, 0, key(5, 0, 0x80010)), 3);
    assert_eq!(rt; page_at(&tlb, 0, key(0, SV39, 0x80010)), 4);
    assert_eq!(rt; page_at(&tlb, 1, key(0, 0, 0x80010)), 0xffff);
    Ok(())
}

#[test]
fn what_is_found_is_what_was_filled(rt: HostRuntime) -> Result<(), Fail> {
    let mut tlb = Tlb::empty(rt.alloc(), 1)?;
    hold(&mut tlb, 0, key(2, SV39, 7), entry(20, [1, 2, 3]));
    match tlb.find(0, &key(2, SV39, 7)) {
        Some(found) => {
            assert_eq!(rt; found.frame.0, 120);
            assert_eq!(rt; found.flags, 0xdf);
            assert!(rt; !found.bare);
            assert_eq!(rt; found.rights.0, 7);
            assert!(rt; found.tables[..] == [Gpn(1), Gpn(2), Gpn(3)][..]);
        }
        None => return Err(Fail::from("nothing is held")),
    }
    Ok(())
}

/// Hart 0 holds 20 by tables 1, 2 and 3, 21 by 1, 2 and 4, and 3 by none; hart 1 holds 22 by 5, 6
/// and 3, and, for module 5, 20 by 5, 6 and 7.
fn fill_two_harts(tlb: &mut Tlb)
    requires { 2 ≤ tlb.old.harts }
    ensures { tlb.new.harts ≡ tlb.old.harts }
{
    hold(tlb, 0, key(0, SV39, 10), entry(20, [1, 2, 3]));
    hold(tlb, 0, key(0, SV39, 11), entry(21, [1, 2, 4]));
    hold(tlb, 0, key(0, 0, 10), bare_entry(3));
    hold(tlb, 1, key(0, SV39, 10), entry(22, [5, 6, 3]));
    hold(tlb, 1, key(5, SV39, 10), entry(20, [5, 6, 7]));
}

/// The pages to which these five lead.
fn five_pages(tlb: &Tlb) -> [u32; 5]
    requires { 2 ≤ tlb.now.harts }
{
    [
        page_at(tlb, 0, key(0, SV39, 10)),
        page_at(tlb, 0, key(0, SV39, 11)),
        page_at(tlb, 0, key(0, 0, 10)),
        page_at(tlb, 1, key(0, SV39, 10)),
        page_at(tlb, 1, key(5, SV39, 10)),
    ]
}

#[test]
fn a_written_table_drops_what_was_walked_through_it(rt: HostRuntime) -> Result<(), Fail> {
    let mut tlb = Tlb::empty(rt.alloc(), 2)?;
    fill_two_harts(&mut tlb);
    assert_eq!(rt; five_pages(&tlb), [20, 21, 3, 22, 20]);
    tlb.drop_walks(Gpn(20));
    assert_eq!(rt; five_pages(&tlb), [20, 21, 3, 22, 20]);
    tlb.drop_walks(Gpn(3));
    assert_eq!(rt; five_pages(&tlb), [0xffff, 21, 3, 0xffff, 20]);
    tlb.drop_walks(Gpn(6));
    assert_eq!(rt; five_pages(&tlb), [0xffff, 21, 3, 0xffff, 0xffff]);
    Ok(())
}

#[test]
fn a_page_drops_what_leads_to_it_too(rt: HostRuntime) -> Result<(), Fail> {
    let mut tlb = Tlb::empty(rt.alloc(), 2)?;
    fill_two_harts(&mut tlb);
    tlb.drop_page(Gpn(3));
    assert_eq!(rt; five_pages(&tlb), [0xffff, 21, 0xffff, 0xffff, 20]);
    tlb.drop_page(Gpn(20));
    assert_eq!(rt; five_pages(&tlb), [0xffff, 21, 0xffff, 0xffff, 0xffff]);
    Ok(())
}

#[test]
fn a_module_drops_its_own(rt: HostRuntime) -> Result<(), Fail> {
    let mut tlb = Tlb::empty(rt.alloc(), 2)?;
    fill_two_harts(&mut tlb);
    tlb.drop_module(ModId(5));
    assert_eq!(rt; five_pages(&tlb), [20, 21, 3, 22, 0xffff]);
    tlb.drop_module(ModId(0));
    assert_eq!(rt; five_pages(&tlb), [0xffff, 0xffff, 0xffff, 0xffff, 0xffff]);
    Ok(())
}
