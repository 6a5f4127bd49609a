ghost use Rattle.std.specs.Prelude.{◌<◌};

use crate::{SegFault, read, write};
use arrayvec::ArrayVec;
use bn_types::{Digest, Mode, Rights, SegPage, Segment, Sort, Vpn};
use std::test::Fail;

/// Mode S, one entry at 0x80010000, a page of code there and a page of data behind it.
fn module_text() -> [u8; 1232] {
    let mut text = [0; 1232];
    text[..8].copy_from_slice(&[0x42, 0x4e, 0x53, 0x47, 1, 1, 1, 2]);
    text[16..24].copy_from_slice(&[0, 0, 1, 0x80, 0, 0, 0, 0]);
    text[80..91].copy_from_slice(&[0x10, 0, 8, 0, 0, 0, 0, 0, 1, 5, 0]);
    text[96..107].copy_from_slice(&[0x11, 0, 8, 0, 0, 0, 0, 0, 1, 3, 0]);
    text
}

/// The same with the byte at a place changed.
fn changed(at: usize, byte: u8) -> [u8; 1232]
    requires { at < 1232 }
{
    let mut text = module_text();
    text[at] = byte;
    text
}

fn fault_of(text: &[u8; 1232]) -> Option<SegFault> {
    match read(text) {
        Ok(_) => None,
        Err(fault) => Some(fault),
    }
}

#[test]
fn a_module_of_two_pages_is_read(rt: HostRuntime) -> Result<(), Fail> {
    let Ok(segment) = read(&module_text()) else {
        panic!(rt; "the text is refused");
    };
    assert!(rt; segment.mode == Mode::S);
    assert_eq!(rt; segment.entries.len(), 1);
    assert_eq!(rt; segment.entries[0], 0x8001_0000);
    assert_eq!(rt; segment.pages.len(), 2);
    let code = segment.pages[0];
    assert_eq!(rt; code.vpn.0, 0x80010);
    assert!(rt; code.sort == Sort::Private);
    assert_eq!(rt; code.rights.0, 5);
    let data = segment.pages[1];
    assert_eq!(rt; data.vpn.0, 0x80011);
    assert_eq!(rt; data.rights.0, 3);
    assert_eq!(rt; segment.partners.len(), 0);
    Ok(())
}

#[test]
fn each_fault_at_its_limit(rt: HostRuntime) -> Result<(), Fail> {
    assert!(rt; fault_of(&changed(3, 0x48)) == Some(SegFault::Magic));
    assert!(rt; fault_of(&changed(4, 2)) == Some(SegFault::Version));
    assert!(rt; fault_of(&changed(5, 2)) == Some(SegFault::Mode));
    assert!(rt; fault_of(&changed(6, 0)) == Some(SegFault::Entries));
    assert!(rt; fault_of(&changed(6, 9)) == Some(SegFault::Entries));
    assert!(rt; fault_of(&changed(7, 0)) == Some(SegFault::Pages));
    assert!(rt; fault_of(&changed(7, 65)) == Some(SegFault::Pages));
    assert!(rt; fault_of(&changed(96, 0x10)) == Some(SegFault::Order));
    assert!(rt; fault_of(&changed(102, 0x10)) == Some(SegFault::Order));
    assert!(rt; fault_of(&changed(104, 0)) == Some(SegFault::Sort));
    assert!(rt; fault_of(&changed(104, 4)) == Some(SegFault::Sort));
    assert!(rt; fault_of(&changed(105, 2)) == Some(SegFault::RightsBits));
    assert!(rt; fault_of(&changed(105, 6)) == Some(SegFault::RightsBits));
    assert!(rt; fault_of(&changed(105, 8)) == Some(SegFault::RightsBits));
    assert!(rt; fault_of(&changed(16, 2)) == Some(SegFault::EntryPlace));
    assert!(rt; fault_of(&changed(17, 0x10)) == Some(SegFault::EntryPlace));
    assert!(rt; fault_of(&changed(8, 5)) == Some(SegFault::PartnerPlace));
    assert!(rt; fault_of(&changed(106, 1)) == Some(SegFault::PartnerPlace));
    assert!(rt; fault_of(&changed(9, 1)) == Some(SegFault::Padding));
    assert!(rt; fault_of(&changed(24, 1)) == Some(SegFault::Padding));
    assert!(rt; fault_of(&changed(91, 1)) == Some(SegFault::Padding));
    assert!(rt; fault_of(&changed(112, 1)) == Some(SegFault::Padding));
    assert!(rt; fault_of(&changed(1231, 1)) == Some(SegFault::Padding));
    Ok(())
}

/// Two pages with a partner: the first has a wrong mask, the second wrong rights. Rights are tested
/// first.
#[test]
fn each_test_comes_over_the_whole_text(rt: HostRuntime) -> Result<(), Fail> {
    let mut text = module_text();
    text[90] = 1;
    text[105] = 2;
    assert!(rt; fault_of(&text) == Some(SegFault::RightsBits));
    text[105] = 3;
    assert!(rt; fault_of(&text) == Some(SegFault::PartnerPlace));
    Ok(())
}

#[test]
fn a_segment_with_all_sorts_is_written_and_read_back(rt: HostRuntime) -> Result<(), Fail> {
    let mut segment = Segment {
        mode: Mode::U,
        entries: ArrayVec::new(),
        pages: ArrayVec::new(),
        partners: ArrayVec::new(),
    };
    segment.entries.push(0x4008);
    segment.pages.push(page(4, Sort::Private, 4, 0));
    segment.pages.push(page(5, Sort::Accept, 3, 0));
    segment
        .pages
        .push(page(0xf_ffff_ffff_ffff, Sort::Offer, 1, 2));
    segment.partners.push(Digest([0xaa; 32]));
    segment.partners.push(Digest([0xbb; 32]));
    let mut text = [0xff; 1232];
    write(&segment, &mut text);
    assert!(rt; text[..16] == [0x42, 0x4e, 0x53, 0x47, 1, 0, 1, 3, 2, 0, 0, 0, 0, 0, 0, 0]);
    assert!(rt; text[16..26] == [0x08, 0x40, 0, 0, 0, 0, 0, 0, 0, 0]);
    assert!(rt; text[80..96] == [4, 0, 0, 0, 0, 0, 0, 0, 1, 4, 0, 0, 0, 0, 0, 0]);
    assert!(rt; text[96..112] == [5, 0, 0, 0, 0, 0, 0, 0, 3, 3, 0, 0, 0, 0, 0, 0]);
    assert!(rt; text[112..128] == [255, 255, 255, 255, 255, 255, 15, 0, 2, 1, 2, 0, 0, 0, 0, 0]);
    assert_eq!(rt; text[1135], 0xaa);
    assert_eq!(rt; text[1136], 0xbb);
    assert_eq!(rt; text[1168], 0);
    let Ok(back) = read(&text) else {
        panic!(rt; "the text is refused");
    };
    assert_eq!(rt; back.pages.len(), 3);
    assert!(rt; back.pages[2] == segment.pages[2]);
    assert_eq!(rt; back.partners.len(), 2);
    assert!(rt; back.partners[1] == segment.partners[1]);
    Ok(())
}

fn page(vpn: u64, sort: Sort, rights: u8, mask: u8) -> SegPage {
    SegPage {
        vpn: Vpn(vpn),
        sort,
        rights: Rights(rights),
        mask,
    }
}
