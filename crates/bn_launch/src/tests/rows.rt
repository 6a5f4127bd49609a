use arrayvec::ArrayVec;
use bn_table::Table;
use bn_types::{Decl, Digest, Gpn, Judged, ModId, Mode, Rights, Sort, Vpn};

/// SHA-256 of the text of the module at page 8 and of its pages 16 and 17, 9,424 bytes in all.
pub const MODULE: [u8; 32] = [
    0x86, 0x71, 0x62, 0x4e, 0xdc, 0x99, 0xcd, 0x51, 0xbb, 0x8f, 0xbc, 0xff, 0xa3, 0xc5, 0x5f, 0x63,
    0x28, 0x87, 0x10, 0x49, 0xdf, 0x9a, 0xf8, 0x19, 0xfe, 0x87, 0xb8, 0xbb, 0x5c, 0x7e, 0x79, 0x32,
];

/// SHA-256 of the text of the module that accepts page 20 in the place of its second page, and of
/// its page 16, 5,328 bytes in all.
pub const ACCEPTING: [u8; 32] = [
    0x15, 0x4d, 0x69, 0x04, 0x7a, 0xfa, 0x78, 0x95, 0x76, 0x4c, 0x15, 0xe3, 0xda, 0x31, 0xe9, 0x1a,
    0xcd, 0x76, 0xa4, 0xb4, 0x6f, 0x9a, 0xad, 0x73, 0x5f, 0x57, 0xb3, 0x3a, 0x6c, 0xfb, 0x60, 0xfb,
];

/// A module of the identity, without pages.
pub fn known(digest: Digest) -> Judged {
    Judged {
        digest,
        mode: Mode::S,
        entries: ArrayVec::new(),
        decls: ArrayVec::new(),
        partners: ArrayVec::new(),
    }
}

/// A module that offers page 20 with loads and stores to the accepting one.
pub fn offering() -> Judged {
    let mut decls = ArrayVec::new();
    decls.push(Decl {
        vpn: Vpn(7),
        gpn: Gpn(20),
        sort: Sort::Offer,
        rights: Rights(3),
        mask: 1,
        source: ModId(0),
    });
    let mut partners = ArrayVec::new();
    partners.push(Digest(ACCEPTING));
    Judged {
        digest: Digest([1; 32]),
        mode: Mode::S,
        entries: ArrayVec::new(),
        decls,
        partners,
    }
}

/// A table with this module alone.
pub fn table_with(judged: Judged) -> Table {
    let mut table = Table::empty();
    table.add(judged);
    table
}

/// A table of 15 modules whose digests are of equal bytes.
pub fn full_table() -> Table {
    let mut table = Table::empty();
    for byte in 0..15 {
        if table.live() < 15 && table.next_id() < 65536 {
            table.add(known(Digest([byte; 32])));
        }
    }
    table
}
