ghost use Rattle.std.specs.Prelude.{◌≡◌};
ghost use Rattle.bn_shadow.specs.Counting.{LieInRam};

use crate::Shadow;
use arrayvec::ArrayVec;
use bn_types::{
    Decl, Digest, Gpn, Judged, Kind, ModId, Mode, Rights, Row, RowState, SavedFrame, Sort, Vpn,
};
use std::test::Fail;

/// A row with an id and declarations.
fn row_of(id: u16, decls: ArrayVec<Decl, 64>) -> Row
    ensures { result.judged.decls ≡ decls }
{
    Row {
        id: ModId(id),
        judged: Judged {
            digest: Digest([1; 32]),
            mode: Mode::S,
            entries: ArrayVec::new(),
            decls,
            partners: ArrayVec::new(),
        },
        state: RowState::Idle,
        saved: SavedFrame::zero(),
        caller: ModId(0),
        back: SavedFrame::zero(),
    }
}

/// Module 1 with page 2 as private code at virtual page 7.
fn module_row() -> Row
    ensures { LieInRam 4 result.judged.decls.items }
{
    let mut decls = ArrayVec::new();
    decls.push(Decl {
        vpn: Vpn(7),
        gpn: Gpn(2),
        sort: Sort::Private,
        rights: Rights(5),
        mask: 0,
        source: ModId(0),
    });
    row_of(1, decls)
}

/// Module 2 with page 2 of module 1 accepted at virtual page 9, and page 3 behind it.
fn accepting_row() -> Row
    ensures { LieInRam 4 result.judged.decls.items }
{
    let mut decls = ArrayVec::new();
    decls.push(Decl {
        vpn: Vpn(9),
        gpn: Gpn(2),
        sort: Sort::Accept,
        rights: Rights(1),
        mask: 0,
        source: ModId(1),
    });
    decls.push(Decl {
        vpn: Vpn(10),
        gpn: Gpn(3),
        sort: Sort::Private,
        rights: Rights(3),
        mask: 0,
        source: ModId(0),
    });
    row_of(2, decls)
}

#[test]
fn pages_without_owners_are_everyones_but_for_code(rt: HostRuntime) -> Result<(), Fail> {
    let shadow = Shadow::empty(rt.alloc(), 4)?;
    assert!(rt; !shadow.owned(Gpn(3)));
    assert!(rt; shadow.admits(ModId(0), Vpn(7), Gpn(3), Kind::Fetch));
    assert!(rt; shadow.admits(ModId(1), Vpn(7), Gpn(3), Kind::Store));
    assert!(rt; !shadow.admits(ModId(1), Vpn(7), Gpn(3), Kind::Fetch));
    assert_eq!(rt; shadow.rights(ModId(0), Vpn(7), Gpn(3)).0, 7);
    assert_eq!(rt; shadow.rights(ModId(1), Vpn(7), Gpn(3)).0, 3);
    Ok(())
}

#[test]
fn a_private_page_is_its_modules_alone(rt: HostRuntime) -> Result<(), Fail> {
    let mut shadow = Shadow::empty(rt.alloc(), 4)?;
    shadow.add_row(&module_row());
    assert!(rt; shadow.owned(Gpn(2)));
    assert!(rt; !shadow.owned(Gpn(3)));
    assert_eq!(rt; shadow.rights(ModId(1), Vpn(7), Gpn(2)).0, 5);
    assert_eq!(rt; shadow.rights(ModId(0), Vpn(7), Gpn(2)).0, 0);
    assert_eq!(rt; shadow.rights(ModId(2), Vpn(7), Gpn(2)).0, 0);
    assert_eq!(rt; shadow.rights(ModId(1), Vpn(8), Gpn(2)).0, 0);
    assert_eq!(rt; shadow.rights(ModId(1), Vpn(7), Gpn(3)).0, 0);
    assert_eq!(rt; shadow.rights(ModId(1), Vpn(8), Gpn(3)).0, 3);
    Ok(())
}

#[test]
fn a_dropped_module_leaves_what_others_declare(rt: HostRuntime) -> Result<(), Fail> {
    let mut shadow = Shadow::empty(rt.alloc(), 4)?;
    shadow.add_row(&module_row());
    shadow.add_row(&accepting_row());
    assert_eq!(rt; shadow.rights(ModId(2), Vpn(9), Gpn(2)).0, 1);
    shadow.drop_row(&module_row());
    assert!(rt; shadow.owned(Gpn(2)) && shadow.owned(Gpn(3)));
    assert_eq!(rt; shadow.rights(ModId(2), Vpn(9), Gpn(2)).0, 0);
    assert_eq!(rt; shadow.rights(ModId(2), Vpn(10), Gpn(3)).0, 3);
    assert_eq!(rt; shadow.rights(ModId(0), Vpn(7), Gpn(2)).0, 0);
    shadow.drop_row(&accepting_row());
    assert!(rt; !shadow.owned(Gpn(2)) && !shadow.owned(Gpn(3)));
    assert_eq!(rt; shadow.rights(ModId(0), Vpn(7), Gpn(2)).0, 7);
    Ok(())
}
