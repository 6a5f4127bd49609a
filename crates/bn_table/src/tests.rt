use crate::{EvictRefused, Table};
use arrayvec::ArrayVec;
use bn_types::{Decl, Digest, Gpn, Judged, ModId, Mode, Rights, RowState, SavedFrame, Sort, Vpn};
use std::test::Fail;

/// A module that offers page 20 with loads and stores to its second partner.
fn offering() -> Judged {
    let mut decls = ArrayVec::new();
    decls.push(Decl {
        vpn: Vpn(7),
        gpn: Gpn(20),
        sort: Sort::Offer,
        rights: Rights(3),
        mask: 2,
        source: ModId(0),
    });
    let mut partners = ArrayVec::new();
    partners.push(Digest([5; 32]));
    partners.push(Digest([6; 32]));
    Judged {
        digest: Digest([1; 32]),
        mode: Mode::S,
        entries: ArrayVec::new(),
        decls,
        partners,
    }
}

#[test]
fn the_first_module_is_number_1(rt: HostRuntime) -> Result<(), Fail> {
    let mut table = Table::empty();
    assert_eq!(rt; table.next_id(), 1);
    let id = table.add(offering());
    assert_eq!(rt; id.0, 1);
    assert_eq!(rt; table.next_id(), 2);
    assert_eq!(rt; table.live(), 1);
    assert!(rt; table.has_identity(&Digest([1; 32])));
    assert!(rt; !table.has_identity(&Digest([5; 32])));
    assert!(rt; table.row(ModId(2)).is_none());
    Ok(())
}

#[test]
fn an_offer_is_for_its_partners_with_its_rights(rt: HostRuntime) -> Result<(), Fail> {
    let mut table = Table::empty();
    table.add(offering());
    assert!(rt; table.offer(Gpn(20), &Digest([6; 32]), Rights(1)) == Some(ModId(1)));
    assert!(rt; table.offer(Gpn(20), &Digest([6; 32]), Rights(3)) == Some(ModId(1)));
    assert!(rt; table.offer(Gpn(20), &Digest([6; 32]), Rights(5)) == None);
    assert!(rt; table.offer(Gpn(20), &Digest([5; 32]), Rights(1)) == None);
    assert!(rt; table.offer(Gpn(21), &Digest([6; 32]), Rights(1)) == None);
    Ok(())
}

#[test]
fn a_called_module_runs_until_it_returns(rt: HostRuntime) -> Result<(), Fail> {
    let mut table = Table::empty();
    let id = table.add(offering());
    let mut back = SavedFrame::zero();
    back.pc = 0x8000_0004;
    let seat = table.enter(id, 2, ModId(0), back);
    assert!(rt; state_of(&table, id) == Some(RowState::Running { hart: 2 }));
    let left = table.leave(seat);
    assert_eq!(rt; left.caller.0, 0);
    assert_eq!(rt; left.back.pc, 0x8000_0004);
    assert!(rt; state_of(&table, id) == Some(RowState::Idle));
    Ok(())
}

/// A module of the other identity, whose code is page 30 at the virtual page 9.
fn running() -> Judged {
    let mut decls = ArrayVec::new();
    decls.push(Decl {
        vpn: Vpn(9),
        gpn: Gpn(30),
        sort: Sort::Private,
        rights: Rights(5),
        mask: 0,
        source: ModId(0),
    });
    Judged {
        digest: Digest([2; 32]),
        mode: Mode::S,
        entries: ArrayVec::new(),
        decls,
        partners: ArrayVec::new(),
    }
}

/// A frame in mode S whose x5 is 55.
fn frame_at(pc: u64) -> SavedFrame {
    let mut frame = SavedFrame::zero();
    frame.pc = pc;
    frame.mode = Mode::S;
    frame.regs.x[5] = 55;
    frame
}

#[test]
#[tactic(auto, unfolding(bn_model::specs::Rows::with_row))]
fn a_stopped_module_is_found_at_its_pc_and_goes_on(rt: HostRuntime) -> Result<(), Fail> {
    let mut table = Table::empty();
    let id = table.add(running());
    let seat = table.enter(id, 0, ModId(0), SavedFrame::zero());
    table.stop(seat, frame_at(0x9010));
    assert!(rt; state_of(&table, id) == Some(RowState::Stopped));
    assert!(rt; table.stopped_at(Gpn(30), Vpn(9), 0x9010, Mode::S) == Some(id));
    assert!(rt; table.stopped_at(Gpn(30), Vpn(9), 0x9014, Mode::S) == None);
    assert!(rt; table.stopped_at(Gpn(30), Vpn(9), 0x9010, Mode::U) == None);
    assert!(rt; table.stopped_at(Gpn(31), Vpn(9), 0x9010, Mode::S) == None);
    let (seat, frame) = table.resume(id, 3);
    assert!(rt; state_of(&table, id) == Some(RowState::Running { hart: 3 }));
    assert_eq!(rt; (frame.pc, frame.regs.x[5]), (0x9010, 55));
    seat.end();
    assert!(rt; state_of(&table, id) == Some(RowState::Running { hart: 3 }));
    Ok(())
}

#[test]
#[tactic(auto, unfolding(bn_model::specs::Rows::with_row))]
fn a_module_that_called_another_waits_for_it(rt: HostRuntime) -> Result<(), Fail> {
    let mut table = Table::empty();
    let first = table.add(offering());
    let second = table.add(running());
    let seat = table.enter(first, 0, ModId(0), SavedFrame::zero());
    table.wait(seat, frame_at(0x7008), second);
    assert!(rt; state_of(&table, first) == Some(RowState::Waiting { callee: second }));
    let seat = table.enter(second, 0, first, SavedFrame::zero());
    let left = table.leave(seat);
    assert!(rt; left.caller == first);
    let (seat, frame) = table.come_back(first, 0);
    assert!(rt; seat.id() == first);
    assert_eq!(rt; frame.pc, 0x7008);
    seat.end();
    Ok(())
}

#[test]
#[tactic(auto, unfolding(bn_model::specs::Rows::with_row))]
fn a_blanked_row_keeps_pc_and_mode_alone(rt: HostRuntime) -> Result<(), Fail> {
    let mut table = Table::empty();
    let id = table.add(running());
    let seat = table.enter(id, 0, ModId(0), SavedFrame::zero());
    table.stop(seat, frame_at(0x9010));
    table.blank(id);
    let (seat, frame) = table.resume(id, 0);
    assert!(rt; frame.mode == Mode::S);
    assert_eq!(rt; (frame.pc, frame.regs.x[5]), (0x9010, 0));
    seat.end();
    Ok(())
}

fn state_of(table: &Table, id: ModId) -> Option<RowState> {
    match table.row(id) {
        Some(row) => Some(row.state),
        None => None,
    }
}

/// A table where module 1 waits for module 2, which is stopped, and module 3 is idle.
#[tactic(auto, unfolding(bn_model::specs::Rows::with_row))]
fn chained() -> Table {
    let mut table = Table::empty();
    let first = table.add(offering());
    let second = table.add(running());
    table.add(offering());
    let seat = table.enter(first, 0, ModId(0), SavedFrame::zero());
    table.wait(seat, frame_at(0x7008), second);
    let seat = table.enter(second, 0, first, SavedFrame::zero());
    table.stop(seat, frame_at(0x9010));
    table
}

#[test]
fn a_waiting_caller_goes_with_a_stopped_module(rt: HostRuntime) -> Result<(), Fail> {
    let mut table = chained();
    assert!(rt; table.evict(ModId(1)).err() == Some(EvictRefused::Busy));
    assert!(rt; table.evict(ModId(4)).err() == Some(EvictRefused::NoModule));
    assert_eq!(rt; table.live(), 3);
    let Ok(gone) = table.evict(ModId(2)) else {
        panic!(rt; "the eviction is refused");
    };
    assert!(rt; gone.iter().map(|row| row.id.0).eq([2, 1]));
    assert_eq!(rt; table.live(), 1);
    assert!(rt; state_of(&table, ModId(3)) == Some(RowState::Idle));
    assert_eq!(rt; table.next_id(), 4);
    Ok(())
}

#[test]
fn an_idle_module_goes_alone(rt: HostRuntime) -> Result<(), Fail> {
    let mut table = chained();
    let Ok(gone) = table.evict(ModId(3)) else {
        panic!(rt; "the eviction is refused");
    };
    assert!(rt; gone.iter().map(|row| row.id.0).eq([3]));
    assert!(rt; table.evict(ModId(3)).err() == Some(EvictRefused::NoModule));
    assert_eq!(rt; table.live(), 2);
    Ok(())
}

#[test]
fn each_refused_eviction_has_its_code(rt: HostRuntime) -> Result<(), Fail> {
    assert_eq!(rt; EvictRefused::NoModule.code(), -1);
    assert_eq!(rt; EvictRefused::Busy.code(), -2);
    Ok(())
}
