ghost use Rattle.std.specs.Prelude.{◌≡◌, ◌^◌, ◌<◌, None, Some, true};
ghost use Rattle.bn_types.specs.declared.row_state.RowState.TheVariants.{Stopped};
ghost use Rattle.bn_model.specs.Soundness.{state_at};
ghost use Rattle.bn_switch.specs.Contexts.{IsSeated};

use crate::{CallRefused, Context, call, code_of, resume, ret, stop};
use arrayvec::ArrayVec;
use bn_table::Table;
use bn_types::{Digest, Judged, ModId, Mode, Reg, Regs, RowState, SavedFrame};
use std::process::Abort;

const A_ENTRY: u64 = 0x8001_0000;

const B_ENTRY: u64 = 0x8001_2000;

const KERNEL_CALL: u64 = 0x8000_0100;

/// A module with one entry.
fn judged(digest: u8, mode: Mode, entry: u64) -> Judged {
    let mut entries = ArrayVec::new();
    entries.push(entry);
    Judged {
        digest: Digest([digest; 32]),
        mode,
        entries,
        decls: ArrayVec::new(),
        partners: ArrayVec::new(),
    }
}

/// The module 1 of mode S, at A's entry, and the module 2, at B's.
fn table_with(mode_of_b: Mode) -> Table {
    let mut table = Table::empty();
    table.add(judged(1, Mode::S, A_ENTRY));
    table.add(judged(2, mode_of_b, B_ENTRY));
    table
}

/// Each register but x0 is the base and its number.
fn numbered(base: u64) -> Regs
    requires { base < 2 ^ 32 }
{
    let mut regs = Regs::zero();
    for i in 1..32 {
        regs.x[i] = base + i as u64;
    }
    regs
}

/// As `numbered`, but in a0 to a7 alone.
fn arguments(base: u64) -> Regs
    requires { base < 2 ^ 32 }
{
    let mut regs = Regs::zero();
    for i in 10..18 {
        regs.x[i] = base + i as u64;
    }
    regs
}

fn kernel_at(pc: u64, mode: Mode) -> Context
    ensures { result.seat ≡ None }
{
    Context {
        regs: numbered(1000),
        pc,
        mode,
        seat: None,
    }
}

/// A call that isn't refused.
fn enter(rt: &impl Abort, table: &mut Table, here: Context, rd: Reg, id: u64, entry: u64) -> Context
    requires register { rd.0 < 32 }
    requires seated { IsSeated table.old.rows here.seat }
    ensures running { IsSeated table.new.rows result.seat }
{
    match call(table, here, 0, rd, id, entry) {
        Ok(callee) => callee,
        Err((_refusal, here)) => {
            end(here);
            panic!(rt; "a call is refused")
        }
    }
}

/// A call that is refused, with this code.
fn expect_refused(
    rt: &impl Abort,
    table: &mut Table,
    here: Context,
    id: u64,
    entry: u64,
    code: i64,
) -> Context
    requires { IsSeated table.old.rows here.seat }
    ensures context { result ≡ here }
    ensures table { table.new ≡ table.old }
{
    match call(table, here, 0, Reg(5), id, entry) {
        Ok(callee) => {
            end(callee);
            panic!(rt; "a call isn't refused")
        }
        Err((refusal, here)) => {
            assert_eq!(rt; code_of(&refusal), code);
            here
        }
    }
}

fn give_back(rt: &impl Abort, table: &mut Table, here: Context) -> Context
    requires { IsSeated table.old.rows here.seat }
    ensures running { IsSeated table.new.rows result.seat }
{
    match &here.seat {
        Some(_) => {}
        None => panic!(rt; "no module runs"),
    }
    ret(table, here, 0)
}

fn stop_module(rt: &impl Abort, table: &mut Table, here: Context) -> Context
    requires { IsSeated table.old.rows here.seat }
    ensures { result.seat ≡ None }
{
    match &here.seat {
        Some(_) => {}
        None => panic!(rt; "no module runs"),
    }
    let here = stop(table, here);
    match &here.seat {
        Some(_) => panic!(rt; "a stopped module runs"),
        None => {}
    }
    here
}

fn end(here: Context) {
    let Context {
        regs: _,
        pc: _,
        mode: _,
        seat,
    } = here;
    match seat {
        Some(seat) => seat.end(),
        None => {}
    }
}

fn module_of(here: &Context) -> Option<ModId> {
    match &here.seat {
        Some(seat) => Some(seat.id()),
        None => None,
    }
}

fn state_of(table: &Table, id: ModId) -> Option<RowState> {
    match table.row(id) {
        Some(row) => Some(row.state),
        None => None,
    }
}

fn saved_of(table: &Table, id: ModId) -> Option<SavedFrame> {
    match table.row(id) {
        Some(row) => Some(row.saved),
        None => None,
    }
}

fn is_stopped(table: &Table, id: ModId) -> bool
    ensures { result ≡ true → state_at table.now.rows id.0 ≡ Some Stopped }
{
    match table.row(id) {
        Some(row) => match row.state {
            RowState::Stopped => true,
            _ => false,
        },
        None => false,
    }
}

#[test]
fn the_first_test_that_fails_is_told(rt: HostRuntime) {
    let mut table = table_with(Mode::U);
    let here = kernel_at(KERNEL_CALL, Mode::S);
    let here = expect_refused(&rt, &mut table, here, 1, 0x8001_0004, -2);
    let here = expect_refused(&rt, &mut table, here, 9, A_ENTRY, -1);
    let here = expect_refused(&rt, &mut table, here, 2, B_ENTRY, -3);
    // Two tests fail at once.
    let here = expect_refused(&rt, &mut table, here, 9, 0x8001_0004, -1);
    let here = expect_refused(&rt, &mut table, here, 2, A_ENTRY, -2);
    // Its low 16 bits are an id.
    let here = expect_refused(&rt, &mut table, here, 0x1_0001, A_ENTRY, -1);
    assert!(rt; here.regs == numbered(1000));
    assert_eq!(rt; here.pc, KERNEL_CALL);
    assert!(rt; state_of(&table, ModId(1)) == Some(RowState::Idle));
    end(here);
}

#[test]
fn a_stopped_module_is_busy(rt: HostRuntime) {
    let mut table = table_with(Mode::S);
    let here = kernel_at(KERNEL_CALL, Mode::S);
    let here = enter(&rt, &mut table, here, Reg(5), 1, A_ENTRY);
    let here = stop_module(&rt, &mut table, here);
    let here = expect_refused(&rt, &mut table, here, 1, A_ENTRY, -4);
    let mut here = expect_refused(&rt, &mut table, here, 1, B_ENTRY, -2);
    here.mode = Mode::U;
    let here = expect_refused(&rt, &mut table, here, 1, A_ENTRY, -3);
    end(here);
}

#[test]
fn calls_nest_and_return(rt: HostRuntime) {
    let mut table = table_with(Mode::S);
    let here = kernel_at(KERNEL_CALL, Mode::S);
    let mut here = enter(&rt, &mut table, here, Reg(18), 1, A_ENTRY);
    assert!(rt; here.regs == arguments(1000));
    assert_eq!(rt; here.pc, A_ENTRY);
    assert!(rt; module_of(&here) == Some(ModId(1)));
    here.pc = 0x8001_0010;
    here.regs = numbered(2000);
    let here = expect_refused(&rt, &mut table, here, 1, A_ENTRY, -4);
    let mut here = enter(&rt, &mut table, here, Reg(10), 2, B_ENTRY);
    // The register of the answer is an argument as well.
    assert!(rt; here.regs == arguments(2000));
    assert!(rt; module_of(&here) == Some(ModId(2)));
    assert!(rt; state_of(&table, ModId(1)) == Some(RowState::Waiting { callee: ModId(2) }));
    here.regs = numbered(3000);
    let here = expect_refused(&rt, &mut table, here, 1, A_ENTRY, -4);
    let here = give_back(&rt, &mut table, here);
    let mut expected = numbered(2000);
    expected.x[10] = 3010;
    expected.x[11] = 3011;
    assert!(rt; here.regs == expected);
    assert_eq!(rt; here.pc, 0x8001_0014);
    assert!(rt; module_of(&here) == Some(ModId(1)));
    assert!(rt; state_of(&table, ModId(2)) == Some(RowState::Idle));
    let here = give_back(&rt, &mut table, here);
    let mut expected = numbered(1000);
    expected.x[10] = 3010;
    expected.x[11] = 3011;
    expected.x[18] = 0;
    assert!(rt; here.regs == expected);
    assert_eq!(rt; here.pc, 0x8000_0104);
    assert!(rt; module_of(&here) == None);
    assert!(rt; state_of(&table, ModId(1)) == Some(RowState::Idle));
    end(here);
}

#[test]
fn a_stopped_module_goes_on_as_it_was(rt: HostRuntime) {
    let mut table = table_with(Mode::S);
    let here = kernel_at(KERNEL_CALL, Mode::S);
    let mut here = enter(&rt, &mut table, here, Reg(5), 1, A_ENTRY);
    here.pc = 0x8001_0008;
    here.regs = numbered(0);
    let mut here = stop_module(&rt, &mut table, here);
    assert!(rt; here.regs == Regs::zero());
    assert!(rt; is_stopped(&table, ModId(1)));
    here.pc = 0x8001_0008;
    let here = resume(&mut table, here, 1, ModId(1));
    assert!(rt; here.regs == numbered(0));
    assert_eq!(rt; here.pc, 0x8001_0008);
    assert!(rt; here.mode == Mode::S);
    assert!(rt; module_of(&here) == Some(ModId(1)));
    assert!(rt; state_of(&table, ModId(1)) == Some(RowState::Running { hart: 1 }));
    assert!(rt; saved_of(&table, ModId(1)) == Some(SavedFrame::zero()));
    end(here);
}

#[test]
fn each_refusal_has_its_code(rt: HostRuntime) {
    assert_eq!(rt; code_of(&CallRefused::NoModule), -1);
    assert_eq!(rt; code_of(&CallRefused::NotEntry), -2);
    assert_eq!(rt; code_of(&CallRefused::ModeDiffers), -3);
    assert_eq!(rt; code_of(&CallRefused::Busy), -4);
}
