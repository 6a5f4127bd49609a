ghost use Rattle.std.specs.Prelude.{◌≡◌, ◌<◌, ◌≤◌, length};
ghost use Rattle.bn_model.specs.CsrFile.{HasMode};

use super::flat::{Flat, read_all};
use super::memory::{changed_module, pages, put, put_module, put_tables, put_translated_module};
use super::rows::{ACCEPTING, MODULE, full_table, known, offering, table_with};
use crate::{LaunchRefused, code_of, judge};
use bn_table::Table;
use bn_types::{Digest, Judged, Mode, Sort, Steps};
use std::marker::Brand;
use std::sync::ledger::{Blank, Ledger};
use std::test::Fail;

/// Sv39 with the root table on page 1.
const SATP: u64 = 0x8000000000080001;

/// The address of page 8.
const TEXT: u64 = 0x80008000;

fn judge_by<L: Ledger>(
    blank: Blank,
    table: &Table,
    flat: &Flat,
    satp: u64,
    at: u64,
) -> Result<Judged, LaunchRefused>
    requires name { blank.name ≡ L.name }
    requires parts { blank.parts ≡ L.parts }
    requires some { 0 < L.parts }
    requires mode { HasMode satp }
    requires few { length flat.now.pages.now ≤ 4096 }
{
    // For the prover: what holds of every list of pages.
    read_all(flat.pages);
    let mut steps = Steps::<L>::open(blank);
    judge(table, flat, satp, at, &mut steps)
}

fn judge_once(table: &Table, flat: &Flat, satp: u64, at: u64) -> Result<Judged, LaunchRefused>
    requires mode { HasMode satp }
    requires few { length flat.now.pages.now ≤ 4096 }
{
    judge_by::<Brand>(Blank::new(1), table, flat, satp, at)
}

fn launch(table: &Table, pages: &[Option<[u8; 4096]>], at: u64) -> Result<Judged, LaunchRefused>
    requires { length pages.now ≤ 4096 }
{
    judge_once(table, &Flat { pages }, 0, at)
}

/// The code of the refusal, or 0.
fn code_at(table: &Table, pages: &[Option<[u8; 4096]>], at: u64) -> i64
    requires { length pages.now ≤ 4096 }
{
    match launch(table, pages, at) {
        Ok(_) => 0,
        Err(refusal) => code_of(&refusal),
    }
}

/// The code of the refusal of the text at virtual page 8, or 0.
fn code_by_tables(pages: &[Option<[u8; 4096]>]) -> i64
    requires { length pages.now ≤ 4096 }
{
    match judge_once(&Table::empty(), &Flat { pages }, SATP, 0x8000) {
        Ok(_) => 0,
        Err(refusal) => code_of(&refusal),
    }
}

#[test]
fn a_module_has_the_digest_of_its_text_and_pages(rt: HostRuntime) -> Result<(), Fail> {
    let mut pages = pages();
    put_module(&mut pages);
    let Ok(judged) = launch(&Table::empty(), &pages, TEXT) else {
        panic!(rt; "the launch is refused");
    };
    assert!(rt; judged.digest == Digest(MODULE));
    assert!(rt; judged.mode == Mode::S);
    assert!(rt; judged.entries.as_slice() == [0x80010000].as_slice());
    let reached = judged
        .decls
        .iter()
        .map(|decl| (decl.vpn.0, decl.gpn.0, decl.rights.0));
    assert!(rt; reached.eq([(0x80010, 16, 5), (0x80011, 17, 3)]));
    Ok(())
}

#[test]
fn the_text_lies_in_one_page_that_can_be_read(rt: HostRuntime) -> Result<(), Fail> {
    let mut pages = pages();
    put_module(&mut pages);
    pages[9] = None;
    for (at, code) in [
        (TEXT + 4, -1),
        (TEXT + 2872, -1),
        (TEXT + 2864, -16),
        (0, -2),
        (0x80018000, -2),
        (0x80009000, -2),
    ] {
        assert_eq!(rt; code_at(&Table::empty(), &pages, at), code, "at {at}");
    }
    Ok(())
}

#[test]
fn a_text_is_judged_before_its_pages(rt: HostRuntime) -> Result<(), Fail> {
    for (at, byte, code) in [(0, 0x42, 0), (3, 0x48, -16), (1231, 1, -26), (97, 1, -3)] {
        let mut pages = changed_module(at, byte);
        assert_eq!(rt; code_at(&Table::empty(), &pages, TEXT), code, "at {at}");
        pages[16] = None;
        let code = if code == 0 { -4 } else { code };
        assert_eq!(rt;
            code_at(&Table::empty(), &pages, TEXT),
            code,
            "owned, at {at}"
        );
    }
    Ok(())
}

#[test]
fn owned_pages_are_told_before_aliases(rt: HostRuntime) -> Result<(), Fail> {
    let mut pages = pages();
    assert_eq!(rt; code_by_tables(&pages), -2);
    put_tables(&mut pages);
    put_translated_module(&mut pages);
    assert_eq!(rt; code_by_tables(&pages), -5);
    pages[16] = None;
    assert_eq!(rt; code_by_tables(&pages), -4);
    put(&mut pages, 8, 0, &[0]);
    assert_eq!(rt; code_by_tables(&pages), -16);
    Ok(())
}

#[test]
fn a_page_is_accepted_from_the_module_that_offers_it(rt: HostRuntime) -> Result<(), Fail> {
    let mut pages = pages();
    put_module(&mut pages);
    put(&mut pages, 8, 96, &[0x14, 0, 8, 0, 0, 0, 0, 0, 3, 1, 0]);
    pages[20] = None;
    assert_eq!(rt; code_at(&Table::empty(), &pages, TEXT), -6);
    let Ok(judged) = launch(&table_with(offering()), &pages, TEXT) else {
        panic!(rt; "the launch is refused");
    };
    assert!(rt; judged.digest == Digest(ACCEPTING));
    let sources = judged
        .decls
        .iter()
        .map(|decl| (decl.gpn.0, decl.sort, decl.source.0));
    assert!(rt; sources.eq([(16, Sort::Private, 0), (20, Sort::Accept, 1)]));
    Ok(())
}

#[test]
fn the_table_is_asked_last(rt: HostRuntime) -> Result<(), Fail> {
    let mut pages = pages();
    put_module(&mut pages);
    assert_eq!(rt;
        code_at(&table_with(known(Digest(MODULE))), &pages, TEXT),
        -7
    );
    assert_eq!(rt; code_at(&full_table(), &pages, TEXT), -8);
    Ok(())
}
