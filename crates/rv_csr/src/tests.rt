use crate::{CsrAsked, Csrs, Illegal, Wires};
use bn_types::{Cause, CsrOp, Mode};
use std::process::Abort;

const SSTATUS: u16 = 0x100;

const SIE: u16 = 0x104;

const STVEC: u16 = 0x105;

const SIP: u16 = 0x144;

const SATP: u16 = 0x180;

const CLOCK: u64 = 1_000;

const RETIRED: u64 = 77;

const QUIET: Wires = Wires {
    timer: false,
    external: false,
};

const BOTH: Wires = Wires {
    timer: true,
    external: true,
};

fn reads(rt: &impl Abort, csrs: &Csrs, number: u16, value: u64) {
    assert_eq!(rt;
        csrs.read(number, Mode::S, &QUIET, CLOCK, RETIRED),
        Ok(value)
    );
}

fn writes(rt: &impl Abort, csrs: &mut Csrs, number: u16, value: u64) {
    assert_eq!(rt; csrs.write(number, value, Mode::S), Ok(()));
}

#[test]
fn satp_takes_bare_and_sv39_alone(rt: HostRuntime) {
    let mut csrs = Csrs::reset();
    reads(&rt, &csrs, SATP, 0);
    writes(&rt, &mut csrs, SATP, 0x9000_0000_0008_0010);
    reads(&rt, &csrs, SATP, 0);
    writes(&rt, &mut csrs, SATP, 0x8000_0000_0008_0010);
    reads(&rt, &csrs, SATP, 0x8000_0000_0008_0010);
    assert_eq!(rt; csrs.satp(), 0x8000_0000_0008_0010);
}

#[test]
fn bits_that_are_not_there_read_0(rt: HostRuntime) {
    let mut csrs = Csrs::reset();
    let written = [
        (SSTATUS, 0x0000_0002_000c_0122),
        (SIE, 0x222),
        (STVEC, 0xffff_ffff_ffff_fffd),
        (0x140, 0xffff_ffff_ffff_ffff),
        (0x141, 0xffff_ffff_ffff_fffc),
        (0x142, 0xffff_ffff_ffff_ffff),
        (0x143, 0xffff_ffff_ffff_ffff),
        (SIP, 0x2),
        (SATP, 0),
    ];
    for (number, value) in written {
        writes(&rt, &mut csrs, number, 0xffff_ffff_ffff_ffff);
        reads(&rt, &csrs, number, value);
    }
    assert!(rt; csrs.sum() && csrs.mxr());
    assert_eq!(rt; csrs.read(SIP, Mode::S, &BOTH, CLOCK, RETIRED), Ok(0x222));
}

#[test]
fn counters_are_read_in_mode_s_alone(rt: HostRuntime) {
    let mut csrs = Csrs::reset();
    for (number, value) in [(0xc00, CLOCK), (0xc01, CLOCK), (0xc02, RETIRED)] {
        reads(&rt, &csrs, number, value);
        assert_eq!(rt;
            csrs.read(number, Mode::U, &QUIET, CLOCK, RETIRED),
            Err(Illegal)
        );
        assert_eq!(rt; csrs.write(number, 0, Mode::S), Err(Illegal));
    }
    assert_eq!(rt;
        csrs.read(0x300, Mode::S, &QUIET, CLOCK, RETIRED),
        Err(Illegal)
    );
    assert_eq!(rt; csrs.write(SATP, 0, Mode::U), Err(Illegal));
}

#[test]
fn a_trap_and_the_way_back(rt: HostRuntime) {
    let mut csrs = Csrs::reset();
    writes(&rt, &mut csrs, STVEC, 0x8000_1001);
    writes(&rt, &mut csrs, SSTATUS, 0x2);
    let timer = Cause(0x8000_0000_0000_0005);
    assert_eq!(rt;
        csrs.enter_trap(timer, 0x8000_0040, 0, Mode::S),
        0x8000_1014
    );
    reads(&rt, &csrs, SSTATUS, 0x2_0000_0120);
    reads(&rt, &csrs, 0x141, 0x8000_0040);
    reads(&rt, &csrs, 0x142, 0x8000_0000_0000_0005);
    assert_eq!(rt; csrs.sret(), (0x8000_0040, Mode::S));
    reads(&rt, &csrs, SSTATUS, 0x2_0000_0022);
    assert_eq!(rt;
        csrs.enter_trap(Cause(13), 0x8000_0044, 0x1234, Mode::U),
        0x8000_1000
    );
    reads(&rt, &csrs, 0x143, 0x1234);
    assert_eq!(rt; csrs.sret(), (0x8000_0044, Mode::U));
}

#[test]
fn interrupts_by_mode_and_order(rt: HostRuntime) {
    let mut csrs = Csrs::reset();
    writes(&rt, &mut csrs, SIE, 0x222);
    csrs.raise_software();
    assert_eq!(rt; csrs.pending(Mode::S, &BOTH), None);
    assert_eq!(rt;
        csrs.pending(Mode::U, &BOTH),
        Some(Cause(0x8000_0000_0000_0009))
    );
    assert_eq!(rt;
        csrs.pending(Mode::U, &QUIET),
        Some(Cause(0x8000_0000_0000_0001))
    );
    writes(&rt, &mut csrs, SIP, 0);
    writes(&rt, &mut csrs, SSTATUS, 0x2);
    let timer = Wires {
        timer: true,
        external: false,
    };
    assert_eq!(rt;
        csrs.pending(Mode::S, &timer),
        Some(Cause(0x8000_0000_0000_0005))
    );
    assert_eq!(rt; csrs.pending(Mode::S, &QUIET), None);
}

#[test]
fn csr_instructions_read_and_write(rt: HostRuntime) {
    let mut csrs = Csrs::reset();
    let set = CsrAsked {
        op: CsrOp::Set,
        number: SIE,
        operand: 0x222,
        reads: true,
        writes: true,
    };
    assert_eq!(rt; csrs.operate(&set, Mode::S, &QUIET, CLOCK, RETIRED), Ok(0));
    let clear = CsrAsked {
        op: CsrOp::Clear,
        number: SIE,
        operand: 0x20,
        reads: true,
        writes: true,
    };
    assert_eq!(rt;
        csrs.operate(&clear, Mode::S, &QUIET, CLOCK, RETIRED),
        Ok(0x222)
    );
    reads(&rt, &csrs, SIE, 0x202);
    let write = CsrAsked {
        op: CsrOp::Write,
        number: SIE,
        operand: 0,
        reads: false,
        writes: true,
    };
    assert_eq!(rt;
        csrs.operate(&write, Mode::S, &QUIET, CLOCK, RETIRED),
        Ok(0)
    );
    let time = CsrAsked {
        op: CsrOp::Set,
        number: 0xc01,
        operand: 0,
        reads: true,
        writes: false,
    };
    assert_eq!(rt;
        csrs.operate(&time, Mode::S, &QUIET, CLOCK, RETIRED),
        Ok(CLOCK)
    );
    let counted = CsrAsked {
        op: CsrOp::Set,
        number: 0xc01,
        operand: 0,
        reads: true,
        writes: true,
    };
    assert_eq!(rt;
        csrs.operate(&counted, Mode::S, &QUIET, CLOCK, RETIRED),
        Err(Illegal)
    );
    reads(&rt, &csrs, SIE, 0);
}
