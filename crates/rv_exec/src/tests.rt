ghost use Rattle.bn_model.specs.InsnRanges.{IsInRange};

use crate::tests::tables::{BRANCHES, IMMEDIATES, LOADS, REGISTERS, SHIFTS, WORD_SHIFTS, WORDS};
use crate::{act, extend};
use bn_types::{Act, Cause, CsrFrom, CsrOp, Insn, Reg, Regs, ShiftOp, Width};
use std::process::Abort;

mod tables;

const PC: u64 = 0x8000_0000;

const RD: Reg = Reg(1);

const LEFT: Reg = Reg(5);

const RIGHT: Reg = Reg(6);

fn regs_of(left: u64, right: u64) -> Regs {
    let mut x = [0; 32];
    x[5] = left;
    x[6] = right;
    Regs { x }
}

fn asks(rt: &impl Abort, insn: Insn, left: u64, right: u64, want: Act)
    requires { IsInRange insn }
{
    assert_eq!(rt; act(&insn, &regs_of(left, right), PC), want);
}

fn sets(rt: &impl Abort, insn: Insn, left: u64, right: u64, value: u64)
    requires { IsInRange insn }
{
    asks(rt, insn, left, right, Act::Set { rd: RD, value });
}

#[test]
fn instructions_of_two_registers(rt: HostRuntime) {
    for (op, left, right, value) in REGISTERS {
        let insn = Insn::Reg2 {
            op,
            rd: RD,
            left: LEFT,
            right: RIGHT,
        };
        sets(&rt, insn, left, right, value);
    }
}

#[test]
fn instructions_of_two_words(rt: HostRuntime) {
    for (op, left, right, value) in WORDS {
        let insn = Insn::Reg2W {
            op,
            rd: RD,
            left: LEFT,
            right: RIGHT,
        };
        sets(&rt, insn, left, right, value);
    }
}

#[test]
fn instructions_of_an_immediate(rt: HostRuntime) {
    for (op, left, imm, value) in IMMEDIATES {
        assert!(rt; imm >= -2048 && imm <= 2047);
        let insn = Insn::Imm {
            op,
            rd: RD,
            left: LEFT,
            imm,
        };
        sets(&rt, insn, left, 0, value);
    }
}

#[test]
fn shifts_by_an_immediate(rt: HostRuntime) {
    for (op, left, amount, value) in SHIFTS {
        assert!(rt; amount < 64);
        let insn = Insn::Shift {
            op,
            rd: RD,
            left: LEFT,
            amount,
        };
        sets(&rt, insn, left, 0, value);
    }
}

#[test]
fn word_shifts_by_an_immediate(rt: HostRuntime) {
    for (op, left, amount, value) in WORD_SHIFTS {
        assert!(rt; amount < 32);
        let insn = Insn::ShiftW {
            op,
            rd: RD,
            left: LEFT,
            amount,
        };
        sets(&rt, insn, left, 0, value);
    }
}

#[test]
fn branches(rt: HostRuntime) {
    for (test, left, right, taken) in BRANCHES {
        let insn = Insn::Branch {
            test,
            left: LEFT,
            right: RIGHT,
            offset: -8,
        };
        let jump = Act::Jump {
            target: 0x7fff_fff8,
            rd: Reg(0),
            link: 0x8000_0004,
        };
        asks(&rt, insn, left, right, if taken { jump } else { Act::Next });
    }
}

#[test]
fn loads_extend(rt: HostRuntime) {
    for (width, signed, raw, value) in LOADS {
        assert_eq!(rt; extend(width, signed, raw), value);
    }
}

#[test]
fn shifts_extend_words_and_jumps_link_by_pc(rt: HostRuntime) {
    let shift = Insn::ShiftW {
        op: ShiftOp::RightSigned,
        rd: RD,
        left: LEFT,
        amount: 31,
    };
    sets(&rt, shift, 0x8000_0000, 0, 0xffff_ffff_ffff_ffff);
    let add = Insn::AddiW {
        rd: RD,
        left: LEFT,
        imm: 1,
    };
    sets(&rt, add, 0x7fff_ffff, 0, 0xffff_ffff_8000_0000);
    let jump = Insn::Jalr {
        rd: RD,
        base: LEFT,
        offset: 0,
    };
    let there = Act::Jump {
        target: 0x8000_0004,
        rd: RD,
        link: 0x8000_0004,
    };
    asks(&rt, jump, 0x8000_0005, 0, there);
    let trap = Act::Trap {
        cause: Cause(0),
        value: 0x8000_0006,
    };
    asks(&rt, jump, 0x8000_0006, 0, trap);
}

#[test]
fn upper_immediates_and_jumps(rt: HostRuntime) {
    sets(
        &rt,
        Insn::Lui {
            rd: RD,
            imm: -0x8000_0000,
        },
        0,
        0,
        0xffff_ffff_8000_0000,
    );
    sets(&rt, Insn::Auipc { rd: RD, imm: -4096 }, 0, 0, 0x7fff_f000);
    let back = Act::Jump {
        target: 0x7ff0_0000,
        rd: RD,
        link: 0x8000_0004,
    };
    asks(
        &rt,
        Insn::Jal {
            rd: RD,
            offset: -0x10_0000,
        },
        0,
        0,
        back,
    );
}

#[test]
fn addresses_and_plain_acts(rt: HostRuntime) {
    let load = Insn::Load {
        width: Width::B2,
        signed: false,
        rd: RD,
        base: LEFT,
        offset: -2,
    };
    asks(
        &rt,
        load,
        1,
        0,
        Act::LoadAt {
            va: 0xffff_ffff_ffff_ffff,
            width: Width::B2,
            signed: false,
            rd: RD,
        },
    );
    let store = Insn::Store {
        width: Width::B8,
        base: LEFT,
        value: RIGHT,
        offset: 8,
    };
    asks(
        &rt,
        store,
        0x1000,
        77,
        Act::StoreAt {
            va: 0x1008,
            width: Width::B8,
            value: 77,
        },
    );
    asks(
        &rt,
        Insn::Fence {
            high: 0xff,
            rs1: RD,
            rd: RD,
        },
        0,
        0,
        Act::Next,
    );
    asks(&rt, Insn::Sret, 0, 0, Act::Sret);
}

#[test]
fn csr_instructions(rt: HostRuntime) {
    let write = Insn::Csr {
        op: CsrOp::Write,
        number: 0x305,
        from: CsrFrom::Register(LEFT),
        rd: Reg(0),
    };
    let written = Act::Csr {
        op: CsrOp::Write,
        number: 0x305,
        operand: 9,
        reads: false,
        writes: true,
        rd: Reg(0),
    };
    asks(&rt, write, 9, 0, written);
    let set = Insn::Csr {
        op: CsrOp::Set,
        number: 0x100,
        from: CsrFrom::Number(0),
        rd: RD,
    };
    let unset = Act::Csr {
        op: CsrOp::Set,
        number: 0x100,
        operand: 0,
        reads: true,
        writes: false,
        rd: RD,
    };
    asks(&rt, set, 0, 0, unset);
}
