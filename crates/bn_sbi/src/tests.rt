use crate::{SbiAsk, ask};
use bn_types::Regs;
use std::process::Abort;

const HART_START: (u64, u64) = (0x48534d, 0);

const SEND_IPI: (u64, u64) = (0x735049, 0);

/// Of four harts the first is started.
const STARTED: [bool; 4] = [true, false, false, false];

/// The registers of a call, given by its a7 and a6.
fn registers(call: (u64, u64), arguments: [u64; 3]) -> Regs {
    let mut regs = Regs::zero();
    regs.x[17] = call.0;
    regs.x[16] = call.1;
    regs.x[10] = arguments[0];
    regs.x[11] = arguments[1];
    regs.x[12] = arguments[2];
    regs
}

fn expect(rt: &impl Abort, call: (u64, u64), arguments: [u64; 3], wanted: SbiAsk) {
    assert!(rt; ask(&registers(call, arguments), 4, &STARTED) == wanted);
}

fn refused(code: u64) -> SbiAsk {
    SbiAsk::Refuse {
        a0: 0u64.wrapping_sub(code),
    }
}

fn ipi(harts: u8) -> SbiAsk {
    SbiAsk::Ipi { harts }
}

#[test]
fn legacy_calls_ignore_a6(rt: HostRuntime) {
    expect(&rt, (0, 5), [77, 1, 2], SbiAsk::SetTimer(77));
    expect(&rt, (1, 5), [0x141, 1, 2], SbiAsk::Put(0x41));
    expect(&rt, (2, 5), [0, 1, 2], SbiAsk::Get);
    expect(&rt, (8, 5), [0, 1, 2], SbiAsk::Shutdown);
}

#[test]
fn other_calls_are_not_supported(rt: HostRuntime) {
    expect(&rt, (3, 0), [0, 0, 0], refused(2));
    expect(&rt, (7, 0), [0, 0, 0], refused(2));
    expect(&rt, (u64::MAX, 0), [0, 0, 0], refused(2));
    expect(&rt, (0x48534d, 1), [1, 0x8000_3000, 7], refused(2));
    expect(&rt, (0x735049, 1), [1, 0, 0], refused(2));
}

#[test]
fn a_hart_starts_once_at_a_multiple_of_4(rt: HostRuntime) {
    expect(&rt, HART_START, [4, 0x8000_3000, 0], refused(3));
    expect(&rt, HART_START, [1, 0x8000_0002, 0], refused(5));
    expect(&rt, HART_START, [0, 0x8000_0000, 0], refused(6));
    // Two tests fail at once.
    expect(&rt, HART_START, [4, 0x8000_0002, 0], refused(3));
    expect(&rt, HART_START, [0, 0x8000_0002, 0], refused(5));
    // The low byte names a hart.
    expect(&rt, HART_START, [0x101, 0x8000_3000, 0], refused(3));
    let wanted = SbiAsk::Start {
        hart: 1,
        pc: 0x8000_3000,
        opaque: 7,
    };
    expect(&rt, HART_START, [1, 0x8000_3000, 7], wanted);
}

#[test]
fn an_interrupt_goes_to_harts_that_there_are(rt: HostRuntime) {
    expect(&rt, SEND_IPI, [0b1010, 0, 0], ipi(0b1010));
    expect(&rt, SEND_IPI, [0b11, 1, 0], ipi(0b110));
    expect(&rt, SEND_IPI, [0b1, 3, 0], ipi(0b1000));
    expect(&rt, SEND_IPI, [0, 100, 0], ipi(0));
    expect(&rt, SEND_IPI, [0b10, 3, 0], refused(3));
    expect(&rt, SEND_IPI, [1 << 63 | 1, 0, 0], refused(3));
    // The sum would wrap to 0.
    expect(&rt, SEND_IPI, [0b100, u64::MAX - 1, 0], refused(3));
    expect(&rt, SEND_IPI, [0b1 << 63, u64::MAX, 0], ipi(0b1111));
}

#[test]
fn all_harts_are_those_that_there_are(rt: HostRuntime) {
    let all = registers(SEND_IPI, [0, u64::MAX, 0]);
    assert!(rt; ask(&all, 1, &STARTED) == ipi(0b1));
    assert!(rt; ask(&all, 3, &STARTED) == ipi(0b111));
    let second = registers(SEND_IPI, [0b10, 0, 0]);
    assert!(rt; ask(&second, 1, &STARTED) == refused(3));
    assert!(rt; ask(&second, 2, &STARTED) == ipi(0b10));
}
