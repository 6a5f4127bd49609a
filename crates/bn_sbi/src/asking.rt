ghost use Rattle.std.specs.Prelude.{◌≡◌, ◌≤◌, slice_index, take};
ghost use Rattle.bn_model.specs.Hypervisor.{ask_by, ask_of, call_of};

use crate::errors::NOT_SUPPORTED;
use crate::sending::send;
use crate::starting::start;
use bn_types::{Regs, SbiAsk};

const SET_TIMER: u64 = 0;

const CONSOLE_PUTCHAR: u64 = 1;

const CONSOLE_GETCHAR: u64 = 2;

const SHUTDOWN: u64 = 8;

const HART_STATE_MANAGEMENT: u64 = 0x48534d;

const SEND_IPI: u64 = 0x735049;

/// What a call to the hypervisor asks for, by the caller's registers, the number of harts, at most
/// 4, and which of them are started. What is told of harts that there aren't plays no part.
///
/// Refused are, by the error in a0: a call that there isn't (-2), a number that is no hart's (-3),
/// a start at an address that isn't a multiple of 4 (-5), the start of a hart that is started (-6).
#[tactic(auto, unfolding(bn_model::specs::Hypervisor::ask_of))]
pub fn ask(regs: &Regs, harts: u8, started: &[bool; 4]) -> SbiAsk
    requires { harts ≤ 4 }
    ensures { result ≡ ask_of regs.now harts (take harts started.now) }
{
    ask_by_number(&call_in(regs), harts, started)
}

/// A call to the hypervisor, as it stands in the registers (RISC-V calling conventions, "Integer
/// Register Convention").
#[derive(Clone, Copy, Debug)]
struct Call {
    /// From a7.
    extension: u64,
    /// From a6.
    function: u64,
    a0: u64,
    a1: u64,
    a2: u64,
}

fn call_in(regs: &Regs) -> Call
    ensures extension { result.extension ≡ slice_index regs.now.x 17 }
    ensures function { result.function ≡ slice_index regs.now.x 16 }
    ensures a0 { result.a0 ≡ slice_index regs.now.x 10 }
    ensures a1 { result.a1 ≡ slice_index regs.now.x 11 }
    ensures a2 { result.a2 ≡ slice_index regs.now.x 12 }
{
    Call {
        extension: regs.x[17],
        function: regs.x[16],
        a0: regs.x[10],
        a1: regs.x[11],
        a2: regs.x[12],
    }
}

/// The legacy calls ignore a6.
#[tactic(auto, unfolding(bn_model::specs::Hypervisor::call_of))]
fn ask_by_number(call: &Call, harts: u8, started: &[bool; 4]) -> SbiAsk
    requires { harts ≤ 4 }
    ensures { result ≡ ask_by (call_of call.now.extension call.now.function) harts
        (take harts started.now) call.now.a0 call.now.a1 call.now.a2 }
{
    match call.extension {
        SET_TIMER => SbiAsk::SetTimer(call.a0),
        CONSOLE_PUTCHAR => SbiAsk::Put((call.a0 & 0xff) as u8),
        CONSOLE_GETCHAR => SbiAsk::Get,
        SHUTDOWN => SbiAsk::Shutdown,
        HART_STATE_MANAGEMENT if call.function == 0 => {
            start(harts, started, call.a0, call.a1, call.a2)
        }
        SEND_IPI if call.function == 0 => send(harts, call.a0, call.a1),
        _ => SbiAsk::Refuse { a0: NOT_SUPPORTED },
    }
}
