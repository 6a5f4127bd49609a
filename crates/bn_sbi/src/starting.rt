ghost use Rattle.std.specs.Prelude.{◌≡◌, ◌≤◌, take};
ghost use Rattle.bn_model.specs.Hypervisor.{ask_of_start};

use crate::errors::{ALREADY_AVAILABLE, INVALID_ADDRESS, INVALID_PARAMETER};
use bn_types::SbiAsk;

/// HART_START: starts a hart at a multiple of 4. Whether that lies in RAM isn't tested.
pub fn start(harts: u8, started: &[bool; 4], hart: u64, pc: u64, opaque: u64) -> SbiAsk
    requires { harts ≤ 4 }
    ensures { result ≡ ask_of_start harts (take harts started.now) hart pc opaque }
{
    if hart >= harts as u64 {
        return SbiAsk::Refuse {
            a0: INVALID_PARAMETER,
        };
    }
    if pc % 4 != 0 {
        return SbiAsk::Refuse {
            a0: INVALID_ADDRESS,
        };
    }
    if started[hart as usize] {
        return SbiAsk::Refuse {
            a0: ALREADY_AVAILABLE,
        };
    }
    SbiAsk::Start {
        hart: hart as u8,
        pc,
        opaque,
    }
}
