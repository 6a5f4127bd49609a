ghost use Rattle.std.specs.Prelude.{◌≡◌};
ghost use Rattle.bn_model.specs.Refusals.{minus};
ghost use Rattle.bn_switch.specs.Refusals.{call_code};

use crate::CallRefused;

/// The code of a refusal, which the guest gets in 64 bits: -1 to -4.
pub fn code_of(refusal: &CallRefused) -> i64
    ensures { result ≡ minus (call_code refusal.now) }
{
    match refusal {
        CallRefused::NoModule => -1,
        CallRefused::NotEntry => -2,
        CallRefused::ModeDiffers => -3,
        CallRefused::Busy => -4,
    }
}
