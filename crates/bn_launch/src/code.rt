ghost use Rattle.std.specs.Prelude.{◌≡◌, ◌+◌};
ghost use Rattle.bn_model.specs.Refusals.{launch_code, minus, seg_fault_number};

use bn_types::{LaunchRefused, SegFault};

/// The code of a refusal, which the guest gets in 64 bits: -1 to -9, and -16 minus the number of
/// the test that a segment's text fails.
pub fn code_of(refusal: &LaunchRefused) -> i64
    ensures { result ≡ minus (launch_code refusal.now) }
{
    match refusal {
        LaunchRefused::Address => -1,
        LaunchRefused::Unmapped => -2,
        LaunchRefused::NoPage => -3,
        LaunchRefused::Owned => -4,
        LaunchRefused::Alias => -5,
        LaunchRefused::NotOffered => -6,
        LaunchRefused::Duplicate => -7,
        LaunchRefused::TableFull => -8,
        LaunchRefused::IdsSpent => -9,
        LaunchRefused::Segment(fault) => code_of_fault(*fault),
    }
}

fn code_of_fault(fault: SegFault) -> i64
    ensures { result ≡ minus (16 + seg_fault_number fault) }
{
    match fault {
        SegFault::Magic => -16,
        SegFault::Version => -17,
        SegFault::Mode => -18,
        SegFault::Entries => -19,
        SegFault::Pages => -20,
        SegFault::Order => -21,
        SegFault::Sort => -22,
        SegFault::RightsBits => -23,
        SegFault::EntryPlace => -24,
        SegFault::PartnerPlace => -25,
        SegFault::Padding => -26,
    }
}
