use crate::{LaunchRefused, code_of};
use bn_types::SegFault;
use std::test::Fail;

#[test]
fn each_refusal_has_its_code(rt: HostRuntime) -> Result<(), Fail> {
    for (refusal, code) in [
        (LaunchRefused::Address, -1),
        (LaunchRefused::Unmapped, -2),
        (LaunchRefused::NoPage, -3),
        (LaunchRefused::Owned, -4),
        (LaunchRefused::Alias, -5),
        (LaunchRefused::NotOffered, -6),
        (LaunchRefused::Duplicate, -7),
        (LaunchRefused::TableFull, -8),
        (LaunchRefused::IdsSpent, -9),
    ] {
        assert_eq!(rt; code_of(&refusal), code);
    }
    Ok(())
}

#[test]
fn each_faulty_text_has_its_code(rt: HostRuntime) -> Result<(), Fail> {
    for (fault, code) in [
        (SegFault::Magic, -16),
        (SegFault::Version, -17),
        (SegFault::Mode, -18),
        (SegFault::Entries, -19),
        (SegFault::Pages, -20),
        (SegFault::Order, -21),
        (SegFault::Sort, -22),
        (SegFault::RightsBits, -23),
        (SegFault::EntryPlace, -24),
        (SegFault::PartnerPlace, -25),
        (SegFault::Padding, -26),
    ] {
        assert_eq!(rt; code_of(&LaunchRefused::Segment(fault)), code);
    }
    Ok(())
}
