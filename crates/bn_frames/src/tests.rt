use crate::Frames;
use bn_types::{Frame, Width};
use std::test::Fail;

#[test]
fn numbers_stand_little_endian(rt: HostRuntime) -> Result<(), Fail> {
    let mut frames = Frames::zeroed(rt.alloc(), 3)?;
    assert_eq!(rt; frames.count(), 3);
    frames.put(Frame(1), 8, Width::B4, 0x1122_3344_5566_7788);
    assert_eq!(rt; frames.get(Frame(1), 8, Width::B1), 0x88);
    assert_eq!(rt; frames.get(Frame(1), 10, Width::B2), 0x5566);
    assert_eq!(rt; frames.get(Frame(1), 8, Width::B8), 0x5566_7788);
    Ok(())
}

#[test]
fn a_copy_goes_to_the_other_frame(rt: HostRuntime) -> Result<(), Fail> {
    let mut frames = Frames::zeroed(rt.alloc(), 3)?;
    frames.put(Frame(1), 4088, Width::B8, u64::MAX);
    frames.copy_frame(Frame(1), Frame(2));
    frames.zero(Frame(1));
    assert_eq!(rt; frames.get(Frame(1), 4088, Width::B8), 0);
    assert_eq!(rt; frames.get(Frame(2), 4088, Width::B8), u64::MAX);
    assert_eq!(rt; frames.get(Frame(0), 4088, Width::B8), 0);
    Ok(())
}
