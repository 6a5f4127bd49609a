//! How many bytes the parts of a machine take.

use arrayvec::ArrayVec;
use bn_frames::Frames;
use bn_types::Frame;
use n_walk::Nest;
use std::mem::size_of;

/// A nest keeps its frames and the list of the free ones.
#[test]
fn a_nest_keeps_little_else(rt: HostRuntime) {
    let parts = size_of::<Frames>() + size_of::<ArrayVec<Frame, 4125>>();
    assert!(rt; size_of::<Nest>() <= parts + 16);
}
