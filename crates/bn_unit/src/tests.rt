use crate::Unit;
use bn_shadow::Shadow;
use bn_tlb::Tlb;
use n_walk::Nest;
use std::mem::size_of;

/// A unit keeps a nest, the index of owners and the translations that are held.
#[test]
fn a_unit_keeps_little_else(rt: HostRuntime) {
    let parts = size_of::<Nest>() + size_of::<Shadow>() + size_of::<Tlb>();
    assert!(rt; size_of::<Unit>() <= parts + 16);
}
