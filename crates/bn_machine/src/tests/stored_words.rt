//! The words that a machine is given as it boots.
use crate::{Machine, Settings};
use bn_loader::Loaded;
use bn_store::Store;
use bn_types::Digest;

#[test]
fn a_machine_keeps_the_words_that_it_is_given(rt: HostRuntime) {
    let who = Digest([7; 32]);
    let mut store = Store::empty(rt.alloc()).expect(&rt, "memory");
    assert!(&rt; store.set(&who, 31, 5).is_ok());
    let mut bytes = Vec::new(rt.alloc());
    bytes.resize(4096, 0).expect(&rt, "memory");
    let image = Loaded {
        bytes,
        entry: 0x8000_0000,
    };
    let settings = Settings {
        ram_pages: 1,
        harts: 4,
    };
    let machine = Machine::boot(rt.alloc(), settings, &image, store).expect(&rt, "memory");
    assert_eq!(&rt; machine.store().get(&who, 31), 5);
    assert_eq!(&rt; machine.store().get(&who, 30), 0);
    assert_eq!(&rt; machine.store().get(&Digest([8; 32]), 31), 0);
}
