//! A machine whose bytes a device reads and writes, between its events and as events.
ghost use Rattle.std.specs.Prelude.{◌≡◌, ◌<◌};

use crate::{LineBuf, Machine, Settings};
use bn_loader::Loaded;
use bn_store::Store;
use bn_types::{Event, Gpn, Steps};
use std::alloc::Global;
use std::marker::Brand;
use std::process::Abort;
use std::sync::ledger::{Blank, Ledger};

/// A machine with 16 pages of zeros.
fn boot(rt: &impl Abort, alloc: Global) -> Machine {
    let settings = Settings {
        ram_pages: 16,
        harts: 1,
    };
    let mut bytes = Vec::new(alloc);
    bytes.resize(65_536, 0).expect(rt, "memory");
    let image = Loaded {
        bytes,
        entry: 0x8000_0000,
    };
    let store = Store::empty(alloc).expect(rt, "memory");
    Machine::boot(alloc, settings, &image, store).expect(rt, "memory")
}

fn reach_bytes<L: Ledger>(rt: &impl Abort, alloc: Global, blank: Blank)
    requires name { blank.name ≡ L.name }
    requires parts { blank.parts ≡ L.parts }
    requires some { 0 < L.parts }
{
    let mut steps = Steps::<L>::open(blank);
    let mut machine = boot(rt, alloc);
    let read = machine.device_read(Gpn(15), 4095, &mut steps);
    assert_eq!(rt; read, Some(0));
    let written = machine.device_write(Gpn(15), 4095, 0x7f, &mut steps);
    assert!(rt; written);
    let read = machine.device_read(Gpn(15), 4095, &mut steps);
    assert_eq!(rt; read, Some(0x7f));
    // behind RAM
    let written = machine.device_write(Gpn(16), 0, 0x7f, &mut steps);
    assert!(rt; !written);
    let read = machine.device_read(Gpn(16), 0, &mut steps);
    assert_eq!(rt; read, None);
    assert_eq!(rt; machine.clock(), 0);
    expect_key(rt, &mut machine, &mut steps);
}

/// Its first event is a key, which waits.
fn expect_key<L: Ledger>(rt: &impl Abort, machine: &mut Machine, steps: &mut Steps<L>) {
    let mut lines = LineBuf::new();
    assert!(rt; !machine.is_off());
    assert_eq!(rt; machine.clock(), 0);
    machine.turn(Event::Key(0x41), &mut lines, steps);
    assert_eq!(rt; lines.bytes(), b"key 0 41\n".as_slice());
    assert_eq!(rt; machine.clock(), 1);
}

#[test]
fn devices_reach_bytes_between_events(rt: HostRuntime) {
    reach_bytes::<Brand>(&rt, rt.alloc(), Blank::new(1));
}
