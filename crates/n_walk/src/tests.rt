ghost use Rattle.std.specs.Prelude.{◌≡◌, ◌<◌, replicate};
ghost use Rattle.bn_types.specs.Numbers.{zero_page};

use crate::{Nest, PoolEmpty};
use bn_frames::Frames;
use bn_types::{Gpn, Steps, Width};
use std::marker::Brand;
use std::sync::ledger::{Blank, Ledger};
use std::test::Fail;

// Eight frames for four pages: five and one are tables, so two are left.
fn mapped(frames: Frames) -> [Option<PoolEmpty>; 3]
    requires { frames ≡ replicate 8 zero_page }
{
    let mut nest = Nest::build(frames, 4);
    let first = nest.map(Gpn(0)).err();
    let second = nest.map(Gpn(1)).err();
    let third = nest.map(Gpn(2)).err();
    [first, second, third]
}

#[test]
fn a_small_pool_runs_out(rt: HostRuntime) -> Result<(), Fail> {
    let frames = Frames::zeroed(rt.alloc(), 8)?;
    assert_eq!(rt; mapped(frames), [None, None, Some(PoolEmpty)]);
    Ok(())
}

#[derive(Drop)]
struct Seen {
    before: u64,
    found: bool,
    after: u64,
    zeroed: u64,
}

// A page that is stored to, moved, loaded from and zeroed.
fn used<L: Ledger>(frames: Frames, blank: Blank) -> Result<Seen, PoolEmpty>
    requires frames { frames ≡ replicate 8 zero_page }
    requires name { blank.name ≡ L.name }
    requires parts { blank.parts ≡ L.parts }
    requires some { 0 < L.parts }
{
    let mut steps = Steps::<L>::open(blank);
    let mut nest = Nest::build(frames, 4);
    let frame = nest.map(Gpn(3))?;
    nest.store(frame, 8, Width::B4, 0x1122_3344_5566_7788);
    let before = nest.load(frame, 8, Width::B8);
    let target = nest.move_page(Gpn(3))?;
    let found = nest.look(Gpn(3), &mut steps) == Some(target) && target != frame;
    let after = nest.load(target, 10, Width::B2);
    nest.zero(target);
    let zeroed = nest.load(target, 8, Width::B8);
    Ok(Seen {
        before,
        found,
        after,
        zeroed,
    })
}

#[test]
fn a_page_keeps_its_bytes_where_it_moves(rt: HostRuntime) -> Result<(), Fail> {
    let frames = Frames::zeroed(rt.alloc(), 8)?;
    let seen = used::<Brand>(frames, Blank::new(1))?;
    assert_eq!(rt; seen.before, 0x5566_7788);
    assert!(rt; seen.found);
    assert_eq!(rt; seen.after, 0x5566);
    assert_eq!(rt; seen.zeroed, 0);
    Ok(())
}
