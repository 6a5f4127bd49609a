//! Runs without a store.
ghost use Rattle.std.specs.Prelude.{◌≡◌, ◌≢◌, ◌+◌, ◌^◌, ◌<◌, [], false, length};
ghost use Rattle.bn_model.specs.Running.{blind_at, course};
ghost use Rattle.bn_model.specs.Scripts.{first_events};
ghost use Rattle.bn_model.specs.WholeRuns.{course_of};
ghost use Rattle.bn_front.specs.Meant.{IsInRange, own_meant};
ghost use Rattle.bn_front.specs.Reading.{Fit, start_with};
ghost use Rattle.bn_front.specs.Story.{CountsSinkFault, RunsPlainly};

use crate::RunOrder;
use crate::inputs::Inputs;
use crate::report::{boot, close};
use bn_edge::Sink;
use bn_machine::Machine;
use bn_script::Script;
use bn_store::Store;
use bn_types::{Status, Steps};
use std::alloc::Global;
use std::marker::Brand;
use std::sync::ledger::{Blank, Ledger};

/// Runs an order without a store, with its inputs: the store is empty and isn't kept.
#[tactic(auto, unfolding(bn_model::specs::Opening::opening))]
pub fn serve_plain<O: Sink>(alloc: Global, order: &RunOrder, inputs: Inputs, out: &mut O) -> Status
    requires range { IsInRange (own_meant order.now) }
    requires fit { Fit (own_meant order.now) inputs }
    ensures runs { RunsPlainly (course_of (start_with (own_meant order.now) inputs [])) result
        (O.account out.old) (O.account out.new) }
    ensures counted { CountsSinkFault result (O.account out.old).faults (O.account out.new).faults }
{
    let store = match Store::empty(alloc) {
        Ok(store) => store,
        Err(_) => return Status::Memory,
    };
    let Inputs { image, script } = inputs;
    match boot(alloc, order, &image, store) {
        Ok(machine) => run_plainly::<O, Brand>(machine, script, order, out, Blank::new(1)),
        Err(_) => Status::Memory,
    }
}

fn run_plainly<O: Sink, L: Ledger>(
    mut machine: Machine,
    mut script: Script,
    order: &RunOrder,
    out: &mut O,
    blank: Blank,
) -> Status
    requires on { machine.state.off ≡ false }
    requires harts { script.harts ≡ length machine.state.harts }
    requires clock { machine.state.clock + order.now.steps < 2 ^ 64 }
    requires name { blank.name ≡ L.name }
    requires parts { blank.parts ≡ L.parts }
    requires some { 0 < L.parts }
    ensures runs { RunsPlainly (course (blind_at order.now.blind) machine.state
        (first_events order.now.steps script)) result (O.account out.old) (O.account out.new) }
    ensures counted { CountsSinkFault result (O.account out.old).faults (O.account out.new).faults }
{
    let mut steps = Steps::<L>::open(blank);
    match machine.run(&mut script, order.steps, order.blind, 0, out, &mut steps) {
        Ok(ending) => close(&machine, ending, out, &mut steps),
        Err(_) => Status::SinkFault,
    }
}
