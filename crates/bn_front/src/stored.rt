//! Runs with a store: it is opened before they begin, and committed once they have ended.
ghost use Rattle.std.specs.Prelude.{◌≡◌, ◌≢◌, ◌+◌, ◌^◌, ◌<◌, false, length};
ghost use Rattle.bn_model.specs.Reporting.{closing};
ghost use Rattle.bn_model.specs.Running.{blind_at, course};
ghost use Rattle.bn_model.specs.Scripts.{first_events};
ghost use Rattle.bn_model.specs.WholeRuns.{course_of};
ghost use Rattle.bn_vault.specs.Openings.{IsCurrent};
ghost use Rattle.bn_front.specs.Due.{unwritten};
ghost use Rattle.bn_front.specs.Meant.{IsInRange, own_meant};
ghost use Rattle.bn_front.specs.Reading.{Fit, start_with};
ghost use Rattle.bn_front.specs.Stored.{store_of};
ghost use Rattle.bn_front.specs.Story.{AnswersReport, ClosesStored, CountsSinkFault, IsPlace};
ghost use Rattle.bn_front.specs.Story.{OpensAndRuns, RunsStored, device_of};

use crate::RunOrder;
use crate::inputs::Inputs;
use crate::report::{boot, close, say};
use crate::unopened::refuse_store;
use bn_edge::{Chip, Sink, Vault};
use bn_machine::{Ending, Machine};
use bn_script::Script;
use bn_types::{Status, Steps};
use bn_vault::{CommitFault, Held, Reopened, reopen};
use std::alloc::Global;
use std::marker::Brand;
use std::sync::ledger::{Blank, Ledger};

/// Runs an order with a store, with its inputs.
pub fn serve_stored<V: Vault, C: Chip, O: Sink>(
    alloc: Global,
    order: &RunOrder,
    inputs: Inputs,
    vault: &mut V,
    chip: &mut C,
    out: &mut O,
) -> Status
    requires range { IsInRange (own_meant order.now) }
    requires fit { Fit (own_meant order.now) inputs }
    ensures runs { OpensAndRuns (own_meant order.now) inputs result
        (store_of (V.account vault.old) (C.account chip.old))
        (store_of (V.account vault.new) (C.account chip.new))
        (O.account out.old) (O.account out.new) }
    ensures counted { CountsSinkFault result (O.account out.old).faults (O.account out.new).faults }
{
    match reopen(alloc, vault, chip) {
        Ok(opened) => serve_opened(alloc, order, inputs, opened, vault, chip, out),
        Err(fault) => refuse_store(&fault, out),
    }
}

#[tactic(auto, unfolding(bn_model::specs::Opening::opening))]
fn serve_opened<V: Vault, C: Chip, O: Sink>(
    alloc: Global,
    order: &RunOrder,
    inputs: Inputs,
    opened: Reopened,
    vault: &mut V,
    chip: &mut C,
    out: &mut O,
) -> Status
    requires range { IsInRange (own_meant order.now) }
    requires fit { Fit (own_meant order.now) inputs }
    requires usable { opened.held.spent ≡ false }
    requires current { IsCurrent opened.held.current
        (V.account vault.old).areas (C.account chip.old).register }
    requires place { IsPlace opened.held.current
        (store_of (V.account vault.old) (C.account chip.old)) }
    ensures runs { RunsStored
        (course_of (start_with (own_meant order.now) inputs opened.store)) result
        (store_of (V.account vault.old) (C.account chip.old))
        (store_of (V.account vault.new) (C.account chip.new))
        (O.account out.old) (O.account out.new) }
    ensures counted { CountsSinkFault result (O.account out.old).faults (O.account out.new).faults }
{
    let Reopened { store, held, .. } = opened;
    let Inputs { image, script } = inputs;
    match boot(alloc, order, &image, store) {
        Ok(machine) => run_stored::<V, C, O, Brand>(
            machine,
            script,
            order,
            held,
            vault,
            chip,
            out,
            Blank::new(1),
        ),
        Err(_) => Status::Memory,
    }
}

fn run_stored<V: Vault, C: Chip, O: Sink, L: Ledger>(
    mut machine: Machine,
    mut script: Script,
    order: &RunOrder,
    held: Held,
    vault: &mut V,
    chip: &mut C,
    out: &mut O,
    blank: Blank,
) -> Status
    requires on { machine.state.off ≡ false }
    requires harts { script.harts ≡ length machine.state.harts }
    requires clock { machine.state.clock + order.now.steps < 2 ^ 64 }
    requires usable { held.spent ≡ false }
    requires current { IsCurrent held.current
        (V.account vault.old).areas (C.account chip.old).register }
    requires place { IsPlace held.current
        (store_of (V.account vault.old) (C.account chip.old)) }
    requires name { blank.name ≡ L.name }
    requires parts { blank.parts ≡ L.parts }
    requires some { 0 < L.parts }
    ensures runs { RunsStored (course (blind_at order.now.blind) machine.state
        (first_events order.now.steps script)) result
        (store_of (V.account vault.old) (C.account chip.old))
        (store_of (V.account vault.new) (C.account chip.new))
        (O.account out.old) (O.account out.new) }
    ensures counted { CountsSinkFault result (O.account out.old).faults (O.account out.new).faults }
{
    let mut steps = Steps::<L>::open(blank);
    match machine.run(&mut script, order.steps, order.blind, 0, out, &mut steps) {
        Ok(ending) => commit_and_close(&machine, ending, held, vault, chip, out, &mut steps),
        Err(_) => Status::SinkFault,
    }
}

/// Commits the machine's records, and then writes what ends the run.
fn commit_and_close<V: Vault, C: Chip, O: Sink, L: Ledger>(
    machine: &Machine,
    ending: Ending,
    mut held: Held,
    vault: &mut V,
    chip: &mut C,
    out: &mut O,
    steps: &mut Steps<L>,
) -> Status
    requires usable { held.spent ≡ false }
    requires current { IsCurrent held.current
        (V.account vault.old).areas (C.account chip.old).register }
    requires place { IsPlace held.current
        (store_of (V.account vault.old) (C.account chip.old)) }
    ensures closes { ClosesStored machine.now.state.records
        (closing ending machine.now.state) result
        (store_of (V.account vault.old) (C.account chip.old))
        (store_of (V.account vault.new) (C.account chip.new))
        (O.account out.old) (O.account out.new) }
    ensures counted { CountsSinkFault result (O.account out.old).faults (O.account out.new).faults }
{
    match held.commit(machine.store(), vault, chip) {
        Ok(()) => close(machine, ending, out, steps),
        Err(fault) => say_unwritten(fault, out),
    }
}

fn say_unwritten<O: Sink>(fault: CommitFault, out: &mut O) -> Status
    ensures answers { AnswersReport (unwritten (device_of fault)) result
        (O.account out.old) (O.account out.new) }
    ensures counted { CountsSinkFault result (O.account out.old).faults (O.account out.new).faults }
{
    match fault {
        CommitFault::Vault => say(out, b"vault commit\n", Status::VaultFault),
        CommitFault::Chip => say(out, b"chip commit\n", Status::ChipFault),
    }
}
