//! The run of what is made of a number, and the summary that tells of it.
ghost use Rattle.std.specs.Prelude.{◌≡◌, ◌≢◌, ◌*◌, ◌<◌, [], IfOk, None, false, length};
ghost use Rattle.bn_gen.specs.Tallies.{tally_of};
ghost use Rattle.bn_model.specs.Generating.{made_of};
ghost use Rattle.bn_model.specs.Opening.{opening};
ghost use Rattle.bn_model.specs.Running.{course};
ghost use Rattle.bn_model.specs.Scripts.{first_events, script_of};
ghost use Rattle.bn_model.specs.Summaries as flat;
ghost use Rattle.bn_model.specs.WholeReports.{finish_status};
ghost use Rattle.bn_model.specs.WholeRuns.{finish_if, finish_of};
ghost use Rattle.bn_front.specs.Due.{generated_run};
ghost use Rattle.bn_front.specs.Reading.{Fills, image_meant};
ghost use Rattle.bn_front.specs.Story.{CountsSinkFault, RunsGenerated};

use crate::images::load_image;
use crate::inputs::Inputs;
use crate::report::say;
use crate::scripts::parse;
use crate::summary::Summary;
use bn_edge::Sink;
use bn_gen::{Tally, make};
use bn_loader::Loaded;
use bn_machine::{LineBuf, Machine, Settings};
use bn_script::Script;
use bn_store::Store;
use bn_types::{Finish, NoMemory, Status, Steps};
use std::alloc::Global;
use std::marker::Brand;
use std::sync::ledger::{Blank, Ledger};

/// RAM has so many pages.
const PAGES: u32 = 64;

const HARTS: u8 = 1;

/// The run has at most so many events.
const MOST_EVENTS: u64 = 1_000_000;

/// Makes the image and the script of a number, runs them and writes the summary. Nothing is written
/// before the run is over.
pub fn serve_generated<O: Sink>(alloc: Global, number: u64, out: &mut O) -> Status
    ensures runs { RunsGenerated number result (O.account out.old) (O.account out.new) }
    ensures counted { CountsSinkFault result (O.account out.old).faults (O.account out.new).faults }
{
    match summarize::<Brand>(alloc, number, Blank::new(1)) {
        Ok(summary) => say(out, &summary.text, status_of(summary.finish)),
        Err(_) => Status::Memory,
    }
}

fn status_of(finish: Finish) -> Status
    ensures exact { result ≡ finish_status finish }
    ensures sink { result ≢ Status.SinkFault }
    ensures memory { result ≢ Status.Memory }
{
    match finish {
        Finish::Shutdown => Status::Ended,
        Finish::Limit => Status::Limit,
    }
}

/// The summary of the run.
fn summarize<L: Ledger>(alloc: Global, number: u64, blank: Blank) -> Result<Summary, NoMemory>
    requires name { blank.name ≡ L.name }
    requires parts { blank.parts ≡ L.parts }
    requires some { 0 < L.parts }
    ensures finish { IfOk result (λ summary. summary.finish ≡ finish_of (generated_run number)) }
    ensures text { IfOk result (λ summary. summary.text.items
        ≡ flat.summary number (generated_run number)) }
{
    let Inputs { image, mut script } = make_inputs(alloc, number)?;
    let mut machine = boot(alloc, &image)?;
    let mut tally = Tally::new();
    let mut steps = Steps::<L>::open(blank);
    make_events(&mut machine, &mut script, &mut tally, &mut steps);
    let finish = finish_of(&machine);
    let digest = machine.public_digest(&mut steps);
    let text = tally.summary(alloc, number, machine.clock(), finish, &digest)?;
    Ok(Summary { finish, text })
}

/// What is made of the number, loaded and read. Neither is ever refused.
fn make_inputs(alloc: Global, number: u64) -> Result<Inputs, NoMemory>
    ensures image { IfOk result (λ inputs. image_meant inputs.image
        ≡ flat.raw_image (64 * 4096) (made_of number).image) }
    ensures fills { IfOk result (λ inputs. Fills 64 inputs.image) }
    ensures script { IfOk result (λ inputs. inputs.script
        ≡ script_of 1 (made_of number).commands) }
{
    let made = make(alloc, number)?;
    let image = match load_image(alloc, &made.image, PAGES) {
        Ok(image) => image,
        Err(_) => return Err(NoMemory),
    };
    match parse(alloc, &made.script, HARTS) {
        Ok(script) => Ok(Inputs { image, script }),
        Err(_) => Err(NoMemory),
    }
}

/// The machine in which they run. It has no stored words.
fn boot(alloc: Global, image: &Loaded) -> Result<Machine, NoMemory>
    requires fills { Fills 64 image.now }
    ensures { IfOk result (λ machine. machine.state ≡ opening 64 1 (image_meant image.now) []) }
{
    let store = Store::empty(alloc)?;
    let settings = Settings {
        ram_pages: PAGES,
        harts: HARTS,
    };
    Machine::boot(alloc, settings, image, store)
}

/// Makes the events until the machine is off, and counts their lines.
fn make_events<L: Ledger>(
    machine: &mut Machine,
    script: &mut Script,
    tally: &mut Tally,
    steps: &mut Steps<L>,
)
    requires on { machine.old.state.off ≡ false }
    requires harts { script.old.harts ≡ length machine.old.state.harts }
    requires begins { machine.old.state.clock ≡ 0 }
    requires none { tally.old ≡ tally_of [] }
    ensures last { machine.new.state
        ≡ (course None machine.old.state (first_events 1000000 script.old)).last }
    ensures told { tally.new
        ≡ tally_of (course None machine.old.state (first_events 1000000 script.old)).told }
{
    let mut lines = LineBuf::new();
    for _event in 0..MOST_EVENTS {
        // For the prover: the next event fits.
        script.facts();
        let event = script.next_event();
        machine.turn(event, &mut lines, steps);
        tally.count(lines.bytes());
        if machine.is_off() {
            return;
        }
    }
}

fn finish_of(machine: &Machine) -> Finish
    ensures { result ≡ finish_if machine.now.state.off }
{
    if machine.is_off() {
        Finish::Shutdown
    } else {
        Finish::Limit
    }
}
