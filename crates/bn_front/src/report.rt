//! How runs begin, and what ends their reports.
ghost use Rattle.std.specs.Prelude.{◌≡◌, ◌≢◌, ◌*◌, ◌+◌, ◌^◌, ◌<◌, IfOk, false, length};
ghost use Rattle.bn_loader.specs.declared.loaded.Loaded.{Loaded as AllBytes};
ghost use Rattle.bn_model.specs.Opening.{opening};
ghost use Rattle.bn_model.specs.Reporting as flat;
ghost use Rattle.bn_front.specs.Meant.{IsInRange, own_meant};
ghost use Rattle.bn_front.specs.Reading.{Fills, image_meant};
ghost use Rattle.bn_front.specs.Story.{Answers, AnswersReport, CountsSinkFault};

use crate::RunOrder;
use bn_edge::{Sink, write_all};
use bn_loader::Loaded;
use bn_machine::{Ending, LineBuf, Machine, Settings};
use bn_store::Store;
use bn_types::{Finish, Line, NoMemory, Status, Steps};
use std::alloc::Global;
use std::sync::ledger::Ledger;

/// Writes a text and answers the status, or SinkFault where writing failed.
pub fn say<O: Sink>(out: &mut O, text: &[u8], status: Status) -> Status
    requires sink { status ≢ Status.SinkFault }
    requires memory { status ≢ Status.Memory }
    ensures answers { Answers result (record { status = status; text = text.now })
        (O.account out.old) (O.account out.new) }
    ensures spoken { result ≢ Status.Memory }
    ensures counted { CountsSinkFault result (O.account out.old).faults (O.account out.new).faults }
{
    match write_all(out, text) {
        Ok(()) => status,
        Err(_) => Status::SinkFault,
    }
}

/// The machine of an order, with its image and its store.
pub fn boot(
    alloc: Global,
    order: &RunOrder,
    image: &Loaded,
    store: Store,
) -> Result<Machine, NoMemory>
    requires range { IsInRange (own_meant order.now) }
    requires fills { Fills order.now.ram_pages image.now }
    ensures { IfOk result (λ machine. machine.state
        ≡ opening order.now.ram_pages order.now.harts (image_meant image.now) store) }
{
    let settings = Settings {
        ram_pages: order.ram_pages,
        harts: order.harts,
    };
    Machine::boot(alloc, settings, image, store)
}

/// Writes what ends a run.
pub fn close<O: Sink, L: Ledger>(
    machine: &Machine,
    ending: Ending,
    out: &mut O,
    steps: &mut Steps<L>,
) -> Status
    ensures answers { AnswersReport (flat.closing ending machine.now.state) result
        (O.account out.old) (O.account out.new) }
    ensures counted { CountsSinkFault result (O.account out.old).faults (O.account out.new).faults }
{
    match ending {
        Ending::Shutdown => say_end(machine, Finish::Shutdown, Status::Ended, out, steps),
        Ending::Limit => say_end(machine, Finish::Limit, Status::Limit, out, steps),
    }
}

fn say_end<O: Sink, L: Ledger>(
    machine: &Machine,
    finish: Finish,
    status: Status,
    out: &mut O,
    steps: &mut Steps<L>,
) -> Status
    requires sink { status ≢ Status.SinkFault }
    requires memory { status ≢ Status.Memory }
    ensures answers { Answers result
        (record { status = status; text = flat.end_line machine.now.state finish })
        (O.account out.old) (O.account out.new) }
    ensures spoken { result ≢ Status.Memory }
    ensures counted { CountsSinkFault result (O.account out.old).faults (O.account out.new).faults }
{
    let mut line = LineBuf::new();
    line.push(&Line::End {
        n: machine.clock(),
        w: finish,
        d: machine.public_digest(steps),
    });
    say(out, line.bytes(), status)
}
