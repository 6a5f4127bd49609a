//! The one call that the program makes.
ghost use Rattle.std.specs.Prelude.{◌≡◌, Some, false};
ghost use Rattle.bn_front.specs.Tasks.{Running, has_store, task_by, task_of, uses_store};
ghost use Rattle.bn_front.specs.Headline.{Promise, outside};
ghost use Rattle.bn_front.specs.Meant.{AreInRange, IsInRange, bytes_of_words, order_meant};
ghost use Rattle.bn_front.specs.Meant.{own_meant};
ghost use Rattle.bn_front.specs.Story.{AnswersWords, CountsSinkFault, IsStory};

use crate::generated::serve_generated;
use crate::images::read_inputs;
use crate::plain::serve_plain;
use crate::refusing::refuse;
use crate::report::say;
use crate::stored::serve_stored;
use crate::{Order, RunOrder, WordsError, read_words};
use bn_edge::{Chip, Desk, Sink, Vault};
use bn_types::Status;
use std::alloc::Global;

/// Reads the words, runs the image that they name by their script and writes the trace.
///
/// The words are those that `read_words` reads. A run with `--store` opens its store from vault and
/// chip before it begins, and commits it once it has ended, before the end line is written; any
/// other call leaves vault and chip alone. Where nothing fails, the status, the text and what
/// stands stored are those of the report of the flat machine.
pub fn bastion<D: Desk, V: Vault, C: Chip, O: Sink>(
    alloc: Global,
    words: &[Vec<u8>],
    desk: &mut D,
    vault: &mut V,
    chip: &mut C,
    out: &mut O,
) -> Status
    ensures promise { Promise (bytes_of_words words.now) result
        (outside (D.account desk.old) (V.account vault.old)
        (C.account chip.old) (O.account out.old))
        (outside (D.account desk.new) (V.account vault.new)
        (C.account chip.new) (O.account out.new)) }
    // Without a store neither vault nor chip is called.
    ensures uncalled { uses_store (bytes_of_words words.now) ≡ false →
        (vault.new ≡ vault.old) × (chip.new ≡ chip.old) }
{
    serve(alloc, words, desk, vault, chip, out)
}

fn serve<D: Desk, V: Vault, C: Chip, O: Sink>(
    alloc: Global,
    words: &[Vec<u8>],
    desk: &mut D,
    vault: &mut V,
    chip: &mut C,
    out: &mut O,
) -> Status
    ensures story { IsStory result (task_of (bytes_of_words words.now))
        (outside (D.account desk.old) (V.account vault.old)
        (C.account chip.old) (O.account out.old))
        (outside (D.account desk.new) (V.account vault.new)
        (C.account chip.new) (O.account out.new)) }
    ensures counted { CountsSinkFault result (O.account out.old).faults (O.account out.new).faults }
    ensures uncalled { has_store (task_of (bytes_of_words words.now)) ≡ false →
        (vault.new ≡ vault.old) × (chip.new ≡ chip.old) }
{
    match read_words(alloc, words) {
        Ok(order) => serve_order(alloc, &order, desk, vault, chip, out),
        Err(error) => refuse_words(error, out),
    }
}

fn refuse_words<O: Sink>(error: WordsError, out: &mut O) -> Status
    ensures answers { AnswersWords error result (O.account out.old) (O.account out.new) }
    ensures counted { CountsSinkFault result (O.account out.old).faults (O.account out.new).faults }
{
    match error {
        WordsError::Words => say(out, b"words\n", Status::Words),
        WordsError::Memory => Status::Memory,
    }
}

fn serve_order<D: Desk, V: Vault, C: Chip, O: Sink>(
    alloc: Global,
    order: &Order,
    desk: &mut D,
    vault: &mut V,
    chip: &mut C,
    out: &mut O,
) -> Status
    requires { AreInRange (order_meant order.now) }
    ensures story { IsStory result (task_by (Some (order_meant order.now)))
        (outside (D.account desk.old) (V.account vault.old)
        (C.account chip.old) (O.account out.old))
        (outside (D.account desk.new) (V.account vault.new)
        (C.account chip.new) (O.account out.new)) }
    ensures counted { CountsSinkFault result (O.account out.old).faults (O.account out.new).faults }
    ensures uncalled { has_store (task_by (Some (order_meant order.now))) ≡ false →
        (vault.new ≡ vault.old) × (chip.new ≡ chip.old) }
{
    match order {
        Order::Run(run) => serve_run(alloc, run, desk, vault, chip, out),
        Order::Gen(number) => serve_generated(alloc, *number, out),
    }
}

fn serve_run<D: Desk, V: Vault, C: Chip, O: Sink>(
    alloc: Global,
    order: &RunOrder,
    desk: &mut D,
    vault: &mut V,
    chip: &mut C,
    out: &mut O,
) -> Status
    requires { IsInRange (own_meant order.now) }
    ensures story { IsStory result (Running (own_meant order.now))
        (outside (D.account desk.old) (V.account vault.old)
        (C.account chip.old) (O.account out.old))
        (outside (D.account desk.new) (V.account vault.new)
        (C.account chip.new) (O.account out.new)) }
    ensures counted { CountsSinkFault result (O.account out.old).faults (O.account out.new).faults }
    ensures uncalled { order.now.store ≡ false →
        (vault.new ≡ vault.old) × (chip.new ≡ chip.old) }
{
    let inputs = match read_inputs(alloc, order, desk) {
        Ok(inputs) => inputs,
        Err(refusal) => return refuse(refusal, out),
    };
    if order.store {
        serve_stored(alloc, order, inputs, vault, chip, out)
    } else {
        serve_plain(alloc, order, inputs, out)
    }
}
