//! Lines that say why a run doesn't begin.
ghost use Rattle.std.specs.Prelude.{◌≡◌, ◌+◌, ◌++◌, ◌≤◌, length};
ghost use Rattle.bn_model.specs.Reporting as flat;
ghost use Rattle.bn_model.specs.WholeRuns as runs;
ghost use Rattle.bn_front.specs.Due.{desk_failed, missing_line};
ghost use Rattle.bn_front.specs.Story.{AnswersRefusal, AnswersReport, CountsSinkFault};

use crate::named_file::NamedFile;
use crate::refusal::Refusal;
use crate::report::say;
use arrayvec::ArrayVec;
use bn_edge::Sink;
use bn_trace::text::{append, append_number};
use bn_types::{ImageFault, ImageSort, ScriptFault, ScriptSort, Status};

/// Writes the line of a refusal and answers its status; want of memory has no line.
pub fn refuse<O: Sink>(refusal: Refusal, out: &mut O) -> Status
    ensures answers { AnswersRefusal refusal result (O.account out.old) (O.account out.new) }
    ensures counted { CountsSinkFault result (O.account out.old).faults (O.account out.new).faults }
{
    match refusal {
        Refusal::Missing(file) => say_missing(file, out),
        Refusal::Failed(file) => say_failed(file, out),
        Refusal::Image(fault) => say_image_fault(&fault, out),
        Refusal::Script(fault) => say_script_fault(&fault, out),
        Refusal::Memory => Status::Memory,
    }
}

fn say_missing<O: Sink>(file: NamedFile, out: &mut O) -> Status
    ensures answers { AnswersReport (record { status = Status.NoFile; text = missing_line file })
        result (O.account out.old) (O.account out.new) }
    ensures counted { CountsSinkFault result (O.account out.old).faults (O.account out.new).faults }
{
    match file {
        NamedFile::Image => say(out, b"missing image\n", Status::NoFile),
        NamedFile::Script => say(out, b"missing script\n", Status::NoFile),
    }
}

fn say_failed<O: Sink>(file: NamedFile, out: &mut O) -> Status
    ensures answers { AnswersReport (desk_failed file) result
        (O.account out.old) (O.account out.new) }
    ensures counted { CountsSinkFault result (O.account out.old).faults (O.account out.new).faults }
{
    match file {
        NamedFile::Image => say(out, b"desk image\n", Status::DeskFault),
        NamedFile::Script => say(out, b"desk script\n", Status::DeskFault),
    }
}

#[tactic(auto, unfolding(bn_model::specs::Reporting::fault_line))]
fn say_image_fault<O: Sink>(fault: &ImageFault, out: &mut O) -> Status
    ensures answers { AnswersReport
        (record { status = Status.Image; text = flat.fault_line fault.now })
        result (O.account out.old) (O.account out.new) }
    ensures counted { CountsSinkFault result (O.account out.old).faults (O.account out.new).faults }
{
    let mut line = ArrayVec::new();
    append(&mut line, b"image ");
    append_image_sort(&mut line, fault.sort);
    append(&mut line, b" ");
    append_number(&mut line, fault.at);
    append(&mut line, b"\n");
    say(out, line.as_slice(), Status::Image)
}

fn append_image_sort(line: &mut ArrayVec<u8, 512>, sort: ImageSort)
    requires { length line.old.items + 8 ≤ 512 }
    ensures text { line.new.items ≡ line.old.items ++ flat.sort_word sort }
    ensures short { length line.new.items ≤ length line.old.items + 8 }
{
    match sort {
        ImageSort::Long => append(line, b"long"),
        ImageSort::Empty => append(line, b"empty"),
        ImageSort::Short => append(line, b"short"),
        ImageSort::Class => append(line, b"class"),
        ImageSort::Order => append(line, b"order"),
        ImageSort::Kind => append(line, b"kind"),
        ImageSort::Machine => append(line, b"machine"),
        ImageSort::Headers => append(line, b"headers"),
        ImageSort::Sizes => append(line, b"sizes"),
        ImageSort::Bytes => append(line, b"bytes"),
        ImageSort::Range => append(line, b"range"),
        ImageSort::Nothing => append(line, b"none"),
        ImageSort::Entry => append(line, b"entry"),
    }
}

#[tactic(auto, unfolding(bn_model::specs::WholeRuns::script_line))]
fn say_script_fault<O: Sink>(fault: &ScriptFault, out: &mut O) -> Status
    ensures answers { AnswersReport
        (record { status = Status.Script; text = runs.script_line fault.now })
        result (O.account out.old) (O.account out.new) }
    ensures counted { CountsSinkFault result (O.account out.old).faults (O.account out.new).faults }
{
    let mut line = ArrayVec::new();
    append(&mut line, b"script ");
    append_script_sort(&mut line, fault.sort);
    append(&mut line, b" ");
    append_number(&mut line, u64::from(fault.line));
    append(&mut line, b"\n");
    say(out, line.as_slice(), Status::Script)
}

fn append_script_sort(line: &mut ArrayVec<u8, 512>, sort: ScriptSort)
    requires { length line.old.items + 8 ≤ 512 }
    ensures text { line.new.items ≡ line.old.items ++ runs.script_word sort }
    ensures short { length line.new.items ≤ length line.old.items + 8 }
{
    match sort {
        ScriptSort::Word => append(line, b"word"),
        ScriptSort::Fields => append(line, b"fields"),
        ScriptSort::Number => append(line, b"number"),
        ScriptSort::Range => append(line, b"range"),
        ScriptSort::Long => append(line, b"long"),
    }
}
