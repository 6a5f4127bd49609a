//! The script of a run.
ghost use Rattle.std.specs.Prelude.{◌≡◌, ◌≤◌, IfOk, Some, string_bytes};
ghost use Rattle.bn_model.specs.Scripts.{script_in};
ghost use Rattle.bn_model.specs.WholeRuns.{script_read};
ghost use Rattle.bn_front.specs.Meant.{IsInRange, own_meant};
ghost use Rattle.bn_front.specs.Reading.{FindsScript, IsFront, Judges};

use crate::RunOrder;
use crate::named_file::NamedFile;
use crate::refusal::Refusal;
use bn_edge::Desk;
use bn_script::{Script, ScriptError, read};
use std::alloc::Global;

/// A script file has at most so many bytes.
const MOST_SCRIPT_BYTES: usize = 1_048_576;

/// Reads and judges the script of a run; where none is named, the harts take turns. What was read
/// of the image's file is handed in, so that this file isn't read again where it is the script too.
pub fn read_script<D: Desk>(
    alloc: Global,
    order: &RunOrder,
    image: &[u8],
    desk: &mut D,
) -> Result<Script, Refusal>
    requires range { IsInRange (own_meant order.now) }
    requires front { IsFront (D.account desk.old).files (string_bytes order.now.image) image.now }
    ensures finds { FindsScript (own_meant order.now) image.now result
        (D.account desk.old) (D.account desk.new) }
    ensures harts { IfOk result (λ script. script.harts ≡ order.now.harts) }
{
    match &order.script {
        Some(name) => read_named(alloc, name, order, image, desk),
        None => parse(alloc, &[], order.harts),
    }
}

fn read_named<D: Desk>(
    alloc: Global,
    name: &str,
    order: &RunOrder,
    image: &[u8],
    desk: &mut D,
) -> Result<Script, Refusal>
    requires range { IsInRange (own_meant order.now) }
    requires front { IsFront (D.account desk.old).files (string_bytes order.now.image) image.now }
    requires named { (own_meant order.now).script ≡ Some name.now }
    ensures finds { FindsScript (own_meant order.now) image.now result
        (D.account desk.old) (D.account desk.new) }
    ensures harts { IfOk result (λ script. script.harts ≡ order.now.harts) }
{
    if name == order.image.as_str() {
        return parse(alloc, image, order.harts);
    }
    // One byte more than a script may have, so that a longer file is known.
    match desk.read_front(alloc, name, MOST_SCRIPT_BYTES + 1) {
        Ok(text) => parse(alloc, &text, order.harts),
        Err(fault) => Err(Refusal::of_file(NamedFile::Script, fault)),
    }
}

/// The script of a text.
pub fn parse(alloc: Global, text: &[u8], harts: u8) -> Result<Script, Refusal>
    requires some { 1 ≤ harts }
    requires few { harts ≤ 4 }
    ensures gives { Judges (λ script. script) (script_read (script_in harts text.now)) result }
    ensures harts { IfOk result (λ script. script.harts ≡ harts) }
{
    match read(alloc, text, harts) {
        Ok(script) => Ok(script),
        Err(ScriptError::Fault(fault)) => Err(Refusal::Script(fault)),
        Err(ScriptError::Memory) => Err(Refusal::Memory),
    }
}
