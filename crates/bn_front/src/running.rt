//! What the words of `run` come to.
ghost use Rattle.std.specs.Prelude.{◌≡◌, IfOk, IfSome, option_map, string_bytes};
ghost use Rattle.bn_model.specs.CommandLines as flat;
ghost use Rattle.bn_front.specs.Items.{run_in};
ghost use Rattle.bn_front.specs.Meant.{IsInRange, own_meant, run_meant};

use crate::RunOrder;
use crate::option_name::OptionName;
use crate::run_order_ref::RunOrderRef;
use crate::values::{blind_given, lone_word, number_given, script_given, store_given};
use clap::ArgMatches;
use std::alloc::{AllocError, Global};

/// The run that these matches order. None where they order none. No page is moved to another frame.
pub fn run_of<'a>(matches: &ArgMatches<'a>) -> Option<RunOrderRef<'a>>
    ensures exact { option_map (λ run. flat.Run (run_meant run)) result
        ≡ run_in matches.now }
    ensures range { IfSome result (λ run. IsInRange (run_meant run)) }
{
    let image = lone_word(matches)?;
    let ram_pages = number_given(matches, OptionName::Ram, 1024, 16, 4096)?;
    let harts = number_given(matches, OptionName::Harts, 1, 1, 4)?;
    let steps = number_given(matches, OptionName::Steps, 1_000_000, 0, 1_000_000_000)?;
    let script = script_given(matches)?;
    let store = store_given(matches)?;
    let blind = blind_given(matches)?;
    Some(RunOrderRef {
        image,
        ram_pages: ram_pages as u32,
        harts: harts as u8,
        steps,
        script,
        store,
        blind,
        moves: 0,
    })
}

/// The same run, with its own names.
pub fn own(alloc: Global, run: RunOrderRef<'_>) -> Result<RunOrder, AllocError>
    ensures { IfOk result (λ own. own_meant own ≡ run_meant run.entry) }
{
    let image = String::from_str(alloc, run.image)?;
    let script = own_name(alloc, run.script)?;
    Ok(RunOrder {
        image,
        ram_pages: run.ram_pages,
        harts: run.harts,
        steps: run.steps,
        script,
        store: run.store,
        blind: run.blind,
        moves: run.moves,
    })
}

fn own_name(alloc: Global, name: Option<&str>) -> Result<Option<String>, AllocError>
    ensures { IfOk result
        (λ own. option_map (λ n. string_bytes n) own ≡ option_map (λ n. n.now) name.entry) }
{
    match name {
        Some(name) => Ok(Some(String::from_str(alloc, name)?)),
        None => Ok(None),
    }
}
