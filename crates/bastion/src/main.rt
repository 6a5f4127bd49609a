//! The program: gathers the words, runs the machine over the host's files and standard output, with
//! its store in files too, and ends with the status.
#![tactic(auto)]

ghost use Rattle.std.specs.Prelude.{◌≡◌};
ghost use Rattle.std.specs.Process.{exit_status};
ghost use Rattle.bn_types.specs.ExitCodes.{exit_code};
ghost use Rattle.bn_front.specs.Headline.{outside};
ghost use Rattle.bastion.specs.Program.{AnswersWords};

use bn_edge::{
    Chip, Desk, FileChip, FileDesk, FileVault, HostWords, OutSink, Sink, Vault, Words, gather_words,
};
use bn_types::Status;
use std::alloc::Global;
use std::process::ExitCode;

#[cfg(test)]
mod tests;

fn main(rt: HostRuntime) -> ExitCode {
    let words = HostWords::of(&rt);
    let mut desk = FileDesk::of(&rt);
    let mut vault = FileVault::of(&rt);
    let mut chip = FileChip::of(&rt);
    let mut out = OutSink::of(&rt);
    let status = run(
        rt.alloc(),
        &words,
        &mut desk,
        &mut vault,
        &mut chip,
        &mut out,
    );
    exit_with(status)
}

/// Gathers the words and answers them, with the promise of the one public call for these words.
fn run<W: Words, D: Desk, V: Vault, C: Chip, O: Sink>(
    alloc: Global,
    words: &W,
    desk: &mut D,
    vault: &mut V,
    chip: &mut C,
    out: &mut O,
) -> Status
    ensures { AnswersWords (W.words words.now) result
        (outside (D.account desk.old) (V.account vault.old)
        (C.account chip.old) (O.account out.old))
        (outside (D.account desk.new) (V.account vault.new)
        (C.account chip.new) (O.account out.new)) }
{
    match gather_words(alloc, words) {
        Ok(words) => bn_front::bastion(alloc, &words, desk, vault, chip, out),
        Err(_) => Status::Memory,
    }
}

fn exit_with(status: Status) -> ExitCode
    ensures { exit_status result ≡ exit_code status }
{
    ExitCode::from(status.code())
}
