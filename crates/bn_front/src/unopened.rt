//! Lines that say why a store wasn't opened.
ghost use Rattle.std.specs.Prelude.{◌≡◌, ◌+◌, ◌*◌, ◌++◌, ◌≤◌, length};
ghost use Rattle.hex.specs.Hex.{encode_lower};
ghost use Rattle.bn_model.specs.Storing.{malformed_line};
ghost use Rattle.bn_front.specs.Due.{bad_store};
ghost use Rattle.bn_front.specs.Story.{AnswersReport, AnswersUnopened, CountsSinkFault};
ghost use Rattle.bn_front.specs.Story.{digests_line};

use crate::report::say;
use arrayvec::ArrayVec;
use bn_edge::Sink;
use bn_trace::text::{append, append_number};
use bn_types::{Digest, Status};
use bn_vault::ReopenFault;

/// Writes why a store wasn't opened and answers the status; want of memory has no line.
pub fn refuse_store<O: Sink>(fault: &ReopenFault, out: &mut O) -> Status
    ensures answers { AnswersUnopened fault.now result (O.account out.old) (O.account out.new) }
    ensures counted { CountsSinkFault result (O.account out.old).faults (O.account out.new).faults }
{
    match fault {
        ReopenFault::Mismatch {
            register,
            first,
            second,
        } => say_mismatch(register, first, second, out),
        ReopenFault::Malformed { at } => say_malformed(*at as u64, out),
        ReopenFault::Vault => say(out, b"vault read\n", Status::VaultFault),
        ReopenFault::Chip => say(out, b"chip read\n", Status::ChipFault),
        ReopenFault::Memory => Status::Memory,
    }
}

fn say_mismatch<O: Sink>(register: &Digest, first: &Digest, second: &Digest, out: &mut O) -> Status
    ensures answers { AnswersReport
        (bad_store (digests_line register.now first.now second.now)) result
        (O.account out.old) (O.account out.new) }
    ensures counted { CountsSinkFault result (O.account out.old).faults (O.account out.new).faults }
{
    let mut line = ArrayVec::new();
    append(&mut line, b"store mismatch ");
    append_digest(&mut line, register);
    append(&mut line, b" ");
    append_digest(&mut line, first);
    append(&mut line, b" ");
    append_digest(&mut line, second);
    append(&mut line, b"\n");
    say(out, line.as_slice(), Status::Store)
}

fn append_digest(line: &mut ArrayVec<u8, 512>, digest: &Digest)
    requires { length line.old.items + 64 ≤ 512 }
    ensures text { line.new.items ≡ line.old.items ++ encode_lower digest.now.0 }
    ensures long { length line.new.items ≡ length line.old.items + 64 }
{
    let mut digits = [0; 64];
    encode(&digest.0, &mut digits);
    append(line, &digits);
}

/// Writes bytes as lower-case hexadecimal digits.
fn encode(bytes: &[u8], digits: &mut [u8])
    requires { length digits.old ≡ 2 * length bytes.now }
    ensures { digits.new ≡ encode_lower bytes.now }
{
    match hex::encode_to_slice(bytes, digits) {
        Ok(()) => {}
        Err(_) => unreachable!(),
    }
}

#[tactic(auto, unfolding(bn_model::specs::Storing::malformed_line))]
fn say_malformed<O: Sink>(at: u64, out: &mut O) -> Status
    ensures answers { AnswersReport (bad_store (malformed_line at)) result
        (O.account out.old) (O.account out.new) }
    ensures counted { CountsSinkFault result (O.account out.old).faults (O.account out.new).faults }
{
    let mut line = ArrayVec::new();
    append(&mut line, b"store malformed ");
    append_number(&mut line, at);
    append(&mut line, b"\n");
    say(out, line.as_slice(), Status::Store)
}
