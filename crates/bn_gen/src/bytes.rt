//! Instructions as bytes, and pages of bytes.
ghost use Rattle.std.specs.Prelude.{◌≡◌, ◌++◌, All, OnOk};
ghost use Rattle.bn_model.specs.InsnRanges.{IsInRange};
ghost use Rattle.bn_gen.specs.Parts.{filled, listed, word_bytes, zeros};

use bn_types::Insn;
use rv_insn::encode;
use std::alloc::AllocError;

pub const PAGE_BYTES: usize = 4096;

/// Appends the words of instructions, little endian.
#[tactic(auto, unfolding(crate::specs::Parts::listed))]
pub fn put(bytes: &mut Vec<u8>, insns: &[Insn]) -> Result<(), AllocError>
    requires { All IsInRange insns.now }
    ensures { OnOk result (bytes.new.items ≡ bytes.old.items ++ listed insns.now) }
{
    for insn in insns {
        put_word(bytes, insn)?;
    }
    Ok(())
}

fn put_word(bytes: &mut Vec<u8>, insn: &Insn) -> Result<(), AllocError>
    requires { IsInRange insn.now }
    ensures { OnOk result (bytes.new.items ≡ bytes.old.items ++ word_bytes insn.now) }
{
    bytes.extend_from_slice(&encode(insn).to_le_bytes())
}

/// Appends zeros up to the end of a page that these bytes begin.
#[tactic(auto, unfolding(crate::specs::Parts::filled, crate::specs::Parts::zeros))]
pub fn fill_page(page: &mut Vec<u8>) -> Result<(), AllocError>
    ensures { OnOk result (page.new.items ≡ filled page.old.items) }
{
    put_zeros(page, PAGE_BYTES.saturating_sub(page.len()))
}

/// Appends so many zeros.
#[tactic(auto, unfolding(crate::specs::Parts::zeros))]
pub fn put_zeros(bytes: &mut Vec<u8>, count: usize) -> Result<(), AllocError>
    ensures { OnOk result (bytes.new.items ≡ bytes.old.items ++ zeros count) }
{
    for _zero in 0..count {
        bytes.push(0)?;
    }
    Ok(())
}
