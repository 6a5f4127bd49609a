ghost use Rattle.std.specs.Prelude.{◌≡◌};
ghost use Rattle.bn_model.specs.CsrFile.{csr_done, done_by_write, new_value, old_value};
ghost use Rattle.rv_csr.specs.Outcomes.{DoesCsr, ReadsCsr};

use crate::{CsrAsked, Csrs, Illegal, Wires};
use bn_types::{CsrOp, Mode};

impl Csrs {
    /// Carries out a CSR instruction, and returns the old value, or 0 where it isn't read. Illegal,
    /// with nothing changed, exactly where the read or the write that it asks for is.
    pub fn operate(
        &mut self,
        asked: &CsrAsked,
        mode: Mode,
        wires: &Wires,
        clock: u64,
        retired: u64,
    ) -> Result<u64, Illegal>
        ensures { DoesCsr result self.old self.new
            (csr_done self.old asked.now.op asked.now.number asked.now.operand asked.now.reads
            asked.now.writes mode wires.now (record { clock = clock; retired = retired })) }
    {
        match self.old_value(asked, mode, wires, clock, retired) {
            Ok(old) => self.replace(asked, mode, old),
            Err(Illegal) => Err(Illegal),
        }
    }

    fn old_value(
        &self,
        asked: &CsrAsked,
        mode: Mode,
        wires: &Wires,
        clock: u64,
        retired: u64,
    ) -> Result<u64, Illegal>
        ensures { ReadsCsr result (old_value asked.now.reads self.now asked.now.number mode
            wires.now (record { clock = clock; retired = retired })) }
    {
        if asked.reads {
            self.read(asked.number, mode, wires, clock, retired)
        } else {
            Ok(0)
        }
    }

    fn replace(&mut self, asked: &CsrAsked, mode: Mode, old: u64) -> Result<u64, Illegal>
        ensures { DoesCsr result self.old self.new (done_by_write asked.now.writes asked.now.op
            asked.now.number asked.now.operand mode self.old old) }
    {
        if !asked.writes {
            return Ok(old);
        }
        match self.write(asked.number, new_value(asked.op, old, asked.operand), mode) {
            Ok(()) => Ok(old),
            Err(Illegal) => Err(Illegal),
        }
    }
}

fn new_value(op: CsrOp, old: u64, operand: u64) -> u64
    ensures { result ≡ new_value op old operand }
{
    match op {
        CsrOp::Write => operand,
        CsrOp::Set => old | operand,
        CsrOp::Clear => old & !operand,
    }
}
