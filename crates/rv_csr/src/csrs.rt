ghost use Rattle.std.specs.Prelude.{◌≡◌, ◌%◌, Some, true};
ghost use Rattle.bn_model.specs.CsrFile.{HasMode, Sstatus, Sie, Stvec, Satp, csr_of, csr_read};
ghost use Rattle.bn_model.specs.CsrFile.{csr_write, reset_csrs, sstatus_value, value_if_known};
ghost use Rattle.bn_model.specs.CsrFile.{with_csr, with_csr_if_known};
ghost use Rattle.bn_model.specs.Trapping.{after_software, after_sret, after_trap, interrupt_if};
ghost use Rattle.bn_model.specs.Trapping.{interrupt_taken, trap_target};
ghost use Rattle.rv_csr.specs.Outcomes.{ReadsCsr, WritesCsr};

use crate::bits::{flag, interrupt_bits, is_set, without_low_bits};
use crate::{Illegal, Wires};
use bn_types::{Cause, Mode};
use std::marker::Model;

/// UXL of `sstatus`: 64 bits in mode U.
const UXL_64: u64 = 0x2_0000_0000;

/// Bit 63 of a cause, set for an interrupt; the bits below it are the code.
const INTERRUPT: u64 = 0x8000_0000_0000_0000;

const SOFTWARE: Cause = Cause(INTERRUPT + 1);

const TIMER: Cause = Cause(INTERRUPT + 5);

const EXTERNAL: Cause = Cause(INTERRUPT + 9);

/// The CSRs of a hart: `sstatus`, `sie`, `stvec`, `sscratch`, `sepc`, `scause`, `stval`, `sip`,
/// `satp`, and the counters `cycle`, `time` and `instret` (Privileged ISA, "Supervisor CSRs").
/// There are no others.
#[derive(Clone, Copy, Debug, PartialEq, Eq)]
pub struct Csrs {
    sie: bool,
    spie: bool,
    spp: Mode,
    sum: bool,
    mxr: bool,
    ssie: bool,
    stie: bool,
    seie: bool,
    stvec_base: u64,
    stvec_vectored: bool,
    sscratch: u64,
    sepc: u64,
    scause: u64,
    stval: u64,
    ssip: bool,
    satp: u64,
}

impl Model for Csrs {
    ghost use Rattle.bn_model.specs.CsrFile.{CsrFile};

    ghost Value = { CsrFile };

    ghost use Rattle.rv_csr.specs.Fields.{file_of, inside_of, HasForms};

    ghost view = { file_of };

    ghost invariant = { HasForms };

    ghost inverse = { inside_of };
}

impl Csrs {
    /// The CSRs at reset: all that can be written is 0.
    pub fn reset() -> Csrs
        ensures { result ≡ reset_csrs }
    {
        Csrs {
            sie: false,
            spie: false,
            spp: Mode::U,
            sum: false,
            mxr: false,
            ssie: false,
            stie: false,
            seie: false,
            stvec_base: 0,
            stvec_vectored: false,
            sscratch: 0,
            sepc: 0,
            scause: 0,
            stval: 0,
            ssip: false,
            satp: 0,
        }
    }

    /// `satp`, whose MODE is 0 (Bare) or 8 (Sv39).
    pub fn satp(&self) -> u64
        ensures value { result ≡ self.now.satp }
        ensures mode { HasMode result }
    {
        self.satp
    }

    /// SUM of `sstatus`: mode S may load from and store to pages of mode U.
    pub fn sum(&self) -> bool
        ensures { result ≡ self.now.sum }
    {
        self.sum
    }

    /// MXR of `sstatus`: pages that may be executed may be loaded from.
    pub fn mxr(&self) -> bool
        ensures { result ≡ self.now.mxr }
    {
        self.mxr
    }

    /// A software interrupt comes: SSIP of `sip` is set.
    pub fn raise_software(&mut self)
        ensures { self.new ≡ after_software self.old }
    {
        self.ssip = true;
    }

    /// Reads the CSR of a number; `sip` shows `wires`, `cycle` and `time` read `clock` and
    /// `instret` reads
    /// `retired`. Illegal exactly where no CSR has the number or the mode is U.
    pub fn read(
        &self,
        number: u16,
        mode: Mode,
        wires: &Wires,
        clock: u64,
        retired: u64,
    ) -> Result<u64, Illegal>
        ensures { ReadsCsr result (csr_read self.now number mode wires.now
            (record { clock = clock; retired = retired })) }
    {
        if mode == Mode::U {
            return Err(Illegal);
        }
        self.read_known(number, wires, clock, retired)
    }

    fn read_known(
        &self,
        number: u16,
        wires: &Wires,
        clock: u64,
        retired: u64,
    ) -> Result<u64, Illegal>
        ensures { ReadsCsr result (value_if_known (csr_of number) self.now wires.now
            (record { clock = clock; retired = retired })) }
    {
        match number {
            0x100 => Ok(self.sstatus()),
            0x104 => Ok(interrupt_bits(self.ssie, self.stie, self.seie)),
            0x105 => Ok(self.stvec_base + flag(0, self.stvec_vectored)),
            0x140 => Ok(self.sscratch),
            0x141 => Ok(self.sepc),
            0x142 => Ok(self.scause),
            0x143 => Ok(self.stval),
            0x144 => Ok(interrupt_bits(self.ssip, wires.timer, wires.external)),
            0x180 => Ok(self.satp),
            0xC00 | 0xC01 => Ok(clock),
            0xC02 => Ok(retired),
            _ => Err(Illegal),
        }
    }

    fn sstatus(&self) -> u64
        ensures { result ≡ sstatus_value self.now }
    {
        let supervisor = match self.spp {
            Mode::U => false,
            Mode::S => true,
        };
        flag(1, self.sie)
            + flag(5, self.spie)
            + flag(8, supervisor)
            + flag(18, self.sum)
            + flag(19, self.mxr)
            + UXL_64
    }

    /// Writes the CSR of a number. Illegal, with nothing changed, exactly where no CSR has the
    /// number, the mode is U, or the CSR is a counter. A write to `satp` of a MODE other than 0 and
    /// 8 has no effect.
    pub fn write(&mut self, number: u16, value: u64, mode: Mode) -> Result<(), Illegal>
        ensures { WritesCsr result self.old self.new (csr_write self.old number value mode) }
    {
        match mode {
            Mode::U => Err(Illegal),
            Mode::S => self.write_known(number, value),
        }
    }

    fn write_known(&mut self, number: u16, value: u64) -> Result<(), Illegal>
        ensures { WritesCsr result self.old self.new
            (with_csr_if_known (csr_of number) value self.old) }
    {
        match number {
            0x100 => self.write_sstatus(value),
            0x104 => self.write_sie(value),
            0x105 => self.write_stvec(value),
            0x140 => self.sscratch = value,
            0x141 => self.sepc = without_low_bits(value),
            0x142 => self.scause = value,
            0x143 => self.stval = value,
            0x144 => self.ssip = is_set(value, 1),
            0x180 => self.write_satp(value),
            _ => return Err(Illegal),
        }
        Ok(())
    }

    fn write_sstatus(&mut self, value: u64)
        ensures { Some self.new ≡ with_csr Sstatus value self.old }
    {
        self.sie = is_set(value, 1);
        self.spie = is_set(value, 5);
        self.spp = if is_set(value, 8) { Mode::S } else { Mode::U };
        self.sum = is_set(value, 18);
        self.mxr = is_set(value, 19);
    }

    fn write_sie(&mut self, value: u64)
        ensures { Some self.new ≡ with_csr Sie value self.old }
    {
        self.ssie = is_set(value, 1);
        self.stie = is_set(value, 5);
        self.seie = is_set(value, 9);
    }

    fn write_stvec(&mut self, value: u64)
        ensures { Some self.new ≡ with_csr Stvec value self.old }
    {
        self.stvec_base = without_low_bits(value);
        self.stvec_vectored = is_set(value, 0);
    }

    fn write_satp(&mut self, value: u64)
        ensures { Some self.new ≡ with_csr Satp value self.old }
    {
        let mode = value >> 60;
        if mode == 0 || mode == 8 {
            self.satp = value;
        }
    }

    /// Enters the supervisor's trap handler from a mode at `pc`, a multiple of 4: `sepc`, `scause`
    /// and
    /// `stval` are set, SPP is the mode, SPIE is SIE, and SIE is cleared. Returns the new pc by
    /// `stvec`; the
    /// new mode is S (Privileged ISA, "Supervisor Trap Vector Base Address Register").
    pub fn enter_trap(&mut self, cause: Cause, pc: u64, value: u64, mode: Mode) -> u64
        requires { pc % 4 ≡ 0 }
        ensures state { self.new ≡ after_trap self.old cause pc value mode }
        ensures target { result ≡ trap_target self.old cause }
        ensures target_aligned { result % 4 ≡ 0 }
    {
        self.spie = self.sie;
        self.sie = false;
        self.spp = mode;
        self.sepc = pc;
        self.scause = cause.0;
        self.stval = value;
        self.target(cause)
    }

    fn target(&self, cause: Cause) -> u64
        ensures target { result ≡ trap_target self.now cause }
        ensures target_aligned { result % 4 ≡ 0 }
    {
        if self.stvec_vectored && cause.0 >= INTERRUPT {
            self.stvec_base
                .wrapping_add((cause.0 % INTERRUPT).wrapping_mul(4))
        } else {
            self.stvec_base
        }
    }

    /// Returns from a trap: SIE is SPIE, SPIE is set and SPP is U. Returns `sepc`, a multiple of 4,
    /// and the mode that SPP was, where the hart goes on (Privileged ISA, "Trap-Return
    /// Instructions").
    pub fn sret(&mut self) -> (u64, Mode)
        ensures state { self.new ≡ after_sret self.old }
        ensures pc { result.0 ≡ self.old.sepc }
        ensures pc_aligned { result.0 % 4 ≡ 0 }
        ensures mode { result.1 ≡ self.old.spp }
    {
        let mode = self.spp;
        self.sie = self.spie;
        self.spie = true;
        self.spp = Mode::U;
        (self.sepc, mode)
    }

    /// The interrupt that a hart in this mode takes before its next instruction: of those that are
    /// pending and enabled external (9) before software (1) before timer (5). None where there is
    /// none, and in mode S where SIE is clear (Privileged ISA, "Supervisor Interrupt Registers").
    pub fn pending(&self, mode: Mode, wires: &Wires) -> Option<Cause>
        ensures { result ≡ interrupt_taken self.now mode wires.now }
    {
        let taken = match mode {
            Mode::U => true,
            Mode::S => self.sie,
        };
        if taken {
            self.first_pending(wires)
        } else {
            None
        }
    }

    fn first_pending(&self, wires: &Wires) -> Option<Cause>
        ensures { result ≡ interrupt_if true self.now wires.now }
    {
        if wires.external && self.seie {
            Some(EXTERNAL)
        } else if self.ssip && self.ssie {
            Some(SOFTWARE)
        } else if wires.timer && self.stie {
            Some(TIMER)
        } else {
            None
        }
    }
}
