ghost use Rattle.std.specs.Prelude.{◌≡◌, ◌%◌, ◌<◌};
ghost use Rattle.bn_model.specs.State as flat;
ghost use Rattle.bn_model.specs.CsrFile.{HasMode};
ghost use Rattle.bn_switch.specs.Contexts.{IsOfModule, StandsIn, module_in};
ghost use Rattle.bn_machine.specs.Harts.{IsInside, hart_in_context};

use bn_switch::Context;
use bn_table::Seat;
use bn_types::{Asker, Cause, ModId, Mode, Reg, Regs};
use rv_csr::Csrs;
use std::marker::Model;
use std::mem::replace;

/// A timer that is never pending, since no clock comes so far.
const NEVER: u64 = u64::MAX;

/// The registers of a call's first two arguments and of its answer (RISC-V calling conventions,
/// "Integer Register Convention").
pub const A0: Reg = Reg(10);

const A1: Reg = Reg(11);

/// A hart (Unprivileged ISA, "RISC-V Software Execution Environments and Harts"), with the seat of
/// the module that it runs.
pub struct Hart {
    regs: Regs,
    pc: u64,
    mode: Mode,
    csrs: Csrs,
    timer: u64,
    retired: u64,
    started: bool,
    seat: Option<Seat>,
}

impl Model for Hart {
    ghost use Rattle.bn_model.specs.State as flat;
    ghost use Rattle.bn_switch.specs.Contexts.{IsOfModule, module_in};

    ghost Value = { flat.Hart };

    ghost view = { λ h. record {
      regs = h.regs;
      pc = h.pc;
      mode = h.mode;
      csrs = h.csrs;
      timer = h.timer;
      retired = h.retired;
      started = h.started;
      current = module_in h.seat;
    } };

    ghost invariant = { λ h. IsOfModule h.seat };
}

/// A hart is given up with its machine alone, and its seat with it.
impl Drop for Hart {
    fn drop(self) {
        let Hart {
            regs: _,
            pc: _,
            mode: _,
            csrs: _,
            timer: _,
            retired: _,
            started: _,
            seat,
        } = self;
        if let Some(seat) = seat {
            seat.end();
        }
    }
}

impl Hart {
    /// A hart that is started in mode S at the entry, with all registers and CSRs as at reset.
    pub fn started(entry: u64) -> Hart
        ensures { result ≡ flat.opening_hart entry }
    {
        Hart {
            regs: Regs::zero(),
            pc: entry,
            mode: Mode::S,
            csrs: Csrs::reset(),
            timer: NEVER,
            retired: 0,
            started: true,
            seat: None,
        }
    }

    /// Starts it, where it runs no module, in mode S at the pc, with its number and an opaque value
    /// in a0 and a1, and all else as at reset (SBI, "HART start").
    pub fn start(&mut self, number: u8, pc: u64, opaque: u64)
        requires outside { self.old.current ≡ flat.untrusted }
        ensures { self.new ≡ flat.started_hart number pc opaque }
    {
        let mut regs = Regs::zero();
        set_register(&mut regs, A0, u64::from(number));
        set_register(&mut regs, A1, opaque);
        self.regs = regs;
        self.pc = pc;
        self.mode = Mode::S;
        self.csrs = Csrs::reset();
        self.timer = NEVER;
        self.retired = 0;
        self.started = true;
    }

    /// A hart that isn't started.
    pub fn resting() -> Hart
        ensures { result ≡ flat.resting_hart }
    {
        Hart {
            regs: Regs::zero(),
            pc: 0,
            mode: Mode::U,
            csrs: Csrs::reset(),
            timer: NEVER,
            retired: 0,
            started: false,
            seat: None,
        }
    }

    /// The module that it runs, 0 for the untrusted world.
    pub fn current(&self) -> ModId
        ensures { result ≡ self.now.current }
    {
        match &self.seat {
            Some(seat) => seat.id(),
            None => ModId(0),
        }
    }

    /// Whether it runs a module.
    pub fn is_inside(&self) -> bool
        ensures { IsInside result self.now.current.0 }
    {
        // For the prover: reading a field tells what the invariant says of it.
        let _pc = &self.pc;
        self.seat.is_some()
    }

    /// Whether it is started.
    pub fn is_started(&self) -> bool
        ensures { result ≡ self.now.started }
    {
        self.started
    }

    /// The address of its next instruction.
    pub fn pc(&self) -> u64
        ensures { result ≡ self.now.pc }
    {
        self.pc
    }

    /// Its registers.
    pub fn regs(&self) -> &Regs
        ensures { result.now ≡ self.now.regs }
    {
        &self.regs
    }

    /// Its mode.
    pub fn mode(&self) -> Mode
        ensures { result ≡ self.now.mode }
    {
        self.mode
    }

    /// Its control and status registers.
    pub fn csrs(&self) -> &Csrs
        ensures { result.now ≡ self.now.csrs }
    {
        &self.csrs
    }

    /// The hart, of this number, as it accesses memory.
    pub fn asker(&self, number: u8) -> Asker
        ensures asker { result ≡ flat.asker number self.now }
        ensures mode { HasMode result.satp }
    {
        Asker {
            hart: number,
            module: self.current(),
            mode: self.mode,
            satp: self.csrs.satp(),
            sum: self.csrs.sum(),
            mxr: self.csrs.mxr(),
        }
    }

    /// The clock from which on its timer is pending.
    pub fn timer(&self) -> u64
        ensures { result ≡ self.now.timer }
    {
        self.timer
    }

    /// How many instructions it has completed without a trap, modulo 2^64.
    pub fn retired(&self) -> u64
        ensures { result ≡ self.now.retired }
    {
        self.retired
    }

    /// Goes on to the next instruction.
    pub fn go_on(&mut self)
        ensures { self.new ≡ flat.hart_after_next self.old }
    {
        self.pc = next_pc(self.pc);
        self.retired = self.retired.wrapping_add(1);
    }

    /// Sets rd and goes on. x0 keeps 0.
    pub fn go_on_with(&mut self, rd: Reg, value: u64)
        requires { rd.0 < 32 }
        ensures { self.new ≡ flat.hart_after_set self.old rd value }
    {
        self.pc = next_pc(self.pc);
        self.retired = self.retired.wrapping_add(1);
        set_register(&mut self.regs, rd, value);
    }

    /// Sets rd to the link and goes to the target.
    pub fn jump(&mut self, target: u64, rd: Reg, link: u64)
        requires { rd.0 < 32 }
        ensures { self.new ≡ flat.hart_after_jump self.old target rd link }
    {
        self.pc = target;
        self.retired = self.retired.wrapping_add(1);
        set_register(&mut self.regs, rd, link);
    }

    /// Takes a trap, with this value for `stval`: it goes on in mode S at the address of `stvec`.
    /// Its pc is a multiple of 4.
    pub fn trap(&mut self, cause: Cause, value: u64)
        requires { self.old.pc % 4 ≡ 0 }
        ensures { self.new ≡ flat.hart_after_trap self.old cause value }
    {
        self.pc = self.csrs.enter_trap(cause, self.pc, value, self.mode);
        self.mode = Mode::S;
    }

    /// Returns from a trap: it goes on at `sepc` in the mode of SPP.
    pub fn return_from_trap(&mut self)
        ensures { self.new ≡ flat.hart_after_sret self.old }
    {
        let (pc, mode) = self.csrs.sret();
        self.pc = pc;
        self.mode = mode;
        self.retired = self.retired.wrapping_add(1);
    }

    /// Sets rd to what a CSR held, has these CSRs and goes on.
    pub fn set_csrs(&mut self, rd: Reg, old: u64, csrs: Csrs)
        requires { rd.0 < 32 }
        ensures { self.new ≡ flat.hart_after_csr self.old rd old csrs }
    {
        self.csrs = csrs;
        self.go_on_with(rd, old);
    }

    /// Sets a0 to an error and a1 to 0 and goes on.
    pub fn answer(&mut self, error: u64)
        ensures { self.new ≡ flat.hart_after_answer self.old error }
    {
        set_register(&mut self.regs, A0, error);
        self.go_on_with(A1, 0);
    }

    /// Sets its timer, sets a0 to 0 and goes on.
    pub fn set_timer(&mut self, timer: u64)
        ensures { self.new ≡ flat.hart_after_timer self.old timer }
    {
        self.timer = timer;
        self.go_on_with(A0, 0);
    }

    /// A software interrupt comes to it.
    pub fn raise_software(&mut self)
        ensures { self.new ≡ flat.hart_after_software self.old }
    {
        self.csrs.raise_software();
    }

    /// Gives away what a module that runs takes with it. The untrusted world runs then, for as long
    /// as nothing is put in its place.
    pub fn leave(&mut self) -> Context
        ensures context { StandsIn result self.old }
        ensures left { self.new ≡ record self.old { current = flat.untrusted } }
    {
        Context {
            regs: self.regs,
            pc: self.pc,
            mode: self.mode,
            seat: replace(&mut self.seat, None),
        }
    }

    /// Goes on in a context. It runs the untrusted world before.
    pub fn enter(&mut self, context: Context)
        requires outside { self.old.current ≡ flat.untrusted }
        requires inside { IsOfModule context.seat }
        ensures { self.new ≡ hart_in_context self.old context }
    {
        let Context {
            regs,
            pc,
            mode,
            seat,
        } = context;
        self.regs = regs;
        self.pc = pc;
        self.mode = mode;
        match replace(&mut self.seat, seat) {
            Some(seat) => seat.end(),
            None => {}
        }
    }

    /// Goes on in a context, with one instruction more completed. It runs the untrusted world
    /// before.
    pub fn go_on_in(&mut self, context: Context)
        requires outside { self.old.current ≡ flat.untrusted }
        requires inside { IsOfModule context.seat }
        ensures { self.new ≡ record (hart_in_context self.old context)
            { retired = flat.one_more self.old.retired } }
    {
        self.enter(context);
        self.retired = self.retired.wrapping_add(1);
    }

    /// Sets a0 to 0 and goes on.
    pub fn accept(&mut self)
        ensures { self.new ≡ flat.hart_after_set self.old flat.a0 0 }
    {
        self.go_on_with(A0, 0);
    }
}

fn next_pc(pc: u64) -> u64
    ensures { result ≡ flat.next_pc pc }
{
    pc.wrapping_add(4)
}

fn set_register(regs: &mut Regs, rd: Reg, value: u64)
    requires { rd.0 < 32 }
    ensures { regs.new ≡ flat.with_register regs.old rd value }
{
    if rd.0 != 0 {
        regs.x[rd.0 as usize] = value;
    }
}
