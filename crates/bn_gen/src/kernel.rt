//! The kernel and its trap handler.
ghost use Rattle.std.specs.Prelude.{◌≡◌, ◌++◌, ◌+◌, ◌*◌, ◌<◌, OnOk};
ghost use Rattle.bn_model.specs.Generating as flat;
ghost use Rattle.bn_gen.specs.Parts as parts;

use crate::bytes::put;
use crate::listing::{
    SIE, SSCRATCH, SSTATUS, STVEC, TIME, addi, auipc, csrrs, csrrsi, csrrw, ld, sd,
};
use crate::modules::{MODULES, code_page};
use crate::stream::Stream;
use bn_types::{Insn, Reg, Secure, Test};
use std::alloc::AllocError;

/// How many calls are in a round of the kernel.
const CALLS: u8 = 64;

/// Appends the kernel, whose calls are drawn.
pub fn put_kernel(code: &mut Vec<u8>, stream: &mut Stream) -> Result<(), AllocError>
    ensures bytes { OnOk result (code.new.items ≡ code.old.items
        ++ parts.listed (parts.kernel (flat.kernel_calls 0 64 stream.old).value)) }
    ensures state { OnOk result (stream.new ≡ (flat.kernel_calls 0 64 stream.old).state) }
{
    put_start(code)?;
    put_launches(code)?;
    put(code, &[addi(8, 0, 100)])?;
    put_calls(code, stream)?;
    put_end(code)
}

/// The trap handler, a scratch area, the timer and its interrupts.
fn put_start(code: &mut Vec<u8>) -> Result<(), AllocError>
    ensures { OnOk result (code.new.items ≡ code.old.items ++ parts.listed flat.kernel_start) }
{
    put(
        code,
        &[
            auipc(5, 1),
            csrrw(0, STVEC, 5),
            auipc(5, 2),
            addi(5, 5, -8),
            csrrw(0, SSCRATCH, 5),
            addi(5, 0, 32),
            csrrw(0, SIE, 5),
            csrrs(10, TIME, 0),
            addi(10, 10, 500),
            addi(17, 0, 0),
            Insn::Ecall,
            csrrsi(0, SSTATUS, 2),
        ],
    )
}

/// Launches the modules, whose ids x18 to x25 keep.
fn put_launches(code: &mut Vec<u8>) -> Result<(), AllocError>
    ensures { OnOk result (code.new.items ≡ code.old.items ++ parts.listed (parts.launches 0 8)) }
{
    for i in 0..MODULES {
        put_launch(code, i)?;
    }
    Ok(())
}

#[tactic(auto, unfolding(crate::specs::Parts::launch))]
fn put_launch(code: &mut Vec<u8>, i: u8) -> Result<(), AllocError>
    requires { i < 8 }
    ensures { OnOk result (code.new.items ≡ code.old.items ++ parts.listed (parts.launch i)) }
{
    let offset = 48 + 12 * i32::from(i);
    let launch = Secure::Launch {
        rd: Reg(18 + i),
        at: Reg(5),
    };
    put(
        code,
        &[
            auipc(5, 8 + u32::from(i)),
            addi(5, 5, -offset),
            Insn::Bastion(launch),
        ],
    )
}

fn put_calls(code: &mut Vec<u8>, stream: &mut Stream) -> Result<(), AllocError>
    ensures bytes { OnOk result (code.new.items
        ≡ code.old.items ++ parts.listed (flat.kernel_calls 0 64 stream.old).value) }
    ensures state { OnOk result (stream.new ≡ (flat.kernel_calls 0 64 stream.old).state) }
{
    for j in 0..CALLS {
        put_drawn_call(code, j, stream)?;
    }
    Ok(())
}

#[tactic(auto, unfolding(bn_model::specs::Generating::kernel_call))]
fn put_drawn_call(code: &mut Vec<u8>, j: u8, stream: &mut Stream) -> Result<(), AllocError>
    requires { j < 64 }
    ensures bytes { OnOk result (code.new.items
        ≡ code.old.items ++ parts.listed (flat.kernel_call j stream.old).value) }
    ensures state { OnOk result (stream.new ≡ (flat.kernel_call j stream.old).state) }
{
    let i = stream.below(8) as u8;
    let number = stream.below(256) as u8;
    put_call(code, j, i, number)
}

/// Call j, of module i with a number. It prints the answer's low byte.
fn put_call(code: &mut Vec<u8>, j: u8, i: u8, number: u8) -> Result<(), AllocError>
    requires few { j < 64 }
    requires module { i < 8 }
    ensures { OnOk result (code.new.items
        ≡ code.old.items ++ parts.listed (flat.call_at (148 + 24 * j) i number)) }
{
    let offset = 148 + 24 * i32::from(j);
    let call = Secure::Call {
        rd: Reg(7),
        id: Reg(18 + i),
        entry: Reg(6),
    };
    put(
        code,
        &[
            auipc(6, u32::from(code_page(i))),
            addi(6, 6, -offset),
            addi(10, 0, i32::from(number)),
            Insn::Bastion(call),
            addi(17, 0, 1),
            Insn::Ecall,
        ],
    )
}

/// The way back to the first call, 100 times, and then shutdown.
fn put_end(code: &mut Vec<u8>) -> Result<(), AllocError>
    ensures { OnOk result (code.new.items ≡ code.old.items ++ parts.listed parts.kernel_end) }
{
    let back = Insn::Branch {
        test: Test::Ne,
        left: Reg(8),
        right: Reg(0),
        offset: -1540,
    };
    put(code, &[addi(8, 8, -1), back, addi(17, 0, 8), Insn::Ecall])
}

/// Appends the trap handler, which sets the timer anew.
pub fn put_handler(code: &mut Vec<u8>) -> Result<(), AllocError>
    ensures { OnOk result (code.new.items ≡ code.old.items ++ parts.listed flat.handler) }
{
    put(
        code,
        &[
            csrrw(5, SSCRATCH, 5),
            sd(10, 5, 0),
            sd(17, 5, 8),
            csrrs(10, TIME, 0),
            addi(10, 10, 500),
            addi(17, 0, 0),
            Insn::Ecall,
            ld(10, 5, 0),
            ld(17, 5, 8),
            csrrw(5, SSCRATCH, 5),
            Insn::Sret,
        ],
    )
}
