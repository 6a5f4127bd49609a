//! The modules: a code page and a data page for each, and the segment that it is launched from.
ghost use Rattle.std.specs.Prelude.{◌≡◌, ◌++◌, ◌<◌, OnOk};
ghost use Rattle.bn_model.specs.Generating as flat;
ghost use Rattle.bn_model.specs.InsnRanges.{IsInRange};
ghost use Rattle.bn_gen.specs.Parts as parts;

use crate::bytes::{PAGE_BYTES, fill_page, put, put_zeros};
use crate::listing::{addi, auipc, ld, sd};
use crate::stream::Stream;
use arrayvec::ArrayVec;
use bn_types::{Insn, Mode, Op, Reg, Rights, Secure, SegPage, Segment, ShiftOp, Sort, Vpn};
use std::alloc::{AllocError, Global};

/// How many modules there are.
pub const MODULES: u8 = 8;

/// How many operations a module does.
const OPERATIONS: u8 = 16;

/// The page of a module's code.
pub fn code_page(i: u8) -> u8
    requires { i < 8 }
    ensures { result ≡ flat.code_page i }
{
    16 + 2 * i
}

/// Appends the pages of the modules, which are drawn one after the other.
pub fn put_modules(
    alloc: Global,
    pages: &mut Vec<u8>,
    stream: &mut Stream,
) -> Result<(), AllocError>
    ensures bytes { OnOk result (pages.new.items
        ≡ pages.old.items ++ parts.pages_of (parts.modules 8 stream.old).value) }
    ensures state { OnOk result (stream.new ≡ (parts.modules 8 stream.old).state) }
{
    for _module in 0..MODULES {
        put_module(alloc, pages, stream)?;
    }
    Ok(())
}

/// Appends a code page and a data page, which is of zeros.
#[tactic(auto, unfolding(crate::specs::Parts::module_pages))]
fn put_module(alloc: Global, pages: &mut Vec<u8>, stream: &mut Stream) -> Result<(), AllocError>
    ensures bytes { OnOk result (pages.new.items
        ≡ pages.old.items ++ parts.module_pages (flat.module_code stream.old).value) }
    ensures state { OnOk result (stream.new ≡ (flat.module_code stream.old).state) }
{
    let mut page = Vec::new(alloc);
    put_code(&mut page, stream)?;
    fill_page(&mut page)?;
    pages.extend_from_slice(page.as_slice())?;
    put_zeros(pages, PAGE_BYTES)
}

fn put_code(code: &mut Vec<u8>, stream: &mut Stream) -> Result<(), AllocError>
    ensures bytes { OnOk result (code.new.items
        ≡ code.old.items ++ parts.listed (flat.module_code stream.old).value) }
    ensures state { OnOk result (stream.new ≡ (flat.module_code stream.old).state) }
{
    put(code, &[auipc(5, 1), ld(6, 5, 0)])?;
    put_operations(code, stream)?;
    put(
        code,
        &[sd(6, 5, 0), addi(10, 6, 0), Insn::Bastion(Secure::Ret)],
    )
}

fn put_operations(code: &mut Vec<u8>, stream: &mut Stream) -> Result<(), AllocError>
    ensures bytes { OnOk result (code.new.items
        ≡ code.old.items ++ parts.listed (parts.operations 16 stream.old).value) }
    ensures state { OnOk result (stream.new ≡ (parts.operations 16 stream.old).state) }
{
    for _operation in 0..OPERATIONS {
        let operation = draw_operation(stream);
        put(code, &[operation])?;
    }
    Ok(())
}

#[tactic(auto, unfolding(crate::specs::Parts::operation))]
fn draw_operation(stream: &mut Stream) -> Insn
    ensures value { result ≡ (parts.operation stream.old).value }
    ensures state { stream.new ≡ (parts.operation stream.old).state }
    ensures range { IsInRange result }
{
    let number = stream.below(4);
    operation_by(number, stream)
}

/// The operation of a number from 0 to 3, with its own number drawn.
fn operation_by(number: u64, stream: &mut Stream) -> Insn
    ensures value { result ≡ (flat.operation_by number stream.old).value }
    ensures state { stream.new ≡ (flat.operation_by number stream.old).state }
    ensures range { IsInRange result }
{
    match number {
        0 => on_x6(Op::Add),
        1 => on_x6(Op::Xor),
        2 => Insn::Shift {
            op: ShiftOp::Left,
            rd: Reg(6),
            left: Reg(6),
            amount: 1 + stream.below(63) as u8,
        },
        _ => addi(6, 6, stream.below(2048) as i32),
    }
}

/// An operation of x6 and x10.
fn on_x6(op: Op) -> Insn
    ensures listed { result ≡ Insn.Reg2 op (flat.x 6) (flat.x 6) (flat.x 10) }
    ensures range { IsInRange result }
{
    Insn::Reg2 {
        op,
        rd: Reg(6),
        left: Reg(6),
        right: Reg(10),
    }
}

/// Appends the pages of the modules' segment texts.
pub fn put_segments(alloc: Global, pages: &mut Vec<u8>) -> Result<(), AllocError>
    ensures { OnOk result (pages.new.items ≡ pages.old.items ++ parts.segment_pages 0 8) }
{
    for i in 0..MODULES {
        put_segment(alloc, pages, i)?;
    }
    Ok(())
}

#[tactic(auto, unfolding(crate::specs::Parts::segment_page))]
fn put_segment(alloc: Global, pages: &mut Vec<u8>, i: u8) -> Result<(), AllocError>
    requires { i < 8 }
    ensures { OnOk result (pages.new.items ≡ pages.old.items ++ parts.segment_page i) }
{
    let mut text = [0; 1232];
    bn_segment::write(&segment(i), &mut text);
    let mut page = Vec::new(alloc);
    page.extend_from_slice(&text)?;
    fill_page(&mut page)?;
    pages.extend_from_slice(page.as_slice())
}

/// The segment of a module, whose pages lie at their own physical addresses.
#[tactic(auto, unfolding(bn_model::specs::Generating::module_segment))]
fn segment(i: u8) -> Segment
    requires { i < 8 }
    ensures { result ≡ flat.module_segment i }
{
    let code = u64::from(code_page(i));
    let mut entries = ArrayVec::new();
    entries.push(0x8000_0000 + 4096 * code);
    let mut pages = ArrayVec::new();
    pages.push(own_page(code, 5));
    pages.push(own_page(code + 1, 3));
    Segment {
        mode: Mode::S,
        entries,
        pages,
        partners: ArrayVec::new(),
    }
}

/// A private page at its own physical page number.
fn own_page(page: u64, rights: u8) -> SegPage
    requires { page < 64 }
    ensures { result ≡ flat.own_page page rights }
{
    SegPage {
        vpn: Vpn(0x80000 + page),
        sort: Sort::Private,
        rights: Rights(rights),
        mask: 0,
    }
}
