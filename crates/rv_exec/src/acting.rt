ghost use Rattle.std.specs.Prelude.{◌≡◌, ◌<◌};
ghost use Rattle.bn_model.specs.Acting.{act_of, operand, reads, register, writes};
ghost use Rattle.bn_model.specs.InsnRanges.{IsOperand, IsInRange, IsRegister};

use crate::arithmetic::{
    add_immediate, shift, shift_word, value_of_immediate, value_of_registers, value_of_words,
};
use crate::control::{branch, clear_bit_0, is_taken, jump_to};
use crate::extending::{extend_word, in_64_bits};
use bn_types::{Act, CsrFrom, CsrOp, Insn, Reg, Regs};

/// What an instruction at `pc` asks of its machine, by the registers before it (Unprivileged ISA,
/// "RV32I Base Integer Instruction Set", "RV64I Base Integer Instruction Set" and "Zicsr"). A
/// register reads what stands in `regs.x`, x0 too, where the machine keeps 0. Each field is in the
/// range that `Insn` tells. A taken jump or branch whose target isn't a multiple of 4 is a trap of
/// cause 0 with the target as its value, and no other instruction gives a trap: what its place or
/// mode forbids is the machine's to test.
#[tactic(auto, unfolding(bn_model::specs::Acting::act_of))]
pub fn act(insn: &Insn, regs: &Regs, pc: u64) -> Act
    requires { IsInRange insn.now }
    ensures { result ≡ act_of insn.now regs.now pc }
{
    match *insn {
        Insn::Lui { rd, imm } => Act::Set {
            rd,
            value: in_64_bits(i64::from(imm)),
        },
        Insn::Auipc { rd, imm } => Act::Set {
            rd,
            value: add_immediate(pc, imm),
        },
        Insn::Jal { rd, offset } => jump_to(add_immediate(pc, offset), rd, pc),
        Insn::Jalr { rd, base, offset } => jump_to(
            clear_bit_0(add_immediate(read(regs, base), offset)),
            rd,
            pc,
        ),
        Insn::Branch {
            test,
            left,
            right,
            offset,
        } => branch(
            is_taken(test, read(regs, left), read(regs, right)),
            add_immediate(pc, offset),
            pc,
        ),
        Insn::Load {
            width,
            signed,
            rd,
            base,
            offset,
        } => Act::LoadAt {
            va: add_immediate(read(regs, base), offset),
            width,
            signed,
            rd,
        },
        Insn::Store {
            width,
            base,
            value,
            offset,
        } => Act::StoreAt {
            va: add_immediate(read(regs, base), offset),
            width,
            value: read(regs, value),
        },
        Insn::Imm { op, rd, left, imm } => Act::Set {
            rd,
            value: value_of_immediate(op, read(regs, left), in_64_bits(i64::from(imm))),
        },
        Insn::Shift {
            op,
            rd,
            left,
            amount,
        } => Act::Set {
            rd,
            value: shift(op, read(regs, left), amount),
        },
        Insn::Reg2 {
            op,
            rd,
            left,
            right,
        } => Act::Set {
            rd,
            value: value_of_registers(op, read(regs, left), read(regs, right)),
        },
        Insn::AddiW { rd, left, imm } => Act::Set {
            rd,
            value: extend_word(add_immediate(read(regs, left), imm)),
        },
        Insn::ShiftW {
            op,
            rd,
            left,
            amount,
        } => Act::Set {
            rd,
            value: shift_word(op, read(regs, left), amount),
        },
        Insn::Reg2W {
            op,
            rd,
            left,
            right,
        } => Act::Set {
            rd,
            value: value_of_words(op, read(regs, left), read(regs, right)),
        },
        Insn::Fence { .. } => Act::Next,
        Insn::Csr {
            op,
            number,
            from,
            rd,
        } => Act::Csr {
            op,
            number,
            operand: operand(from, regs),
            reads: is_read(op, rd),
            writes: is_written(op, from),
            rd,
        },
        Insn::Ecall => Act::Ecall,
        Insn::Ebreak => Act::Ebreak,
        Insn::Sret => Act::Sret,
        Insn::Wfi => Act::Wfi,
        Insn::SfenceVma { .. } => Act::SfenceVma,
        Insn::Bastion(secure) => Act::Bastion(secure),
    }
}

fn read(regs: &Regs, reg: Reg) -> u64
    requires { IsRegister reg }
    ensures { result ≡ register regs.now reg }
{
    regs.x[reg.0 as usize]
}

fn operand(from: CsrFrom, regs: &Regs) -> u64
    requires { IsOperand from }
    ensures { result ≡ operand from regs.now }
{
    match from {
        CsrFrom::Register(reg) => read(regs, reg),
        CsrFrom::Number(number) => u64::from(number),
    }
}

fn is_read(op: CsrOp, rd: Reg) -> bool
    ensures { result ≡ reads op rd }
{
    match op {
        CsrOp::Write => rd.0 != 0,
        CsrOp::Set | CsrOp::Clear => true,
    }
}

fn is_written(op: CsrOp, from: CsrFrom) -> bool
    ensures { result ≡ writes op from }
{
    let source = match from {
        CsrFrom::Register(reg) => reg.0,
        CsrFrom::Number(number) => number,
    };
    match op {
        CsrOp::Write => true,
        CsrOp::Set | CsrOp::Clear => source != 0,
    }
}
