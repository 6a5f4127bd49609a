//! The words of each format (Unprivileged ISA, "Base Instruction Formats").
ghost use Rattle.std.specs.Prelude.{◌≡◌, ◌^◌, ◌<◌};
ghost use Rattle.bn_model.specs.Encoding.{FormatR, FormatI, FormatS, FormatB, FormatU, FormatJ};
ghost use Rattle.bn_model.specs.Encoding.{FormatShift, FormatShiftW, FormatNumber};
ghost use Rattle.bn_model.specs.InsnRanges.{FitsBits, IsMultipleOf, IsRegister};

use crate::encoding::immediates::{bits12, bits13, bits21, bits32};
use bn_types::Reg;

/// Format R: `funct7 | rs2 | rs1 | funct3 | rd | opcode`, of 7, 5, 5, 3, 5 and 7 bits.
pub fn word_r(opcode: u32, funct3: u32, funct7: u32, rd: Reg, rs1: Reg, rs2: Reg) -> u32
    requires opcode_fits { opcode < 2 ^ 7 }
    requires funct3_fits { funct3 < 2 ^ 3 }
    requires funct7_fits { funct7 < 2 ^ 7 }
    requires rd_fits { IsRegister rd }
    requires rs1_fits { IsRegister rs1 }
    requires rs2_fits { IsRegister rs2 }
    ensures { FormatR result opcode funct3 funct7 rd rs1 rs2 }
{
    opcode
        + (u32::from(rd.0) << 7)
        + (funct3 << 12)
        + (u32::from(rs1.0) << 15)
        + (u32::from(rs2.0) << 20)
        + (funct7 << 25)
}

/// Format I: `imm[11:0] | rs1 | funct3 | rd | opcode`.
pub fn word_i(opcode: u32, funct3: u32, rd: Reg, rs1: Reg, immediate: i32) -> u32
    requires opcode_fits { opcode < 2 ^ 7 }
    requires funct3_fits { funct3 < 2 ^ 3 }
    requires rd_fits { IsRegister rd }
    requires rs1_fits { IsRegister rs1 }
    requires immediate_fits { FitsBits 12 immediate }
    ensures { FormatI result opcode funct3 rd rs1 immediate }
{
    let bits = bits12(immediate);
    opcode + (u32::from(rd.0) << 7) + (funct3 << 12) + (u32::from(rs1.0) << 15) + (bits << 20)
}

/// Format S: `imm[11:5] | rs2 | rs1 | funct3 | imm[4:0] | opcode`.
pub fn word_s(opcode: u32, funct3: u32, rs1: Reg, rs2: Reg, immediate: i32) -> u32
    requires opcode_fits { opcode < 2 ^ 7 }
    requires funct3_fits { funct3 < 2 ^ 3 }
    requires rs1_fits { IsRegister rs1 }
    requires rs2_fits { IsRegister rs2 }
    requires immediate_fits { FitsBits 12 immediate }
    ensures { FormatS result opcode funct3 rs1 rs2 immediate }
{
    let bits = bits12(immediate);
    opcode
        + (funct3 << 12)
        + (u32::from(rs1.0) << 15)
        + (u32::from(rs2.0) << 20)
        + ((bits & 0x1f) << 7)
        + ((bits >> 5) << 25)
}

/// Format B: `imm[12] | imm[10:5] | rs2 | rs1 | funct3 | imm[4:1] | imm[11] | opcode`.
pub fn word_b(opcode: u32, funct3: u32, rs1: Reg, rs2: Reg, immediate: i32) -> u32
    requires opcode_fits { opcode < 2 ^ 7 }
    requires funct3_fits { funct3 < 2 ^ 3 }
    requires rs1_fits { IsRegister rs1 }
    requires rs2_fits { IsRegister rs2 }
    requires immediate_fits { FitsBits 13 immediate }
    requires immediate_even { IsMultipleOf 2 immediate }
    ensures { FormatB result opcode funct3 rs1 rs2 immediate }
{
    let bits = bits13(immediate);
    opcode
        + (funct3 << 12)
        + (u32::from(rs1.0) << 15)
        + (u32::from(rs2.0) << 20)
        + (((bits >> 11) & 1) << 7)
        + (((bits >> 1) & 0xf) << 8)
        + (((bits >> 5) & 0x3f) << 25)
        + ((bits >> 12) << 31)
}

/// Format U: `imm[31:12] | rd | opcode`.
pub fn word_u(opcode: u32, rd: Reg, immediate: i32) -> u32
    requires opcode_fits { opcode < 2 ^ 7 }
    requires rd_fits { IsRegister rd }
    requires immediate_fits { FitsBits 32 immediate }
    requires immediate_upper { IsMultipleOf 4096 immediate }
    ensures { FormatU result opcode rd immediate }
{
    let bits = bits32(immediate);
    opcode + (u32::from(rd.0) << 7) + bits
}

/// Format J: `imm[20] | imm[10:1] | imm[11] | imm[19:12] | rd | opcode`.
pub fn word_j(opcode: u32, rd: Reg, immediate: i32) -> u32
    requires opcode_fits { opcode < 2 ^ 7 }
    requires rd_fits { IsRegister rd }
    requires immediate_fits { FitsBits 21 immediate }
    requires immediate_even { IsMultipleOf 2 immediate }
    ensures { FormatJ result opcode rd immediate }
{
    let bits = bits21(immediate);
    opcode
        + (u32::from(rd.0) << 7)
        + (((bits >> 12) & 0xff) << 12)
        + (((bits >> 11) & 1) << 20)
        + (((bits >> 1) & 0x3ff) << 21)
        + ((bits >> 20) << 31)
}

/// A shift of 64 bits: `funct6 | amount[5:0] | rs1 | funct3 | rd | opcode`.
pub fn word_shift(opcode: u32, funct3: u32, funct6: u32, rd: Reg, rs1: Reg, amount: u8) -> u32
    requires opcode_fits { opcode < 2 ^ 7 }
    requires funct3_fits { funct3 < 2 ^ 3 }
    requires funct6_fits { funct6 < 2 ^ 6 }
    requires rd_fits { IsRegister rd }
    requires rs1_fits { IsRegister rs1 }
    requires amount_fits { amount < 64 }
    ensures { FormatShift result opcode funct3 funct6 rd rs1 amount }
{
    opcode
        + (u32::from(rd.0) << 7)
        + (funct3 << 12)
        + (u32::from(rs1.0) << 15)
        + (u32::from(amount) << 20)
        + (funct6 << 26)
}

/// A shift of 32 bits: `funct7 | amount[4:0] | rs1 | funct3 | rd | opcode`.
pub fn word_shift_w(opcode: u32, funct3: u32, funct7: u32, rd: Reg, rs1: Reg, amount: u8) -> u32
    requires opcode_fits { opcode < 2 ^ 7 }
    requires funct3_fits { funct3 < 2 ^ 3 }
    requires funct7_fits { funct7 < 2 ^ 7 }
    requires rd_fits { IsRegister rd }
    requires rs1_fits { IsRegister rs1 }
    requires amount_fits { amount < 32 }
    ensures { FormatShiftW result opcode funct3 funct7 rd rs1 amount }
{
    opcode
        + (u32::from(rd.0) << 7)
        + (funct3 << 12)
        + (u32::from(rs1.0) << 15)
        + (u32::from(amount) << 20)
        + (funct7 << 25)
}

/// Format I with a number without sign, as a CSR's: `number[11:0] | rs1 | funct3 | rd | opcode`.
pub fn word_number(opcode: u32, funct3: u32, rd: Reg, rs1: Reg, number: u16) -> u32
    requires opcode_fits { opcode < 2 ^ 7 }
    requires funct3_fits { funct3 < 2 ^ 3 }
    requires rd_fits { IsRegister rd }
    requires rs1_fits { IsRegister rs1 }
    requires number_fits { number < 2 ^ 12 }
    ensures { FormatNumber result opcode funct3 rd rs1 number }
{
    opcode
        + (u32::from(rd.0) << 7)
        + (funct3 << 12)
        + (u32::from(rs1.0) << 15)
        + (u32::from(number) << 20)
}
