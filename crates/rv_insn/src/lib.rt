//! The instructions of RV64I, Zicsr, the supervisor level and the secure extension: from words of
//! 32 bits and to words. The formats (Unprivileged ISA, "Base Instruction Formats" and "Immediate
//! Encoding Variants"), from bit 31 to bit 0:
//!
//! ```text
//! R  funct7[6:0]       rs2[4:0]  rs1[4:0]  funct3[2:0]  rd[4:0]           opcode[6:0]
//! I  imm[11:0]                   rs1[4:0]  funct3[2:0]  rd[4:0]           opcode[6:0]
//! S  imm[11:5]         rs2[4:0]  rs1[4:0]  funct3[2:0]  imm[4:0]          opcode[6:0]
//! B  imm[12] imm[10:5] rs2[4:0]  rs1[4:0]  funct3[2:0]  imm[4:1] imm[11]  opcode[6:0]
//! U  imm[31:12]                                         rd[4:0]           opcode[6:0]
//! J  imm[20] imm[10:1] imm[11] imm[19:12]               rd[4:0]           opcode[6:0]
//! ```
//!
//! The secure instructions have opcode custom-0 and format R; a field that one of them doesn't name
//! is zero:
//!
//! ```text
//! Launch   funct7 0  funct3 000  rd, rs1 = at
//! Call     funct7 0  funct3 001  rd, rs1 = id, rs2 = entry
//! Ret      funct7 0  funct3 010
//! Evict    funct7 0  funct3 011  rd, rs1 = id
//! Ident    funct7 0  funct3 100  rd, rs1 = id, rs2 = word
//! Caller   funct7 0  funct3 101  rd
//! Offerer  funct7 0  funct3 110  rd, rs1 = at
//! Sget     funct7 0  funct3 111  rd, rs1 = index
//! Sset     funct7 1  funct3 000  rd, rs1 = index, rs2 = value
//! ```
#![tactic(auto)]

pub use decoding::decode;
pub use encoding::encode;

mod decoding;
mod encoding;
mod opcodes;
#[cfg(test)]
mod tests;
