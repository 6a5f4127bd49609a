//! Words that GNU as 2.40 made, with their instructions (the secure ones by its `.insn r`), and
//! words that are no instruction.
use super::{decode, encode};
use bn_types::{CsrFrom, CsrOp, ImmOp, Insn, Op, Reg, Secure, ShiftOp, Test, Width, WordOp};

const LUI: [(u32, u8, i32); 6] = [
    (0x00000037, 0, 0),
    (0x000010b7, 1, 4096),
    (0x7ffff2b7, 5, 2147479552),
    (0x80000fb7, 31, -2147483648),
    (0xfffff537, 10, -4096),
    (0x123458b7, 17, 305418240),
];

const AUIPC: [(u32, u8, i32); 6] = [
    (0x00000017, 0, 0),
    (0x00001097, 1, 4096),
    (0x7ffff297, 5, 2147479552),
    (0x80000f97, 31, -2147483648),
    (0xfffff517, 10, -4096),
    (0x12345897, 17, 305418240),
];

const JAL: [(u32, u8, i32); 10] = [
    (0x0000006f, 0, 0),
    (0x002000ef, 1, 2),
    (0xffffffef, 31, -2),
    (0x7ffff2ef, 5, 1048574),
    (0x8000036f, 6, -1048576),
    (0x001000ef, 1, 2048),
    (0x000010ef, 1, 4096),
    (0x800ff3ef, 7, -4096),
    (0x400000ef, 1, 1024),
    (0x2ab2a0ef, 1, 174762),
];

const JALR: [(u32, u8, u8, i32); 5] = [
    (0x00008067, 0, 1, 0),
    (0x7fff80e7, 1, 31, 2047),
    (0x80010fe7, 31, 2, -2048),
    (0xfff302e7, 5, 6, -1),
    (0x004500e7, 1, 10, 4),
];

const BRANCHES: [(u32, Test, u8, u8, i32); 12] = [
    (0x7e040fe3, Test::Eq, 8, 0, 4094),
    (0x801f8063, Test::Eq, 31, 1, -4096),
    (0xfe1f9fe3, Test::Ne, 31, 1, -2),
    (0x01e29163, Test::Ne, 5, 30, 2),
    (0x01e2c0e3, Test::Lt, 5, 30, 2048),
    (0x800440e3, Test::Lt, 8, 0, -2048),
    (0x40045063, Test::Ge, 8, 0, 1024),
    (0xfe1fd1e3, Test::Ge, 31, 1, -30),
    (0x801fe063, Test::Ltu, 31, 1, -4096),
    (0x55e2eb63, Test::Ltu, 5, 30, 1366),
    (0x01e2f863, Test::Geu, 5, 30, 16),
    (0x7e047fe3, Test::Geu, 8, 0, 4094),
];

const LOADS: [(u32, Width, bool, u8, u8, i32); 14] = [
    (0x7ff28303, Width::B1, true, 6, 5, 2047),
    (0x80000f83, Width::B1, true, 31, 0, -2048),
    (0xfff01f83, Width::B2, true, 31, 0, -1),
    (0x000f9083, Width::B2, true, 1, 31, 0),
    (0x008fa083, Width::B4, true, 1, 31, 8),
    (0xff82a303, Width::B4, true, 6, 5, -8),
    (0x7ff2b303, Width::B8, true, 6, 5, 2047),
    (0x80003f83, Width::B8, true, 31, 0, -2048),
    (0xfff04f83, Width::B1, false, 31, 0, -1),
    (0x000fc083, Width::B1, false, 1, 31, 0),
    (0x008fd083, Width::B2, false, 1, 31, 8),
    (0xff82d303, Width::B2, false, 6, 5, -8),
    (0x7ff2e303, Width::B4, false, 6, 5, 2047),
    (0x80006f83, Width::B4, false, 31, 0, -2048),
];

const STORES: [(u32, Width, u8, u8, i32); 12] = [
    (0x7e628fa3, Width::B1, 5, 6, 2047),
    (0x81f00023, Width::B1, 0, 31, -2048),
    (0x001f8023, Width::B1, 31, 1, 0),
    (0xfff01fa3, Width::B2, 0, 31, -1),
    (0x001f9fa3, Width::B2, 31, 1, 31),
    (0x02629023, Width::B2, 5, 6, 32),
    (0x001fa423, Width::B4, 31, 1, 8),
    (0xfe62ac23, Width::B4, 5, 6, -8),
    (0xfff02023, Width::B4, 0, 31, -32),
    (0x8062b023, Width::B8, 5, 6, -2048),
    (0x7ff03fa3, Width::B8, 0, 31, 2047),
    (0x541fbaa3, Width::B8, 31, 1, 1365),
];

const IMMEDIATES: [(u32, ImmOp, u8, u8, i32); 13] = [
    (0x7ff28313, ImmOp::Add, 6, 5, 2047),
    (0x80000f93, ImmOp::Add, 31, 0, -2048),
    (0xfff02f93, ImmOp::Slt, 31, 0, -1),
    (0x001fa093, ImmOp::Slt, 1, 31, 1),
    (0x800fb093, ImmOp::Sltu, 1, 31, -2048),
    (0x7ff2b313, ImmOp::Sltu, 6, 5, 2047),
    (0x7ff2c313, ImmOp::Xor, 6, 5, 2047),
    (0x80004f93, ImmOp::Xor, 31, 0, -2048),
    (0xfff06f93, ImmOp::Or, 31, 0, -1),
    (0x001fe093, ImmOp::Or, 1, 31, 1),
    (0x800ff093, ImmOp::And, 1, 31, -2048),
    (0x7ff2f313, ImmOp::And, 6, 5, 2047),
    (0x00000013, ImmOp::Add, 0, 0, 0),
];

const SHIFTS: [(u32, ShiftOp, u8, u8, u8); 12] = [
    (0x00029313, ShiftOp::Left, 6, 5, 0),
    (0x01f01f93, ShiftOp::Left, 31, 0, 31),
    (0x020f9093, ShiftOp::Left, 1, 31, 32),
    (0x03f29313, ShiftOp::Left, 6, 5, 63),
    (0x00005f93, ShiftOp::Right, 31, 0, 0),
    (0x01ffd093, ShiftOp::Right, 1, 31, 31),
    (0x0202d313, ShiftOp::Right, 6, 5, 32),
    (0x03f05f93, ShiftOp::Right, 31, 0, 63),
    (0x400fd093, ShiftOp::RightSigned, 1, 31, 0),
    (0x41f2d313, ShiftOp::RightSigned, 6, 5, 31),
    (0x42005f93, ShiftOp::RightSigned, 31, 0, 32),
    (0x43ffd093, ShiftOp::RightSigned, 1, 31, 63),
];

const REGISTERS: [(u32, Op, u8, u8, u8); 10] = [
    (0x01f28333, Op::Add, 6, 5, 31),
    (0x40100fb3, Op::Sub, 31, 0, 1),
    (0x000f90b3, Op::Sll, 1, 31, 0),
    (0x00c5a533, Op::Slt, 10, 11, 12),
    (0x01f2b333, Op::Sltu, 6, 5, 31),
    (0x00104fb3, Op::Xor, 31, 0, 1),
    (0x000fd0b3, Op::Srl, 1, 31, 0),
    (0x40c5d533, Op::Sra, 10, 11, 12),
    (0x01f2e333, Op::Or, 6, 5, 31),
    (0x00107fb3, Op::And, 31, 0, 1),
];

const ADDIW: [(u32, u8, u8, i32); 3] = [
    (0x7ff2831b, 6, 5, 2047),
    (0x80000f9b, 31, 0, -2048),
    (0xffff809b, 1, 31, -1),
];

const WORD_SHIFTS: [(u32, ShiftOp, u8, u8, u8); 9] = [
    (0x0004139b, ShiftOp::Left, 7, 8, 0),
    (0x00101f9b, ShiftOp::Left, 31, 0, 1),
    (0x01ff909b, ShiftOp::Left, 1, 31, 31),
    (0x00005f9b, ShiftOp::Right, 31, 0, 0),
    (0x001fd09b, ShiftOp::Right, 1, 31, 1),
    (0x01f4539b, ShiftOp::Right, 7, 8, 31),
    (0x400fd09b, ShiftOp::RightSigned, 1, 31, 0),
    (0x4014539b, ShiftOp::RightSigned, 7, 8, 1),
    (0x41f05f9b, ShiftOp::RightSigned, 31, 0, 31),
];

const WORD_REGISTERS: [(u32, WordOp, u8, u8, u8); 5] = [
    (0x01f2833b, WordOp::Add, 6, 5, 31),
    (0x40100fbb, WordOp::Sub, 31, 0, 1),
    (0x000f90bb, WordOp::Sll, 1, 31, 0),
    (0x00c5d53b, WordOp::Srl, 10, 11, 12),
    (0x41f2d33b, WordOp::Sra, 6, 5, 31),
];

const FENCE: [(u32, u16, u8, u8); 5] = [
    (0x0ff0000f, 0x0ff, 0, 0),
    (0x0330000f, 0x033, 0, 0),
    (0x8330000f, 0x833, 0, 0),
    (0x0140000f, 0x014, 0, 0),
    (0xffff0f8f, 0xfff, 30, 31),
];

const CSR: [(u32, CsrOp, u16, CsrFrom, u8); 7] = [
    (
        0x10529073,
        CsrOp::Write,
        0x105,
        CsrFrom::Register(Reg(5)),
        0,
    ),
    (
        0x180312f3,
        CsrOp::Write,
        0x180,
        CsrFrom::Register(Reg(6)),
        5,
    ),
    (0xc0102573, CsrOp::Set, 0xc01, CsrFrom::Register(Reg(0)), 10),
    (
        0xffffbff3,
        CsrOp::Clear,
        0xfff,
        CsrFrom::Register(Reg(31)),
        31,
    ),
    (0x144fd0f3, CsrOp::Write, 0x144, CsrFrom::Number(31), 1),
    (0x10016073, CsrOp::Set, 0x100, CsrFrom::Number(2), 0),
    (0x00007ff3, CsrOp::Clear, 0x000, CsrFrom::Number(0), 31),
];

const ENVIRONMENT: [(u32, Insn); 6] = [
    (0x00000073, Insn::Ecall),
    (0x00100073, Insn::Ebreak),
    (0x10200073, Insn::Sret),
    (0x10500073, Insn::Wfi),
    (
        0x12000073,
        Insn::SfenceVma {
            rs1: Reg(0),
            rs2: Reg(0),
        },
    ),
    (
        0x121f8073,
        Insn::SfenceVma {
            rs1: Reg(31),
            rs2: Reg(1),
        },
    ),
];

const SECURE: [(u32, Secure); 9] = [
    (
        0x0002890b,
        Secure::Launch {
            rd: Reg(18),
            at: Reg(5),
        },
    ),
    (
        0x0069138b,
        Secure::Call {
            rd: Reg(7),
            id: Reg(18),
            entry: Reg(6),
        },
    ),
    (0x0000200b, Secure::Ret),
    (
        0x0000bf8b,
        Secure::Evict {
            rd: Reg(31),
            id: Reg(1),
        },
    ),
    (
        0x01efc08b,
        Secure::Ident {
            rd: Reg(1),
            id: Reg(31),
            word: Reg(30),
        },
    ),
    (0x00005f8b, Secure::Caller { rd: Reg(31) }),
    (
        0x0005e50b,
        Secure::Offerer {
            rd: Reg(10),
            at: Reg(11),
        },
    ),
    (
        0x000ff60b,
        Secure::Sget {
            rd: Reg(12),
            index: Reg(31),
        },
    ),
    (
        0x03df0f8b,
        Secure::Sset {
            rd: Reg(31),
            index: Reg(30),
            value: Reg(29),
        },
    ),
];

/// No instructions, each by one field.
const NONE: [u32; 42] = [
    0x00000000, // zeros
    0xffffffff, // ones
    0x0000208b, // b.ret with rd
    0x0000a00b, // b.ret with rs1
    0x0020200b, // b.ret with rs2
    0x0012890b, // b.launch with rs2
    0x0000df8b, // b.caller with rs1
    0x0200200b, // custom-0, funct7 1, funct3 010
    0x0400000b, // custom-0, funct7 2
    0x000000f3, // ecall with rd
    0x00008073, // ecall with rs1
    0x001000f3, // ebreak with rd
    0x10208073, // sret with rs1
    0x105000f3, // wfi with rd
    0x120000f3, // sfence.vma with rd
    0x30200073, // mret
    0x00200073, // uret
    0x00004073, // system, funct3 100
    0x04029313, // slli by 64
    0x82029313, // slli with bit 31
    0x0402d313, // srli by 64
    0x4402d313, // srai by 64
    0xc202d313, // srai with bit 31
    0x0202931b, // slliw by 32
    0x0202d31b, // srliw by 32
    0x4202d31b, // sraiw by 32
    0x0002a31b, // op-imm-32, funct3 010
    0x02a50533, // mul
    0x40a51533, // sll with funct7 0100000
    0x00a5253b, // op-32, funct3 010
    0x40a5153b, // sllw with funct7 0100000
    0x0000100f, // fence.i
    0x00007003, // load, funct3 111
    0x00004023, // store, funct3 100
    0x00001067, // jalr, funct3 001
    0x00002063, // branch, funct3 010
    0x00003063, // branch, funct3 011
    0x00000001, // a word of 16 bits
    0x00000016, // opcode 0010110
    0x0000007f, // opcode 1111111
    0x00000053, // op-fp
    0x0000002b, // custom-1
];

/// The word decodes to the instruction, which encodes to the word.
fn agrees(word: u32, insn: Insn) -> bool {
    match decode(word) {
        Some(found) => found == insn && encode(&found) == word,
        None => false,
    }
}

#[test]
fn lui_agrees_with_the_assembler(rt: HostRuntime) {
    for (word, rd, imm) in LUI {
        assert!(rt; agrees(word, Insn::Lui { rd: Reg(rd), imm }), "at {word}");
    }
}

#[test]
fn auipc_agrees_with_the_assembler(rt: HostRuntime) {
    for (word, rd, imm) in AUIPC {
        assert!(rt; agrees(word, Insn::Auipc { rd: Reg(rd), imm }), "at {word}");
    }
}

#[test]
fn jal_agrees_with_the_assembler(rt: HostRuntime) {
    for (word, rd, offset) in JAL {
        assert!(rt;
            agrees(
                word,
                Insn::Jal {
                    rd: Reg(rd),
                    offset
                }
            ),
            "at {word}"
        );
    }
}

#[test]
fn jalr_agrees_with_the_assembler(rt: HostRuntime) {
    for (word, rd, base, offset) in JALR {
        assert!(rt;
            agrees(
                word,
                Insn::Jalr {
                    rd: Reg(rd),
                    base: Reg(base),
                    offset
                }
            ),
            "at {word}"
        );
    }
}

#[test]
fn branches_agree_with_the_assembler(rt: HostRuntime) {
    for (word, test, left, right, offset) in BRANCHES {
        assert!(rt;
            agrees(
                word,
                Insn::Branch {
                    test,
                    left: Reg(left),
                    right: Reg(right),
                    offset
                }
            ),
            "at {word}"
        );
    }
}

#[test]
fn loads_agree_with_the_assembler(rt: HostRuntime) {
    for (word, width, signed, rd, base, offset) in LOADS {
        assert!(rt;
            agrees(
                word,
                Insn::Load {
                    width,
                    signed,
                    rd: Reg(rd),
                    base: Reg(base),
                    offset
                }
            ),
            "at {word}"
        );
    }
}

#[test]
fn stores_agree_with_the_assembler(rt: HostRuntime) {
    for (word, width, base, value, offset) in STORES {
        assert!(rt;
            agrees(
                word,
                Insn::Store {
                    width,
                    base: Reg(base),
                    value: Reg(value),
                    offset
                }
            ),
            "at {word}"
        );
    }
}

#[test]
fn immediates_agree_with_the_assembler(rt: HostRuntime) {
    for (word, op, rd, left, imm) in IMMEDIATES {
        assert!(rt;
            agrees(
                word,
                Insn::Imm {
                    op,
                    rd: Reg(rd),
                    left: Reg(left),
                    imm
                }
            ),
            "at {word}"
        );
    }
}

#[test]
fn shifts_agree_with_the_assembler(rt: HostRuntime) {
    for (word, op, rd, left, amount) in SHIFTS {
        assert!(rt;
            agrees(
                word,
                Insn::Shift {
                    op,
                    rd: Reg(rd),
                    left: Reg(left),
                    amount
                }
            ),
            "at {word}"
        );
    }
}

#[test]
fn registers_agree_with_the_assembler(rt: HostRuntime) {
    for (word, op, rd, left, right) in REGISTERS {
        assert!(rt;
            agrees(
                word,
                Insn::Reg2 {
                    op,
                    rd: Reg(rd),
                    left: Reg(left),
                    right: Reg(right)
                }
            ),
            "at {word}"
        );
    }
}

#[test]
fn addiw_agrees_with_the_assembler(rt: HostRuntime) {
    for (word, rd, left, imm) in ADDIW {
        assert!(rt;
            agrees(
                word,
                Insn::AddiW {
                    rd: Reg(rd),
                    left: Reg(left),
                    imm
                }
            ),
            "at {word}"
        );
    }
}

#[test]
fn word_shifts_agree_with_the_assembler(rt: HostRuntime) {
    for (word, op, rd, left, amount) in WORD_SHIFTS {
        assert!(rt;
            agrees(
                word,
                Insn::ShiftW {
                    op,
                    rd: Reg(rd),
                    left: Reg(left),
                    amount
                }
            ),
            "at {word}"
        );
    }
}

#[test]
fn word_registers_agree_with_the_assembler(rt: HostRuntime) {
    for (word, op, rd, left, right) in WORD_REGISTERS {
        assert!(rt;
            agrees(
                word,
                Insn::Reg2W {
                    op,
                    rd: Reg(rd),
                    left: Reg(left),
                    right: Reg(right)
                }
            ),
            "at {word}"
        );
    }
}

#[test]
fn fence_agrees_with_the_assembler(rt: HostRuntime) {
    for (word, high, rs1, rd) in FENCE {
        assert!(rt;
            agrees(
                word,
                Insn::Fence {
                    high,
                    rs1: Reg(rs1),
                    rd: Reg(rd)
                }
            ),
            "at {word}"
        );
    }
}

#[test]
fn csr_agrees_with_the_assembler(rt: HostRuntime) {
    for (word, op, number, from, rd) in CSR {
        assert!(rt;
            agrees(
                word,
                Insn::Csr {
                    op,
                    number,
                    from,
                    rd: Reg(rd)
                }
            ),
            "at {word}"
        );
    }
}

#[test]
fn environment_agrees_with_the_assembler(rt: HostRuntime) {
    for (word, insn) in ENVIRONMENT {
        assert!(rt; agrees(word, insn), "at {word}");
    }
}

#[test]
fn secure_agrees_with_the_assembler(rt: HostRuntime) {
    for (word, secure) in SECURE {
        assert!(rt; agrees(word, Insn::Bastion(secure)), "at {word}");
    }
}

#[test]
fn other_words_have_no_instruction(rt: HostRuntime) {
    for word in NONE {
        assert!(rt; decode(word).is_none(), "at {word}");
    }
}
