//! Tables and pages that lie outside a RAM of 1,024 pages, and pointers with flags.

use super::probe::{Probe, expect_probe};

/// Its code behind the handler.
const CODE: [u32; 114] = [
    // load at 0x0: a good page
    0x400fb703, // ld x14,1024(x31)
    0x00073503, // ld x10,0(x14)
    0x00000073, // ecall
    // load at 0x1000: the leaf leads to the first page after RAM
    0x408fb703, // ld x14,1032(x31)
    0x00000497, // auipc x9,0x0
    0x00c48493, // addi x9,x9,12
    0x00073303, // ld x6,0(x14)
    // store at 0x1000: the same
    0x408fb703, // ld x14,1032(x31)
    0x00000497, // auipc x9,0x0
    0x00c48493, // addi x9,x9,12
    0x00073023, // sd x0,0(x14)
    // fetch at 0x1000: the same
    0x408fb703, // ld x14,1032(x31)
    0x00000497, // auipc x9,0x0
    0x00c48493, // addi x9,x9,12
    0x00070067, // jalr x0,0(x14)
    // load at 0x2000: the last page before RAM
    0x410fb703, // ld x14,1040(x31)
    0x00000497, // auipc x9,0x0
    0x00c48493, // addi x9,x9,12
    0x00073303, // ld x6,0(x14)
    // store at 0x3000: the last of all PPNs
    0x418fb703, // ld x14,1048(x31)
    0x00000497, // auipc x9,0x0
    0x00c48493, // addi x9,x9,12
    0x00073023, // sd x0,0(x14)
    // fetch at 0x4000: PPN 0
    0x420fb703, // ld x14,1056(x31)
    0x00000497, // auipc x9,0x0
    0x00c48493, // addi x9,x9,12
    0x00070067, // jalr x0,0(x14)
    // load at 0x5000: outside RAM and U in mode S: the walk's fault comes first
    0x428fb703, // ld x14,1064(x31)
    0x00000497, // auipc x9,0x0
    0x00c48493, // addi x9,x9,12
    0x00073303, // ld x6,0(x14)
    // load at 0x6000: the last page of RAM
    0x430fb703, // ld x14,1072(x31)
    0x00073503, // ld x10,0(x14)
    0x00000073, // ecall
    // load at 0x7000: PPN 0x180000, whose address is RAM's first plus 2^32
    0x438fb703, // ld x14,1080(x31)
    0x00000497, // auipc x9,0x0
    0x00c48493, // addi x9,x9,12
    0x00073303, // ld x6,0(x14)
    // load at 0x8000: PPN 2^32 + 0x80009
    0x440fb703, // ld x14,1088(x31)
    0x00000497, // auipc x9,0x0
    0x00c48493, // addi x9,x9,12
    0x00073303, // ld x6,0(x14)
    // load at 0x1600000: the low table has PPN 2^32 + 0x80003
    0x448fb703, // ld x14,1096(x31)
    0x00000497, // auipc x9,0x0
    0x00c48493, // addi x9,x9,12
    0x00073303, // ld x6,0(x14)
    // load at 0x1004: misaligned comes before the walk
    0x450fb703, // ld x14,1104(x31)
    0x00000497, // auipc x9,0x0
    0x00c48493, // addi x9,x9,12
    0x00073303, // ld x6,0(x14)
    // load at 0x200000: the low table lies outside RAM
    0x458fb703, // ld x14,1112(x31)
    0x00000497, // auipc x9,0x0
    0x00c48493, // addi x9,x9,12
    0x00073303, // ld x6,0(x14)
    // store at 0x200000: the same
    0x458fb703, // ld x14,1112(x31)
    0x00000497, // auipc x9,0x0
    0x00c48493, // addi x9,x9,12
    0x00073023, // sd x0,0(x14)
    // fetch at 0x200000: the same
    0x458fb703, // ld x14,1112(x31)
    0x00000497, // auipc x9,0x0
    0x00c48493, // addi x9,x9,12
    0x00070067, // jalr x0,0(x14)
    // load at 0x400000: the low table has PPN 0
    0x460fb703, // ld x14,1120(x31)
    0x00000497, // auipc x9,0x0
    0x00c48493, // addi x9,x9,12
    0x00073303, // ld x6,0(x14)
    // store at 0xe00000: the low table has the last of all PPNs
    0x468fb703, // ld x14,1128(x31)
    0x00000497, // auipc x9,0x0
    0x00c48493, // addi x9,x9,12
    0x00073023, // sd x0,0(x14)
    // load at 0x600000: a pointer with U
    0x470fb703, // ld x14,1136(x31)
    0x00000497, // auipc x9,0x0
    0x00c48493, // addi x9,x9,12
    0x00073303, // ld x6,0(x14)
    // load at 0x800000: a pointer with A
    0x478fb703, // ld x14,1144(x31)
    0x00000497, // auipc x9,0x0
    0x00c48493, // addi x9,x9,12
    0x00073303, // ld x6,0(x14)
    // store at 0xa00000: a pointer with D
    0x480fb703, // ld x14,1152(x31)
    0x00000497, // auipc x9,0x0
    0x00c48493, // addi x9,x9,12
    0x00073023, // sd x0,0(x14)
    // fetch at 0x800000: a pointer with A
    0x478fb703, // ld x14,1144(x31)
    0x00000497, // auipc x9,0x0
    0x00c48493, // addi x9,x9,12
    0x00070067, // jalr x0,0(x14)
    // load at 0xc00000: a pointer with G is a pointer
    0x488fb703, // ld x14,1160(x31)
    0x00073503, // ld x10,0(x14)
    0x00000073, // ecall
    // load at 0x1400000: a pointer with bits 9:8 is a pointer
    0x490fb703, // ld x14,1168(x31)
    0x00073503, // ld x10,0(x14)
    0x00000073, // ecall
    // load at 0x1200000: a pointer with bit 54
    0x498fb703, // ld x14,1176(x31)
    0x00000497, // auipc x9,0x0
    0x00c48493, // addi x9,x9,12
    0x00073303, // ld x6,0(x14)
    // fetch at 0x1000000: a 2 MiB leaf that leads outside RAM
    0x4a0fb703, // ld x14,1184(x31)
    0x00000497, // auipc x9,0x0
    0x00c48493, // addi x9,x9,12
    0x00070067, // jalr x0,0(x14)
    // load at 0x40000000: the middle table lies outside RAM
    0x4a8fb703, // ld x14,1192(x31)
    0x00000497, // auipc x9,0x0
    0x00c48493, // addi x9,x9,12
    0x00073303, // ld x6,0(x14)
    // store at 0xc0000000: the middle table lies before RAM
    0x4b0fb703, // ld x14,1200(x31)
    0x00000497, // auipc x9,0x0
    0x00c48493, // addi x9,x9,12
    0x00073023, // sd x0,0(x14)
    // load at 0x100000000: a pointer with A, in the root
    0x4b8fb703, // ld x14,1208(x31)
    0x00000497, // auipc x9,0x0
    0x00c48493, // addi x9,x9,12
    0x00073303, // ld x6,0(x14)
    // the end
    0x00800893, // addi x17,x0,8
    0x00000073, // ecall
];

/// What it loads from byte 1024 on.
const VALUES: [u64; 24] = [
    0x0,
    0x1000,
    0x2000,
    0x3000,
    0x4000,
    0x5000,
    0x6000,
    0x7000,
    0x8000,
    0x1600000,
    0x1004,
    0x200000,
    0x400000,
    0xe00000,
    0x600000,
    0x800000,
    0xa00000,
    0xc00000,
    0x1400000,
    0x1200000,
    0x1000000,
    0x40000000,
    0xc0000000,
    0x100000000,
];

/// Its tables and pages: byte offsets, and the numbers there.
const TABLES: [(usize, u64); 27] = [
    (4096, 0x20000801), // page 1, entry 0
    (4104, 0x20100001), // page 1, entry 1
    (4112, 0x200000cf), // page 1, entry 2
    (4120, 0x1ffffc01), // page 1, entry 3
    (4128, 0x20000841), // page 1, entry 4
    (8192, 0x20000c01), // page 2, entry 0
    (8200, 0x20100001), // page 2, entry 1
    (8208, 0x1), // page 2, entry 2
    (8216, 0x20000c11), // page 2, entry 3
    (8224, 0x20000c41), // page 2, entry 4
    (8232, 0x20000c81), // page 2, entry 5
    (8240, 0x20000c21), // page 2, entry 6
    (8248, 0x3ffffffffffc01), // page 2, entry 7
    (8256, 0x201000cf), // page 2, entry 8
    (8264, 0x40000020000c01), // page 2, entry 9
    (8272, 0x20000f01), // page 2, entry 10
    (8280, 0x40020000c01), // page 2, entry 11
    (12288, 0x200024cf), // page 3, entry 0
    (12296, 0x201000cf), // page 3, entry 1
    (12304, 0x1ffffccf), // page 3, entry 2
    (12312, 0x3ffffffffffccf), // page 3, entry 3
    (12320, 0xcf), // page 3, entry 4
    (12328, 0x201000df), // page 3, entry 5
    (12336, 0x200ffccf), // page 3, entry 6
    (12344, 0x600000cf), // page 3, entry 7
    (12352, 0x400200024cf), // page 3, entry 8
    (36864, 0x8067), // page 9, entry 0
];

/// Its trace.
const LINES: [&str; 55] = [
    "out 10 0 67\n",
    "trap 14 0 0000000000000005 0000000080000050\n",
    "out 19 0 59\n",
    "trap 24 0 0000000000000007 0000000080000060\n",
    "out 29 0 59\n",
    "trap 35 0 0000000000000001 0000000000001000\n",
    "out 40 0 59\n",
    "trap 45 0 0000000000000005 0000000080000080\n",
    "out 50 0 59\n",
    "trap 55 0 0000000000000007 0000000080000090\n",
    "out 60 0 59\n",
    "trap 66 0 0000000000000001 0000000000004000\n",
    "out 71 0 59\n",
    "trap 76 0 000000000000000d 00000000800000b0\n",
    "out 81 0 59\n",
    "out 85 0 00\n",
    "trap 89 0 0000000000000005 00000000800000cc\n",
    "out 94 0 59\n",
    "trap 99 0 0000000000000005 00000000800000dc\n",
    "out 104 0 59\n",
    "trap 109 0 0000000000000005 00000000800000ec\n",
    "out 114 0 59\n",
    "trap 119 0 0000000000000004 00000000800000fc\n",
    "out 124 0 59\n",
    "trap 129 0 0000000000000005 000000008000010c\n",
    "out 134 0 59\n",
    "trap 139 0 0000000000000007 000000008000011c\n",
    "out 144 0 59\n",
    "trap 150 0 0000000000000001 0000000000200000\n",
    "out 155 0 59\n",
    "trap 160 0 0000000000000005 000000008000013c\n",
    "out 165 0 59\n",
    "trap 170 0 0000000000000007 000000008000014c\n",
    "out 175 0 59\n",
    "trap 180 0 000000000000000d 000000008000015c\n",
    "out 185 0 59\n",
    "trap 190 0 000000000000000d 000000008000016c\n",
    "out 195 0 59\n",
    "trap 200 0 000000000000000f 000000008000017c\n",
    "out 205 0 59\n",
    "trap 211 0 000000000000000c 0000000000800000\n",
    "out 216 0 59\n",
    "out 220 0 67\n",
    "out 223 0 67\n",
    "trap 227 0 000000000000000d 00000000800001b4\n",
    "out 232 0 59\n",
    "trap 238 0 0000000000000001 0000000001000000\n",
    "out 243 0 59\n",
    "trap 248 0 0000000000000005 00000000800001d4\n",
    "out 253 0 59\n",
    "trap 258 0 0000000000000007 00000000800001e4\n",
    "out 263 0 59\n",
    "trap 268 0 000000000000000d 00000000800001f4\n",
    "out 273 0 59\n",
    "end 277 shutdown 2c19f9223fe6d73fe0d1f43bc313e9e39d97730cecb64adba1386187bbab7663\n",
];

#[test]
fn what_lies_outside_ram_is_an_access_fault(rt: HostRuntime) {
    let guest = Probe {
        code: &CODE,
        values: &VALUES,
        tables: &TABLES,
    };
    expect_probe(&rt, rt.alloc(), 1024, &guest, &LINES);
}
