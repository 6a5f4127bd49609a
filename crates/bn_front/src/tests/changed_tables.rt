//! Tables and `satp` that change: each access sees them as they are, with no SFENCE.VMA.

use super::probe::{Probe, expect_probe};

/// Its code behind the handler.
const CODE: [u32; 85] = [
    // load at 0x0: page 9
    0x400fb703, // ld x14,1024(x31)
    0x00073503, // ld x10,0(x14)
    0x00000073, // ecall
    0x408fb383, // ld x7,1032(x31)
    0x410fb303, // ld x6,1040(x31)
    0x0063b023, // sd x6,0(x7)
    // load at 0x0: page 10, after entry 0 of page 3 was changed
    0x400fb703, // ld x14,1024(x31)
    0x00073503, // ld x10,0(x14)
    0x00000073, // ecall
    0x408fb383, // ld x7,1032(x31)
    0x418fb303, // ld x6,1048(x31)
    0x0063b023, // sd x6,0(x7)
    // load at 0x0: V was cleared
    0x400fb703, // ld x14,1024(x31)
    0x00000497, // auipc x9,0x0
    0x00c48493, // addi x9,x9,12
    0x00073303, // ld x6,0(x14)
    0x408fb383, // ld x7,1032(x31)
    0x420fb303, // ld x6,1056(x31)
    0x0063b023, // sd x6,0(x7)
    // load at 0x0: page 10 without D
    0x400fb703, // ld x14,1024(x31)
    0x00073503, // ld x10,0(x14)
    0x00000073, // ecall
    // store at 0x0: D is clear
    0x400fb703, // ld x14,1024(x31)
    0x00000497, // auipc x9,0x0
    0x00c48493, // addi x9,x9,12
    0x00073023, // sd x0,0(x14)
    0x408fb383, // ld x7,1032(x31)
    0xfcf00313, // addi x6,x0,-49
    0x00638023, // sb x6,0(x7)
    // load at 0x0: page 10, after one byte of the entry was set to 0xcf
    0x400fb703, // ld x14,1024(x31)
    0x00073503, // ld x10,0(x14)
    0x00000073, // ecall
    0x400fb383, // ld x7,1024(x31)
    0x07800313, // addi x6,x0,120
    0x00638023, // sb x6,0(x7)
    // load at 0x0: a store through the page
    0x400fb703, // ld x14,1024(x31)
    0x00073503, // ld x10,0(x14)
    0x00000073, // ecall
    // load at 0x8000a000: and page 10 has it
    0x428fb703, // ld x14,1064(x31)
    0x00073503, // ld x10,0(x14)
    0x00000073, // ecall
    0x430fb383, // ld x7,1072(x31)
    0x438fb303, // ld x6,1080(x31)
    0x0063b023, // sd x6,0(x7)
    // load at 0x0: page 11, after entry 0 of page 2 leads to page 4
    0x400fb703, // ld x14,1024(x31)
    0x00073503, // ld x10,0(x14)
    0x00000073, // ecall
    0x440fb303, // ld x6,1088(x31)
    0x18031073, // csrrw x0,satp,x6
    // load at 0x0: page 12, after satp leads to the root in page 5
    0x400fb703, // ld x14,1024(x31)
    0x00073503, // ld x10,0(x14)
    0x00000073, // ecall
    0x448fb303, // ld x6,1096(x31)
    0x18031073, // csrrw x0,satp,x6
    // load at 0x0: the same, with an ASID: it has no meaning
    0x400fb703, // ld x14,1024(x31)
    0x00073503, // ld x10,0(x14)
    0x00000073, // ecall
    0x450fb383, // ld x7,1104(x31)
    0x400fb303, // ld x6,1024(x31)
    0x0063b023, // sd x6,0(x7)
    // load at 0x0: entry 0 of the root became 0
    0x400fb703, // ld x14,1024(x31)
    0x00000497, // auipc x9,0x0
    0x00c48493, // addi x9,x9,12
    0x00073303, // ld x6,0(x14)
    0x458fb303, // ld x6,1112(x31)
    0x18031073, // csrrw x0,satp,x6
    // load at 0x0: page 11, after satp leads back to page 1
    0x400fb703, // ld x14,1024(x31)
    0x00073503, // ld x10,0(x14)
    0x00000073, // ecall
    0x400fb303, // ld x6,1024(x31)
    0x18031073, // csrrw x0,satp,x6
    // load at 0x80009000: Bare: page 9
    0x460fb703, // ld x14,1120(x31)
    0x00073503, // ld x10,0(x14)
    0x00000073, // ecall
    // load at 0x0: Bare: outside RAM
    0x400fb703, // ld x14,1024(x31)
    0x00000497, // auipc x9,0x0
    0x00c48493, // addi x9,x9,12
    0x00073303, // ld x6,0(x14)
    0x458fb303, // ld x6,1112(x31)
    0x18031073, // csrrw x0,satp,x6
    // load at 0x0: page 11 again
    0x400fb703, // ld x14,1024(x31)
    0x00073503, // ld x10,0(x14)
    0x00000073, // ecall
    // the end
    0x00800893, // addi x17,x0,8
    0x00000073, // ecall
];

/// What it loads from byte 1024 on.
const VALUES: [u64; 13] = [
    0x0,
    0x80003000,
    0x200028cf,
    0x200028ce,
    0x2000284f,
    0x8000a000,
    0x80002000,
    0x20001001,
    0x8000000000080005,
    0x8123400000080005,
    0x80005000,
    0x8000000000080001,
    0x80009000,
];

/// Its tables and pages: byte offsets, and the numbers there.
const TABLES: [(usize, u64); 13] = [
    (4096, 0x20000801), // page 1, entry 0
    (4112, 0x200000cf), // page 1, entry 2
    (8192, 0x20000c01), // page 2, entry 0
    (12288, 0x200024cf), // page 3, entry 0
    (16384, 0x20002ccf), // page 4, entry 0
    (20480, 0x20001801), // page 5, entry 0
    (20496, 0x200000cf), // page 5, entry 2
    (24576, 0x20001c01), // page 6, entry 0
    (28672, 0x200030cf), // page 7, entry 0
    (36864, 0x61), // page 9, entry 0
    (40960, 0x62), // page 10, entry 0
    (45056, 0x63), // page 11, entry 0
    (49152, 0x64), // page 12, entry 0
];

/// Its trace.
const LINES: [&str; 21] = [
    "out 10 0 61\n",
    "out 16 0 62\n",
    "trap 23 0 000000000000000d 0000000080000074\n",
    "out 28 0 59\n",
    "out 35 0 62\n",
    "trap 39 0 000000000000000f 000000008000009c\n",
    "out 44 0 59\n",
    "out 51 0 62\n",
    "out 57 0 78\n",
    "out 60 0 78\n",
    "out 66 0 63\n",
    "out 71 0 64\n",
    "out 76 0 64\n",
    "trap 83 0 000000000000000d 0000000080000134\n",
    "out 88 0 59\n",
    "out 94 0 63\n",
    "out 99 0 61\n",
    "trap 103 0 0000000000000005 000000008000016c\n",
    "out 108 0 59\n",
    "out 114 0 63\n",
    "end 117 shutdown 9848102352c7cfddc0f00dfc2441aa71840cacc11f357a970ce43e57d3c919d7\n",
];

#[test]
fn an_access_sees_the_tables_as_they_are(rt: HostRuntime) {
    let guest = Probe {
        code: &CODE,
        values: &VALUES,
        tables: &TABLES,
    };
    expect_probe(&rt, rt.alloc(), 16, &guest, &LINES);
}
