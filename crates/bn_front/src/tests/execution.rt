//! Code at virtual pages: page 9, which returns by x1, is at three addresses with flags 0x49, 0x4b
//! and 0xcf.

use super::probe::{Probe, expect_probe};

/// Its code behind the handler.
const CODE: [u32; 26] = [
    // a visit to the code at 0x0: it comes back
    0x400fb703, // ld x14,1024(x31)
    0x000700e7, // jalr x1,0(x14)
    0x07600513, // addi x10,x0,118
    0x00000073, // ecall
    // a visit to the code at 0x1000: it comes back
    0x408fb703, // ld x14,1032(x31)
    0x000700e7, // jalr x1,0(x14)
    0x07600513, // addi x10,x0,118
    0x00000073, // ecall
    // a visit to the code at 0x2000: it comes back
    0x410fb703, // ld x14,1040(x31)
    0x000700e7, // jalr x1,0(x14)
    0x07600513, // addi x10,x0,118
    0x00000073, // ecall
    // load at 0x0: X without R
    0x400fb703, // ld x14,1024(x31)
    0x00000497, // auipc x9,0x0
    0x00c48493, // addi x9,x9,12
    0x00073303, // ld x6,0(x14)
    // fetch at 0x3000: A clear
    0x418fb703, // ld x14,1048(x31)
    0x00000497, // auipc x9,0x0
    0x00c48493, // addi x9,x9,12
    0x00070067, // jalr x0,0(x14)
    // fetch at 0x4000: nothing there
    0x420fb703, // ld x14,1056(x31)
    0x00000497, // auipc x9,0x0
    0x00c48493, // addi x9,x9,12
    0x00070067, // jalr x0,0(x14)
    // the end
    0x00800893, // addi x17,x0,8
    0x00000073, // ecall
];

/// What it loads from byte 1024 on.
const VALUES: [u64; 5] = [0x0, 0x1000, 0x2000, 0x3000, 0x4000];

/// Its tables and pages: byte offsets, and the numbers there.
const TABLES: [(usize, u64); 8] = [
    (4096, 0x20000801), // page 1, entry 0
    (4112, 0x200000cf), // page 1, entry 2
    (8192, 0x20000c01), // page 2, entry 0
    (12288, 0x20002449), // page 3, entry 0
    (12296, 0x2000244b), // page 3, entry 1
    (12304, 0x200024cf), // page 3, entry 2
    (12312, 0x2000240b), // page 3, entry 3
    (36864, 0x8067), // page 9, entry 0
];

/// Its trace.
const LINES: [&str; 10] = [
    "out 12 0 76\n",
    "out 17 0 76\n",
    "out 22 0 76\n",
    "trap 26 0 000000000000000d 0000000080000074\n",
    "out 31 0 59\n",
    "trap 37 0 000000000000000c 0000000000003000\n",
    "out 42 0 59\n",
    "trap 48 0 000000000000000c 0000000000004000\n",
    "out 53 0 59\n",
    "end 57 shutdown 0f2d5ed66d3f63f0b6ae55aeb869dd2ef3d258466779dc85e61c663173a001f1\n",
];

#[test]
fn a_page_with_the_execute_flag_is_executed(rt: HostRuntime) {
    let guest = Probe {
        code: &CODE,
        values: &VALUES,
        tables: &TABLES,
    };
    expect_probe(&rt, rt.alloc(), 16, &guest, &LINES);
}
