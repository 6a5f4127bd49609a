//! A leaf of 2 MiB that isn't aligned, and the same table after a store that aligns it.

use super::probe::{Probe, expect_probe};

/// Its code behind the handler.
const CODE: [u32; 25] = [
    // load at 0x0: entry 0 of page 2 is 0x200004cf, low PPN bits aren't zero
    0x400fb703, // ld x14,1024(x31)
    0x00000497, // auipc x9,0x0
    0x00c48493, // addi x9,x9,12
    0x00073303, // ld x6,0(x14)
    // store at 0x0: the same
    0x400fb703, // ld x14,1024(x31)
    0x00000497, // auipc x9,0x0
    0x00c48493, // addi x9,x9,12
    0x00073023, // sd x0,0(x14)
    // fetch at 0x0: the same
    0x400fb703, // ld x14,1024(x31)
    0x00000497, // auipc x9,0x0
    0x00c48493, // addi x9,x9,12
    0x00070067, // jalr x0,0(x14)
    0x408fb303, // ld x6,1032(x31)
    0x410fb383, // ld x7,1040(x31)
    0x0063b023, // sd x6,0(x7)
    // load at 0x3008: page 3, offset 8, after entry 0 of page 2 became 0x200000cf
    0x418fb703, // ld x14,1048(x31)
    0x00073503, // ld x10,0(x14)
    0x00000073, // ecall
    0x0003b023, // sd x0,0(x7)
    // load at 0x3008: after entry 0 of page 2 became 0
    0x418fb703, // ld x14,1048(x31)
    0x00000497, // auipc x9,0x0
    0x00c48493, // addi x9,x9,12
    0x00073303, // ld x6,0(x14)
    // the end
    0x00800893, // addi x17,x0,8
    0x00000073, // ecall
];

/// What it loads from byte 1024 on.
const VALUES: [u64; 4] = [0x0, 0x200000cf, 0x80002000, 0x3008];

/// Its tables and pages: byte offsets, and the numbers there.
const TABLES: [(usize, u64); 4] = [
    (4096, 0x20000801), // page 1, entry 0
    (4112, 0x200000cf), // page 1, entry 2
    (8192, 0x200004cf), // page 2, entry 0
    (12296, 0x5a), // page 3, entry 1
];

/// Its trace.
const LINES: [&str; 10] = [
    "trap 11 0 000000000000000d 0000000080000044\n",
    "out 16 0 59\n",
    "trap 21 0 000000000000000f 0000000080000054\n",
    "out 26 0 59\n",
    "trap 32 0 000000000000000c 0000000000000000\n",
    "out 37 0 59\n",
    "out 44 0 5a\n",
    "trap 49 0 000000000000000d 0000000080000090\n",
    "out 54 0 59\n",
    "end 58 shutdown 40bdc0b931aac20fc61bf8d3ddbd0b71f6a254bf792d410598f2ab277b8680ee\n",
];

#[test]
fn a_leaf_of_two_mebibytes_is_aligned(rt: HostRuntime) {
    let guest = Probe {
        code: &CODE,
        values: &VALUES,
        tables: &TABLES,
    };
    expect_probe(&rt, rt.alloc(), 16, &guest, &LINES);
}
