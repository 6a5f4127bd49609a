//! Leaves of 1 GiB, of which two aren't aligned.

use super::probe::{Probe, expect_probe};

/// Its code behind the handler.
const CODE: [u32; 14] = [
    // load at 0x0: PPN bit 0 set
    0x400fb703, // ld x14,1024(x31)
    0x00000497, // auipc x9,0x0
    0x00c48493, // addi x9,x9,12
    0x00073303, // ld x6,0(x14)
    // load at 0x40000000: PPN bit 9 set
    0x408fb703, // ld x14,1032(x31)
    0x00000497, // auipc x9,0x0
    0x00c48493, // addi x9,x9,12
    0x00073303, // ld x6,0(x14)
    // load at 0xc0000000: aligned, PPN 0xc0000, which is outside RAM
    0x410fb703, // ld x14,1040(x31)
    0x00000497, // auipc x9,0x0
    0x00c48493, // addi x9,x9,12
    0x00073303, // ld x6,0(x14)
    // the end
    0x00800893, // addi x17,x0,8
    0x00000073, // ecall
];

/// What it loads from byte 1024 on.
const VALUES: [u64; 3] = [0x0, 0x40000000, 0xc0000000];

/// Its tables and pages: byte offsets, and the numbers there.
const TABLES: [(usize, u64); 4] = [
    (4096, 0x200004cf), // page 1, entry 0
    (4104, 0x200800cf), // page 1, entry 1
    (4112, 0x200000cf), // page 1, entry 2
    (4120, 0x300000cf), // page 1, entry 3
];

/// Its trace.
const LINES: [&str; 7] = [
    "trap 11 0 000000000000000d 0000000080000044\n",
    "out 16 0 59\n",
    "trap 21 0 000000000000000d 0000000080000054\n",
    "out 26 0 59\n",
    "trap 31 0 0000000000000005 0000000080000064\n",
    "out 36 0 59\n",
    "end 40 shutdown 79c49dccd12335e0eb38b1fa16e8e8dfc192bba655f4eec31d0ae5d643363457\n",
];

#[test]
fn a_leaf_of_one_gibibyte_is_aligned(rt: HostRuntime) {
    let guest = Probe {
        code: &CODE,
        values: &VALUES,
        tables: &TABLES,
    };
    expect_probe(&rt, rt.alloc(), 16, &guest, &LINES);
}
