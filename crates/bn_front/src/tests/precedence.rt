//! Accesses that fail in several ways: the alignment counts first, then the walk, then RAM.

use super::probe::{Probe, expect_probe};

/// Its code behind the handler.
const CODE: [u32; 34] = [
    // load at 0x1001: misaligned, unmapped
    0x400fb703, // ld x14,1024(x31)
    0x00000497, // auipc x9,0x0
    0x00c48493, // addi x9,x9,12
    0x00073303, // ld x6,0(x14)
    // store at 0x1002: misaligned, unmapped
    0x408fb703, // ld x14,1032(x31)
    0x00000497, // auipc x9,0x0
    0x00c48493, // addi x9,x9,12
    0x00073023, // sd x0,0(x14)
    // load at 0x1000: unmapped
    0x410fb703, // ld x14,1040(x31)
    0x00000497, // auipc x9,0x0
    0x00c48493, // addi x9,x9,12
    0x00073303, // ld x6,0(x14)
    // store at 0x1000: unmapped
    0x410fb703, // ld x14,1040(x31)
    0x00000497, // auipc x9,0x0
    0x00c48493, // addi x9,x9,12
    0x00073023, // sd x0,0(x14)
    // fetch at 0x1000: unmapped
    0x410fb703, // ld x14,1040(x31)
    0x00000497, // auipc x9,0x0
    0x00c48493, // addi x9,x9,12
    0x00070067, // jalr x0,0(x14)
    // jump to 0x1002: the target is misaligned, and isn't walked
    0x408fb703, // ld x14,1032(x31)
    0x00000497, // auipc x9,0x0
    0x00c48493, // addi x9,x9,12
    0x00070067, // jalr x0,0(x14)
    // load at 0x80400000: mapped by the 1 GiB leaf, behind RAM
    0x418fb703, // ld x14,1048(x31)
    0x00000497, // auipc x9,0x0
    0x00c48493, // addi x9,x9,12
    0x00073303, // ld x6,0(x14)
    // store at 0x80400001: misaligned, behind RAM
    0x420fb703, // ld x14,1056(x31)
    0x00000497, // auipc x9,0x0
    0x00c48493, // addi x9,x9,12
    0x00073023, // sd x0,0(x14)
    // the end
    0x00800893, // addi x17,x0,8
    0x00000073, // ecall
];

/// What it loads from byte 1024 on.
const VALUES: [u64; 5] = [0x1001, 0x1002, 0x1000, 0x80400000, 0x80400001];

/// Its tables and pages: byte offsets, and the numbers there.
const TABLES: [(usize, u64); 1] = [
    (4112, 0x200000cf), // page 1, entry 2
];

/// Its trace.
const LINES: [&str; 17] = [
    "trap 11 0 0000000000000004 0000000080000044\n",
    "out 16 0 59\n",
    "trap 21 0 0000000000000006 0000000080000054\n",
    "out 26 0 59\n",
    "trap 31 0 000000000000000d 0000000080000064\n",
    "out 36 0 59\n",
    "trap 41 0 000000000000000f 0000000080000074\n",
    "out 46 0 59\n",
    "trap 52 0 000000000000000c 0000000000001000\n",
    "out 57 0 59\n",
    "trap 62 0 0000000000000000 0000000080000094\n",
    "out 67 0 59\n",
    "trap 72 0 0000000000000005 00000000800000a4\n",
    "out 77 0 59\n",
    "trap 82 0 0000000000000006 00000000800000b4\n",
    "out 87 0 59\n",
    "end 91 shutdown f7efc4a2f898d092dd3c8a04e1d16000e18f868cf7c080140411b7cce9eb81bd\n",
];

#[test]
fn the_first_of_several_faults_is_told(rt: HostRuntime) {
    let guest = Probe {
        code: &CODE,
        values: &VALUES,
        tables: &TABLES,
    };
    expect_probe(&rt, rt.alloc(), 16, &guest, &LINES);
}
