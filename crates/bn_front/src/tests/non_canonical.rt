//! Accesses to addresses of which bits 63:39 aren't bit 38, and to some of which they are.

use super::probe::{Probe, expect_probe};

/// Its code behind the handler.
const CODE: [u32; 42] = [
    // fetch at 0x8000000000: not canonical
    0x400fb703, // ld x14,1024(x31)
    0x00000497, // auipc x9,0x0
    0x00c48493, // addi x9,x9,12
    0x00070067, // jalr x0,0(x14)
    // load at 0x8000000000: not canonical
    0x400fb703, // ld x14,1024(x31)
    0x00000497, // auipc x9,0x0
    0x00c48493, // addi x9,x9,12
    0x00073303, // ld x6,0(x14)
    // store at 0x8000000000: not canonical
    0x400fb703, // ld x14,1024(x31)
    0x00000497, // auipc x9,0x0
    0x00c48493, // addi x9,x9,12
    0x00073023, // sd x0,0(x14)
    // load at 0xffffff7ffffffff8: not canonical, from above
    0x408fb703, // ld x14,1032(x31)
    0x00000497, // auipc x9,0x0
    0x00c48493, // addi x9,x9,12
    0x00073303, // ld x6,0(x14)
    // load at 0x4000000000: bit 38 alone: not canonical
    0x410fb703, // ld x14,1040(x31)
    0x00000497, // auipc x9,0x0
    0x00c48493, // addi x9,x9,12
    0x00073303, // ld x6,0(x14)
    // load at 0xffffffc000000000: canonical; entry 256 of the root is 0
    0x418fb703, // ld x14,1048(x31)
    0x00000497, // auipc x9,0x0
    0x00c48493, // addi x9,x9,12
    0x00073303, // ld x6,0(x14)
    // store at 0x3ffffffff8: canonical; entry 255 of the root is 0
    0x420fb703, // ld x14,1056(x31)
    0x00000497, // auipc x9,0x0
    0x00c48493, // addi x9,x9,12
    0x00073023, // sd x0,0(x14)
    // load at 0xffffffff80000000: canonical; bits 63:32 count: entry 510 of the root is 0
    0x428fb703, // ld x14,1064(x31)
    0x00000497, // auipc x9,0x0
    0x00c48493, // addi x9,x9,12
    0x00073303, // ld x6,0(x14)
    // load at 0x8000000001: the alignment is tested before the walk
    0x430fb703, // ld x14,1072(x31)
    0x00000497, // auipc x9,0x0
    0x00c48493, // addi x9,x9,12
    0x00073303, // ld x6,0(x14)
    // store at 0x8000000004: the alignment is tested before the walk
    0x438fb703, // ld x14,1080(x31)
    0x00000497, // auipc x9,0x0
    0x00c48493, // addi x9,x9,12
    0x00073023, // sd x0,0(x14)
    // the end
    0x00800893, // addi x17,x0,8
    0x00000073, // ecall
];

/// What it loads from byte 1024 on.
const VALUES: [u64; 8] = [
    0x8000000000,
    0xffffff7ffffffff8,
    0x4000000000,
    0xffffffc000000000,
    0x3ffffffff8,
    0xffffffff80000000,
    0x8000000001,
    0x8000000004,
];

/// Its tables and pages: byte offsets, and the numbers there.
const TABLES: [(usize, u64); 1] = [
    (4112, 0x200000cf), // page 1, entry 2
];

/// Its trace.
const LINES: [&str; 21] = [
    "trap 12 0 000000000000000c 0000008000000000\n",
    "out 17 0 59\n",
    "trap 22 0 000000000000000d 0000000080000054\n",
    "out 27 0 59\n",
    "trap 32 0 000000000000000f 0000000080000064\n",
    "out 37 0 59\n",
    "trap 42 0 000000000000000d 0000000080000074\n",
    "out 47 0 59\n",
    "trap 52 0 000000000000000d 0000000080000084\n",
    "out 57 0 59\n",
    "trap 62 0 000000000000000d 0000000080000094\n",
    "out 67 0 59\n",
    "trap 72 0 000000000000000f 00000000800000a4\n",
    "out 77 0 59\n",
    "trap 82 0 000000000000000d 00000000800000b4\n",
    "out 87 0 59\n",
    "trap 92 0 0000000000000004 00000000800000c4\n",
    "out 97 0 59\n",
    "trap 102 0 0000000000000006 00000000800000d4\n",
    "out 107 0 59\n",
    "end 111 shutdown cf1a4583cfba095ce470b81df683accde41f0e013f93f737c1ad40411ac4c5d2\n",
];

#[test]
fn an_address_that_is_not_canonical_is_a_page_fault(rt: HostRuntime) {
    let guest = Probe {
        code: &CODE,
        values: &VALUES,
        tables: &TABLES,
    };
    expect_probe(&rt, rt.alloc(), 16, &guest, &LINES);
}
