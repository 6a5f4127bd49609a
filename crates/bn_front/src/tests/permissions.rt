//! Leaves of 4 KiB that lead to page 9, each with other flags, in mode S; first with SUM and MXR
//! clear, then with each of them set.

use super::probe::{Probe, expect_probe};

/// Its code behind the handler.
const CODE: [u32; 101] = [
    // load at 0x0: A set; D is needed for stores alone
    0x400fb703, // ld x14,1024(x31)
    0x00073503, // ld x10,0(x14)
    0x00000073, // ecall
    // store at 0x0: D clear
    0x400fb703, // ld x14,1024(x31)
    0x00000497, // auipc x9,0x0
    0x00c48493, // addi x9,x9,12
    0x00073023, // sd x0,0(x14)
    // load at 0x1000: A clear
    0x408fb703, // ld x14,1032(x31)
    0x00000497, // auipc x9,0x0
    0x00c48493, // addi x9,x9,12
    0x00073303, // ld x6,0(x14)
    // store at 0x1000: A clear
    0x408fb703, // ld x14,1032(x31)
    0x00000497, // auipc x9,0x0
    0x00c48493, // addi x9,x9,12
    0x00073023, // sd x0,0(x14)
    // fetch at 0x1000: A clear
    0x408fb703, // ld x14,1032(x31)
    0x00000497, // auipc x9,0x0
    0x00c48493, // addi x9,x9,12
    0x00070067, // jalr x0,0(x14)
    // load at 0x2000: R alone
    0x410fb703, // ld x14,1040(x31)
    0x00073503, // ld x10,0(x14)
    0x00000073, // ecall
    // store at 0x2000: no W
    0x410fb703, // ld x14,1040(x31)
    0x00000497, // auipc x9,0x0
    0x00c48493, // addi x9,x9,12
    0x00073023, // sd x0,0(x14)
    // fetch at 0x2000: no X
    0x410fb703, // ld x14,1040(x31)
    0x00000497, // auipc x9,0x0
    0x00c48493, // addi x9,x9,12
    0x00070067, // jalr x0,0(x14)
    // load at 0x3000: X alone, MXR clear
    0x418fb703, // ld x14,1048(x31)
    0x00000497, // auipc x9,0x0
    0x00c48493, // addi x9,x9,12
    0x00073303, // ld x6,0(x14)
    // store at 0x3000: X alone
    0x418fb703, // ld x14,1048(x31)
    0x00000497, // auipc x9,0x0
    0x00c48493, // addi x9,x9,12
    0x00073023, // sd x0,0(x14)
    // load at 0x4000: W without R
    0x420fb703, // ld x14,1056(x31)
    0x00000497, // auipc x9,0x0
    0x00c48493, // addi x9,x9,12
    0x00073303, // ld x6,0(x14)
    // store at 0x4000: W without R
    0x420fb703, // ld x14,1056(x31)
    0x00000497, // auipc x9,0x0
    0x00c48493, // addi x9,x9,12
    0x00073023, // sd x0,0(x14)
    // fetch at 0xd000: W and X without R
    0x428fb703, // ld x14,1064(x31)
    0x00000497, // auipc x9,0x0
    0x00c48493, // addi x9,x9,12
    0x00070067, // jalr x0,0(x14)
    // load at 0x5000: U in mode S, SUM clear
    0x430fb703, // ld x14,1072(x31)
    0x00000497, // auipc x9,0x0
    0x00c48493, // addi x9,x9,12
    0x00073303, // ld x6,0(x14)
    // store at 0x5000: U in mode S, SUM clear
    0x430fb703, // ld x14,1072(x31)
    0x00000497, // auipc x9,0x0
    0x00c48493, // addi x9,x9,12
    0x00073023, // sd x0,0(x14)
    // fetch at 0x5000: U in mode S
    0x430fb703, // ld x14,1072(x31)
    0x00000497, // auipc x9,0x0
    0x00c48493, // addi x9,x9,12
    0x00070067, // jalr x0,0(x14)
    // load at 0x6000: bit 54 set
    0x438fb703, // ld x14,1080(x31)
    0x00000497, // auipc x9,0x0
    0x00c48493, // addi x9,x9,12
    0x00073303, // ld x6,0(x14)
    // load at 0x7000: bit 63 set
    0x440fb703, // ld x14,1088(x31)
    0x00000497, // auipc x9,0x0
    0x00c48493, // addi x9,x9,12
    0x00073303, // ld x6,0(x14)
    // load at 0xf000: bit 61 set
    0x448fb703, // ld x14,1096(x31)
    0x00000497, // auipc x9,0x0
    0x00c48493, // addi x9,x9,12
    0x00073303, // ld x6,0(x14)
    // load at 0x8000: a pointer at level 0
    0x450fb703, // ld x14,1104(x31)
    0x00000497, // auipc x9,0x0
    0x00c48493, // addi x9,x9,12
    0x00073303, // ld x6,0(x14)
    // load at 0x9000: V clear, all other bits of a good leaf
    0x458fb703, // ld x14,1112(x31)
    0x00000497, // auipc x9,0x0
    0x00c48493, // addi x9,x9,12
    0x00073303, // ld x6,0(x14)
    // store at 0x9000: V clear
    0x458fb703, // ld x14,1112(x31)
    0x00000497, // auipc x9,0x0
    0x00c48493, // addi x9,x9,12
    0x00073023, // sd x0,0(x14)
    // fetch at 0xc000: V clear, no bit of R, W, X
    0x460fb703, // ld x14,1120(x31)
    0x00000497, // auipc x9,0x0
    0x00c48493, // addi x9,x9,12
    0x00070067, // jalr x0,0(x14)
    // load at 0xa000: bit 9 is ignored
    0x468fb703, // ld x14,1128(x31)
    0x00073503, // ld x10,0(x14)
    0x00000073, // ecall
    // load at 0xb000: bit 8 is ignored
    0x470fb703, // ld x14,1136(x31)
    0x00073503, // ld x10,0(x14)
    0x00000073, // ecall
    // load at 0xe000: G is ignored
    0x478fb703, // ld x14,1144(x31)
    0x00073503, // ld x10,0(x14)
    0x00000073, // ecall
    // the end
    0x00800893, // addi x17,x0,8
    0x00000073, // ecall
];

/// What it loads from byte 1024 on.
const VALUES: [u64; 16] = [
    0x0, 0x1000, 0x2000, 0x3000, 0x4000, 0xd000, 0x5000, 0x6000, 0x7000, 0xf000, 0x8000, 0x9000,
    0xc000, 0xa000, 0xb000, 0xe000,
];

/// Its tables and pages: byte offsets, and the numbers there.
const TABLES: [(usize, u64); 20] = [
    (4096, 0x20000801), // page 1, entry 0
    (4112, 0x200000cf), // page 1, entry 2
    (8192, 0x20000c01), // page 2, entry 0
    (12288, 0x2000244f), // page 3, entry 0
    (12296, 0x2000248f), // page 3, entry 1
    (12304, 0x200024c3), // page 3, entry 2
    (12312, 0x200024c9), // page 3, entry 3
    (12320, 0x200024c5), // page 3, entry 4
    (12328, 0x200024df), // page 3, entry 5
    (12336, 0x400000200024cf), // page 3, entry 6
    (12344, 0x80000000200024cf), // page 3, entry 7
    (12352, 0x20002401), // page 3, entry 8
    (12360, 0x200024ce), // page 3, entry 9
    (12368, 0x200026cf), // page 3, entry 10
    (12376, 0x200025cf), // page 3, entry 11
    (12384, 0x20002400), // page 3, entry 12
    (12392, 0x200024cd), // page 3, entry 13
    (12400, 0x200024ef), // page 3, entry 14
    (12408, 0x20000000200024cf), // page 3, entry 15
    (36864, 0x8067), // page 9, entry 0
];

/// Its trace.
const LINES: [&str; 48] = [
    "out 10 0 67\n",
    "trap 14 0 000000000000000f 0000000080000050\n",
    "out 19 0 59\n",
    "trap 24 0 000000000000000d 0000000080000060\n",
    "out 29 0 59\n",
    "trap 34 0 000000000000000f 0000000080000070\n",
    "out 39 0 59\n",
    "trap 45 0 000000000000000c 0000000000001000\n",
    "out 50 0 59\n",
    "out 54 0 67\n",
    "trap 58 0 000000000000000f 000000008000009c\n",
    "out 63 0 59\n",
    "trap 69 0 000000000000000c 0000000000002000\n",
    "out 74 0 59\n",
    "trap 79 0 000000000000000d 00000000800000bc\n",
    "out 84 0 59\n",
    "trap 89 0 000000000000000f 00000000800000cc\n",
    "out 94 0 59\n",
    "trap 99 0 000000000000000d 00000000800000dc\n",
    "out 104 0 59\n",
    "trap 109 0 000000000000000f 00000000800000ec\n",
    "out 114 0 59\n",
    "trap 120 0 000000000000000c 000000000000d000\n",
    "out 125 0 59\n",
    "trap 130 0 000000000000000d 000000008000010c\n",
    "out 135 0 59\n",
    "trap 140 0 000000000000000f 000000008000011c\n",
    "out 145 0 59\n",
    "trap 151 0 000000000000000c 0000000000005000\n",
    "out 156 0 59\n",
    "trap 161 0 000000000000000d 000000008000013c\n",
    "out 166 0 59\n",
    "trap 171 0 000000000000000d 000000008000014c\n",
    "out 176 0 59\n",
    "trap 181 0 000000000000000d 000000008000015c\n",
    "out 186 0 59\n",
    "trap 191 0 000000000000000d 000000008000016c\n",
    "out 196 0 59\n",
    "trap 201 0 000000000000000d 000000008000017c\n",
    "out 206 0 59\n",
    "trap 211 0 000000000000000f 000000008000018c\n",
    "out 216 0 59\n",
    "trap 222 0 000000000000000c 000000000000c000\n",
    "out 227 0 59\n",
    "out 231 0 67\n",
    "out 234 0 67\n",
    "out 237 0 67\n",
    "end 240 shutdown da0bf84de8d7640878f39f3415bb21cd5d9644a96e50db4ff2e58ef8c3e23430\n",
];

#[test]
fn a_leaf_permits_what_its_flags_say(rt: HostRuntime) {
    let guest = Probe {
        code: &CODE,
        values: &VALUES,
        tables: &TABLES,
    };
    expect_probe(&rt, rt.alloc(), 16, &guest, &LINES);
}

/// Its code behind the handler.
const GRANTED_CODE: [u32; 34] = [
    0x00100293, // addi x5,x0,1
    0x01229293, // slli x5,x5,0x12
    0x1002a073, // csrrs x0,sstatus,x5
    // load at 0x5000: U in mode S, SUM set
    0x400fb703, // ld x14,1024(x31)
    0x00073503, // ld x10,0(x14)
    0x00000073, // ecall
    // fetch at 0x5000: U in mode S: never fetched, also with SUM
    0x400fb703, // ld x14,1024(x31)
    0x00000497, // auipc x9,0x0
    0x00c48493, // addi x9,x9,12
    0x00070067, // jalr x0,0(x14)
    // load at 0x3000: X alone, MXR clear
    0x408fb703, // ld x14,1032(x31)
    0x00000497, // auipc x9,0x0
    0x00c48493, // addi x9,x9,12
    0x00073303, // ld x6,0(x14)
    0x1002b073, // csrrc x0,sstatus,x5
    0x00129293, // slli x5,x5,0x1
    0x1002a073, // csrrs x0,sstatus,x5
    // load at 0x3000: X alone, MXR set
    0x408fb703, // ld x14,1032(x31)
    0x00073503, // ld x10,0(x14)
    0x00000073, // ecall
    // store at 0x3000: X alone: MXR is for loads
    0x408fb703, // ld x14,1032(x31)
    0x00000497, // auipc x9,0x0
    0x00c48493, // addi x9,x9,12
    0x00073023, // sd x0,0(x14)
    // load at 0x5000: U in mode S, SUM clear again
    0x400fb703, // ld x14,1024(x31)
    0x00000497, // auipc x9,0x0
    0x00c48493, // addi x9,x9,12
    0x00073303, // ld x6,0(x14)
    // load at 0x4000: W without R, also with MXR
    0x410fb703, // ld x14,1040(x31)
    0x00000497, // auipc x9,0x0
    0x00c48493, // addi x9,x9,12
    0x00073303, // ld x6,0(x14)
    // the end
    0x00800893, // addi x17,x0,8
    0x00000073, // ecall
];

/// What it loads from byte 1024 on.
const GRANTED_VALUES: [u64; 3] = [0x5000, 0x3000, 0x4000];

/// Its trace.
const GRANTED_LINES: [&str; 13] = [
    "out 13 0 67\n",
    "trap 18 0 000000000000000c 0000000000005000\n",
    "out 23 0 59\n",
    "trap 28 0 000000000000000d 000000008000006c\n",
    "out 33 0 59\n",
    "out 40 0 67\n",
    "trap 44 0 000000000000000f 0000000080000094\n",
    "out 49 0 59\n",
    "trap 54 0 000000000000000d 00000000800000a4\n",
    "out 59 0 59\n",
    "trap 64 0 000000000000000d 00000000800000b4\n",
    "out 69 0 59\n",
    "end 73 shutdown c71611aab54d6f064c9a424b7c4ae7d34fc4b4c628ee292ad468fe37a0c68eab\n",
];

#[test]
fn sum_and_mxr_grant_loads(rt: HostRuntime) {
    let guest = Probe {
        code: &GRANTED_CODE,
        values: &GRANTED_VALUES,
        tables: &TABLES,
    };
    expect_probe(&rt, rt.alloc(), 16, &guest, &GRANTED_LINES);
}
