//! Accesses in mode U. Page 8 has a load, a store, a jump and an ECALL, and is at 0x8000 with flags
//! 0x5b.

use super::probe::{Probe, expect_probe};

/// Its code behind the handler.
const CODE: [u32; 93] = [
    // mode U: fetch of a page without X (flags 0xd7)
    0x400fb703, // ld x14,1024(x31)
    0x00000497, // auipc x9,0x0
    0x01848493, // addi x9,x9,24
    0x408fb283, // ld x5,1032(x31)
    0x14129073, // csrrw x0,sepc,x5
    0x10001073, // csrrw x0,sstatus,x0
    0x10200073, // sret
    // mode U: load of a page without U (flags 0xcf)
    0x410fb703, // ld x14,1040(x31)
    0x00000497, // auipc x9,0x0
    0x01848493, // addi x9,x9,24
    0x418fb283, // ld x5,1048(x31)
    0x14129073, // csrrw x0,sepc,x5
    0x10001073, // csrrw x0,sstatus,x0
    0x10200073, // sret
    // mode U: store to a page without U
    0x410fb703, // ld x14,1040(x31)
    0x00000497, // auipc x9,0x0
    0x01848493, // addi x9,x9,24
    0x420fb283, // ld x5,1056(x31)
    0x14129073, // csrrw x0,sepc,x5
    0x10001073, // csrrw x0,sstatus,x0
    0x10200073, // sret
    // mode U: fetch of a page without U
    0x410fb703, // ld x14,1040(x31)
    0x00000497, // auipc x9,0x0
    0x01848493, // addi x9,x9,24
    0x408fb283, // ld x5,1032(x31)
    0x14129073, // csrrw x0,sepc,x5
    0x10001073, // csrrw x0,sstatus,x0
    0x10200073, // sret
    // mode U: load of a page without A (flags 0x9f)
    0x428fb703, // ld x14,1064(x31)
    0x00000497, // auipc x9,0x0
    0x01848493, // addi x9,x9,24
    0x418fb283, // ld x5,1048(x31)
    0x14129073, // csrrw x0,sepc,x5
    0x10001073, // csrrw x0,sstatus,x0
    0x10200073, // sret
    // mode U: fetch of a page without A
    0x428fb703, // ld x14,1064(x31)
    0x00000497, // auipc x9,0x0
    0x01848493, // addi x9,x9,24
    0x408fb283, // ld x5,1032(x31)
    0x14129073, // csrrw x0,sepc,x5
    0x10001073, // csrrw x0,sstatus,x0
    0x10200073, // sret
    // mode U: store to a page without D (flags 0x57)
    0x430fb703, // ld x14,1072(x31)
    0x00000497, // auipc x9,0x0
    0x01848493, // addi x9,x9,24
    0x420fb283, // ld x5,1056(x31)
    0x14129073, // csrrw x0,sepc,x5
    0x10001073, // csrrw x0,sstatus,x0
    0x10200073, // sret
    // mode U: load of a page with X alone (flags 0xd9)
    0x438fb703, // ld x14,1080(x31)
    0x00000497, // auipc x9,0x0
    0x01848493, // addi x9,x9,24
    0x418fb283, // ld x5,1048(x31)
    0x14129073, // csrrw x0,sepc,x5
    0x10001073, // csrrw x0,sstatus,x0
    0x10200073, // sret
    // mode U: store to a page without W (flags 0xd3)
    0x440fb703, // ld x14,1088(x31)
    0x00000497, // auipc x9,0x0
    0x01848493, // addi x9,x9,24
    0x420fb283, // ld x5,1056(x31)
    0x14129073, // csrrw x0,sepc,x5
    0x10001073, // csrrw x0,sstatus,x0
    0x10200073, // sret
    // mode U: load of the kernel's page, by the 1 GiB leaf without U
    0x448fb703, // ld x14,1096(x31)
    0x00000497, // auipc x9,0x0
    0x01848493, // addi x9,x9,24
    0x418fb283, // ld x5,1048(x31)
    0x14129073, // csrrw x0,sepc,x5
    0x10001073, // csrrw x0,sstatus,x0
    0x10200073, // sret
    // mode U: jump to the kernel's page
    0x448fb703, // ld x14,1096(x31)
    0x00000497, // auipc x9,0x0
    0x01848493, // addi x9,x9,24
    0x408fb283, // ld x5,1032(x31)
    0x14129073, // csrrw x0,sepc,x5
    0x10001073, // csrrw x0,sstatus,x0
    0x10200073, // sret
    // mode U: misaligned load
    0x450fb703, // ld x14,1104(x31)
    0x00000497, // auipc x9,0x0
    0x01848493, // addi x9,x9,24
    0x418fb283, // ld x5,1048(x31)
    0x14129073, // csrrw x0,sepc,x5
    0x10001073, // csrrw x0,sstatus,x0
    0x10200073, // sret
    // mode U: ECALL; stval is 0
    0x458fb703, // ld x14,1112(x31)
    0x00000497, // auipc x9,0x0
    0x01848493, // addi x9,x9,24
    0x460fb283, // ld x5,1120(x31)
    0x14129073, // csrrw x0,sepc,x5
    0x10001073, // csrrw x0,sstatus,x0
    0x10200073, // sret
    // the end
    0x00800893, // addi x17,x0,8
    0x00000073, // ecall
];

/// What it loads from byte 1024 on.
const VALUES: [u64; 13] = [
    0x9000, 0x8008, 0xa000, 0x8000, 0x8004, 0xb000, 0xc000, 0xd000, 0xe000, 0x80000000, 0x9001,
    0x0, 0x800c,
];

/// Its tables and pages: byte offsets, and the numbers there.
const TABLES: [(usize, u64); 13] = [
    (4096, 0x20000801), // page 1, entry 0
    (4112, 0x200000cf), // page 1, entry 2
    (8192, 0x20000c01), // page 2, entry 0
    (12352, 0x2000205b), // page 3, entry 8
    (12360, 0x200024d7), // page 3, entry 9
    (12368, 0x200024cf), // page 3, entry 10
    (12376, 0x2000249f), // page 3, entry 11
    (12384, 0x20002457), // page 3, entry 12
    (12392, 0x200024d9), // page 3, entry 13
    (12400, 0x200024d3), // page 3, entry 14
    (32768, 0x7302300073303), // page 8, entry 0
    (32776, 0x7300070067), // page 8, entry 1
    (36864, 0x8067), // page 9, entry 0
];

/// Its trace.
const LINES: [&str; 27] = [
    "trap 16 0 000000000000000c 0000000000009000\n",
    "out 21 0 59\n",
    "trap 30 0 000000000000000d 0000000000008000\n",
    "out 35 0 59\n",
    "trap 44 0 000000000000000f 0000000000008004\n",
    "out 49 0 59\n",
    "trap 59 0 000000000000000c 000000000000a000\n",
    "out 64 0 59\n",
    "trap 73 0 000000000000000d 0000000000008000\n",
    "out 78 0 59\n",
    "trap 88 0 000000000000000c 000000000000b000\n",
    "out 93 0 59\n",
    "trap 102 0 000000000000000f 0000000000008004\n",
    "out 107 0 59\n",
    "trap 116 0 000000000000000d 0000000000008000\n",
    "out 121 0 59\n",
    "trap 130 0 000000000000000f 0000000000008004\n",
    "out 135 0 59\n",
    "trap 144 0 000000000000000d 0000000000008000\n",
    "out 149 0 59\n",
    "trap 159 0 000000000000000c 0000000080000000\n",
    "out 164 0 59\n",
    "trap 173 0 0000000000000004 0000000000008000\n",
    "out 178 0 59\n",
    "trap 187 0 0000000000000008 000000000000800c\n",
    "out 192 0 59\n",
    "end 196 shutdown 0f2b6c732234a33934e76138f1ef7bf1f6c587076ecbfed5ff886d35889f20ec\n",
];

#[test]
fn mode_u_has_the_pages_with_the_user_flag(rt: HostRuntime) {
    let guest = Probe {
        code: &CODE,
        values: &VALUES,
        tables: &TABLES,
    };
    expect_probe(&rt, rt.alloc(), 16, &guest, &LINES);
}
