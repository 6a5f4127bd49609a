//! Secure instructions that a mode may not execute: return, caller, offerer, sget and sset outside
//! modules, and in mode U launch and evict besides. Made by `tests/make` from its assembly; the
//! trace is that of `tests/interpreter.py`.

use super::expect_code;

const CODE: [u32; 53] = [
    0x00000417, // auipc x8,0x0
    0x00000297, // auipc x5,0x0
    0x07028293, // addi x5,x5,112
    0x10529073, // csrrw x0,stvec,x5
    0x0000200b, // .4byte 0x200b
    0x0000528b, // .4byte 0x528b
    0x0003628b, // .4byte 0x3628b
    0x0003728b, // .4byte 0x3728b
    0x0273028b, // .4byte 0x273028b
    0x00000297, // auipc x5,0x0
    0x01028293, // addi x5,x5,16
    0x14129073, // csrrw x0,sepc,x5
    0x10200073, // sret
    0x0000200b, // .4byte 0x200b
    0x0000528b, // .4byte 0x528b
    0x0003628b, // .4byte 0x3628b
    0x0003728b, // .4byte 0x3728b
    0x0273028b, // .4byte 0x273028b
    0x0003028b, // .4byte 0x3028b
    0x0003328b, // .4byte 0x3328b
    0x10200073, // sret
    0x10500073, // wfi
    0x12000073, // sfence.vma x0,x0
    0x100022f3, // csrrs x5,sstatus,x0
    0xc00022f3, // csrrs x5,cycle,x0
    0xc01022f3, // csrrs x5,time,x0
    0xc02022f3, // csrrs x5,instret,x0
    0x14001073, // csrrw x0,sscratch,x0
    0x00000073, // ecall
    0x142022f3, // csrrs x5,scause,x0
    0x00800313, // addi x6,x0,8
    0x04628863, // beq x5,x6,0x800000cc
    0x141022f3, // csrrs x5,sepc,x0
    0x00428293, // addi x5,x5,4
    0x14129073, // csrrw x0,sepc,x5
    0x10200073, // sret
    0x00050613, // addi x12,x10,0
    0x03c00693, // addi x13,x0,60
    0x00d655b3, // srl x11,x12,x13
    0x00f5f593, // andi x11,x11,15
    0x03058513, // addi x10,x11,48
    0x00a5b593, // sltiu x11,x11,10
    0x00059463, // bne x11,x0,0x800000b0
    0x02750513, // addi x10,x10,39
    0x00100893, // addi x17,x0,1
    0x00000073, // ecall
    0xffc68693, // addi x13,x13,-4
    0xfc06dee3, // bge x13,x0,0x80000098
    0x00a00513, // addi x10,x0,10
    0x00000073, // ecall
    0x00008067, // jalr x0,0(x1)
    0x00800893, // addi x17,x0,8
    0x00000073, // ecall
];

const LINES: [&str; 22] = [
    "trap 4 0 0000000000000002 0000000080000010\n",
    "trap 12 0 0000000000000002 0000000080000014\n",
    "trap 20 0 0000000000000002 0000000080000018\n",
    "trap 28 0 0000000000000002 000000008000001c\n",
    "trap 36 0 0000000000000002 0000000080000020\n",
    "trap 48 0 0000000000000002 0000000080000034\n",
    "trap 56 0 0000000000000002 0000000080000038\n",
    "trap 64 0 0000000000000002 000000008000003c\n",
    "trap 72 0 0000000000000002 0000000080000040\n",
    "trap 80 0 0000000000000002 0000000080000044\n",
    "trap 88 0 0000000000000002 0000000080000048\n",
    "trap 96 0 0000000000000002 000000008000004c\n",
    "trap 104 0 0000000000000002 0000000080000050\n",
    "trap 112 0 0000000000000002 0000000080000054\n",
    "trap 120 0 0000000000000002 0000000080000058\n",
    "trap 128 0 0000000000000002 000000008000005c\n",
    "trap 136 0 0000000000000002 0000000080000060\n",
    "trap 144 0 0000000000000002 0000000080000064\n",
    "trap 152 0 0000000000000002 0000000080000068\n",
    "trap 160 0 0000000000000002 000000008000006c\n",
    "trap 168 0 0000000000000008 0000000080000070\n",
    "end 174 shutdown d3b9c6ae3097c8b13b2798803d1bdef7835112f0cdcd88d203988e107fad5e04\n",
];

#[test]
fn what_a_mode_may_not_execute(rt: HostRuntime) {
    expect_code(&rt, rt.alloc(), 16, &CODE, &LINES);
}
