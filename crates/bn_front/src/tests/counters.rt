//! instret counts SRET and calls and no trap; cycle and time count all events.
//! Made by `tests/make` from its assembly; the trace is that of `tests/interpreter.py`.

use super::expect_code;

const CODE: [u32; 55] = [
    0x00000417, // auipc x8,0x0
    0x00000297, // auipc x5,0x0
    0x08428293, // addi x5,x5,132
    0x10529073, // csrrw x0,stvec,x5
    0x00000297, // auipc x5,0x0
    0x01c28293, // addi x5,x5,28
    0x14129073, // csrrw x0,sepc,x5
    0x10000293, // addi x5,x0,256
    0x10029073, // csrrw x0,sstatus,x5
    0xc0202a73, // csrrs x20,instret,x0
    0x10200073, // sret
    0xc0202af3, // csrrs x21,instret,x0
    0x414a8533, // sub x10,x21,x20
    0x064000ef, // jal x1,0x80000098
    0xc0202a73, // csrrs x20,instret,x0
    0xc0002b73, // csrrs x22,cycle,x0
    0x00100073, // ebreak
    0xc0002bf3, // csrrs x23,cycle,x0
    0xc0202af3, // csrrs x21,instret,x0
    0x414a8533, // sub x10,x21,x20
    0x048000ef, // jal x1,0x80000098
    0x416b8533, // sub x10,x23,x22
    0x040000ef, // jal x1,0x80000098
    0x06300893, // addi x17,x0,99
    0xc0202a73, // csrrs x20,instret,x0
    0x00000073, // ecall
    0xc0202af3, // csrrs x21,instret,x0
    0x414a8533, // sub x10,x21,x20
    0x028000ef, // jal x1,0x80000098
    0xc0002a73, // csrrs x20,cycle,x0
    0xc0102af3, // csrrs x21,time,x0
    0x414a8533, // sub x10,x21,x20
    0x018000ef, // jal x1,0x80000098
    0x0500006f, // jal x0,0x800000d4
    0x141022f3, // csrrs x5,sepc,x0
    0x00428293, // addi x5,x5,4
    0x14129073, // csrrw x0,sepc,x5
    0x10200073, // sret
    0x00050613, // addi x12,x10,0
    0x03c00693, // addi x13,x0,60
    0x00d655b3, // srl x11,x12,x13
    0x00f5f593, // andi x11,x11,15
    0x03058513, // addi x10,x11,48
    0x00a5b593, // sltiu x11,x11,10
    0x00059463, // bne x11,x0,0x800000b8
    0x02750513, // addi x10,x10,39
    0x00100893, // addi x17,x0,1
    0x00000073, // ecall
    0xffc68693, // addi x13,x13,-4
    0xfc06dee3, // bge x13,x0,0x800000a0
    0x00a00513, // addi x10,x0,10
    0x00000073, // ecall
    0x00008067, // jalr x0,0(x1)
    0x00800893, // addi x17,x0,8
    0x00000073, // ecall
];

const LINES: [&str; 87] = [
    "out 22 0 30\n",
    "out 31 0 30\n",
    "out 40 0 30\n",
    "out 49 0 30\n",
    "out 58 0 30\n",
    "out 67 0 30\n",
    "out 76 0 30\n",
    "out 85 0 30\n",
    "out 94 0 30\n",
    "out 103 0 30\n",
    "out 112 0 30\n",
    "out 121 0 30\n",
    "out 130 0 30\n",
    "out 139 0 30\n",
    "out 148 0 30\n",
    "out 157 0 32\n",
    "out 161 0 0a\n",
    "trap 165 0 0000000000000003 0000000080000040\n",
    "out 182 0 30\n",
    "out 191 0 30\n",
    "out 200 0 30\n",
    "out 209 0 30\n",
    "out 218 0 30\n",
    "out 227 0 30\n",
    "out 236 0 30\n",
    "out 245 0 30\n",
    "out 254 0 30\n",
    "out 263 0 30\n",
    "out 272 0 30\n",
    "out 281 0 30\n",
    "out 290 0 30\n",
    "out 299 0 30\n",
    "out 308 0 30\n",
    "out 317 0 37\n",
    "out 321 0 0a\n",
    "out 333 0 30\n",
    "out 342 0 30\n",
    "out 351 0 30\n",
    "out 360 0 30\n",
    "out 369 0 30\n",
    "out 378 0 30\n",
    "out 387 0 30\n",
    "out 396 0 30\n",
    "out 405 0 30\n",
    "out 414 0 30\n",
    "out 423 0 30\n",
    "out 432 0 30\n",
    "out 441 0 30\n",
    "out 450 0 30\n",
    "out 459 0 30\n",
    "out 468 0 36\n",
    "out 472 0 0a\n",
    "out 488 0 30\n",
    "out 497 0 30\n",
    "out 506 0 30\n",
    "out 515 0 30\n",
    "out 524 0 30\n",
    "out 533 0 30\n",
    "out 542 0 30\n",
    "out 551 0 30\n",
    "out 560 0 30\n",
    "out 569 0 30\n",
    "out 578 0 30\n",
    "out 587 0 30\n",
    "out 596 0 30\n",
    "out 605 0 30\n",
    "out 614 0 30\n",
    "out 623 0 32\n",
    "out 627 0 0a\n",
    "out 641 0 30\n",
    "out 650 0 30\n",
    "out 659 0 30\n",
    "out 668 0 30\n",
    "out 677 0 30\n",
    "out 686 0 30\n",
    "out 695 0 30\n",
    "out 704 0 30\n",
    "out 713 0 30\n",
    "out 722 0 30\n",
    "out 731 0 30\n",
    "out 740 0 30\n",
    "out 749 0 30\n",
    "out 758 0 30\n",
    "out 767 0 30\n",
    "out 776 0 31\n",
    "out 780 0 0a\n",
    "end 785 shutdown 0f0fa87c51ea42faf7c6393e1d0bff2f69468d6331f31186d73ce69230659701\n",
];

#[test]
fn counters_count(rt: HostRuntime) {
    expect_code(&rt, rt.alloc(), 16, &CODE, &LINES);
}
