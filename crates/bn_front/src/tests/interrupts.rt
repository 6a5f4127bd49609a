//! A software interrupt is taken where sie, sip and sstatus have it, at its vector, and not before.
//! Made by `tests/make` from its assembly; the trace is that of `tests/interpreter.py`.

use super::expect_code;

const CODE: [u32; 53] = [
    0x00000417, // auipc x8,0x0
    0x00000297, // auipc x5,0x0
    0x06428293, // addi x5,x5,100
    0x00128293, // addi x5,x5,1
    0x10529073, // csrrw x0,stvec,x5
    0x14415073, // csrrwi x0,sip,2
    0x10015073, // csrrwi x0,sstatus,2
    0x10485073, // csrrwi x0,sie,16
    0x10005073, // csrrwi x0,sstatus,0
    0x10415073, // csrrwi x0,sie,2
    0x00000293, // addi x5,x0,0
    0x00000297, // auipc x5,0x0
    0x01028293, // addi x5,x5,16
    0x14129073, // csrrw x0,sepc,x5
    0x10200073, // sret
    0x00000013, // addi x0,x0,0
    0x00000073, // ecall
    0x10002573, // csrrs x10,sstatus,x0
    0x048000ef, // jal x1,0x80000090
    0x14415073, // csrrwi x0,sip,2
    0x10015073, // csrrwi x0,sstatus,2
    0x00030513, // addi x10,x6,0
    0x038000ef, // jal x1,0x80000090
    0x10002573, // csrrs x10,sstatus,x0
    0x030000ef, // jal x1,0x80000090
    0x0680006f, // jal x0,0x800000cc
    0x0080006f, // jal x0,0x80000070
    0x0100006f, // jal x0,0x8000007c
    0x00000297, // auipc x5,0x0
    0xfd428293, // addi x5,x5,-44
    0x00028067, // jalr x0,0(x5)
    0x14202373, // csrrs x6,scause,x0
    0x14405073, // csrrwi x0,sip,0
    0x14402573, // csrrs x10,sip,x0
    0x141023f3, // csrrs x7,sepc,x0
    0x10200073, // sret
    0x00050613, // addi x12,x10,0
    0x03c00693, // addi x13,x0,60
    0x00d655b3, // srl x11,x12,x13
    0x00f5f593, // andi x11,x11,15
    0x03058513, // addi x10,x11,48
    0x00a5b593, // sltiu x11,x11,10
    0x00059463, // bne x11,x0,0x800000b0
    0x02750513, // addi x10,x10,39
    0x00100893, // addi x17,x0,1
    0x00000073, // ecall
    0xffc68693, // addi x13,x13,-4
    0xfc06dee3, // bge x13,x0,0x80000098
    0x00a00513, // addi x10,x0,10
    0x00000073, // ecall
    0x00008067, // jalr x0,0(x1)
    0x00800893, // addi x17,x0,8
    0x00000073, // ecall
];

const LINES: [&str; 55] = [
    "trap 15 0 8000000000000001 000000008000003c\n",
    "trap 23 0 0000000000000008 0000000080000040\n",
    "out 38 0 30\n",
    "out 47 0 30\n",
    "out 56 0 30\n",
    "out 65 0 30\n",
    "out 74 0 30\n",
    "out 83 0 30\n",
    "out 92 0 30\n",
    "out 101 0 32\n",
    "out 110 0 30\n",
    "out 119 0 30\n",
    "out 128 0 30\n",
    "out 137 0 30\n",
    "out 146 0 30\n",
    "out 155 0 30\n",
    "out 164 0 30\n",
    "out 173 0 30\n",
    "out 177 0 0a\n",
    "trap 181 0 8000000000000001 0000000080000054\n",
    "out 198 0 38\n",
    "out 207 0 30\n",
    "out 216 0 30\n",
    "out 225 0 30\n",
    "out 234 0 30\n",
    "out 243 0 30\n",
    "out 252 0 30\n",
    "out 261 0 30\n",
    "out 270 0 30\n",
    "out 279 0 30\n",
    "out 288 0 30\n",
    "out 297 0 30\n",
    "out 306 0 30\n",
    "out 315 0 30\n",
    "out 324 0 30\n",
    "out 333 0 31\n",
    "out 337 0 0a\n",
    "out 349 0 30\n",
    "out 358 0 30\n",
    "out 367 0 30\n",
    "out 376 0 30\n",
    "out 385 0 30\n",
    "out 394 0 30\n",
    "out 403 0 30\n",
    "out 412 0 32\n",
    "out 421 0 30\n",
    "out 430 0 30\n",
    "out 439 0 30\n",
    "out 448 0 30\n",
    "out 457 0 30\n",
    "out 466 0 30\n",
    "out 475 0 32\n",
    "out 484 0 32\n",
    "out 488 0 0a\n",
    "end 493 shutdown ce0e05c03ce2f00764779782308edcaaad3965a1773f7849df2f5ae8a1563232\n",
];

#[test]
fn a_software_interrupt_is_taken(rt: HostRuntime) {
    expect_code(&rt, rt.alloc(), 16, &CODE, &LINES);
}
