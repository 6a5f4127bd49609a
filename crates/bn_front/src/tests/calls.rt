//! console_putchar leaves 0 in a0 and keeps a1; a call that the hypervisor doesn't have leaves -2
//! and 0. Made by `tests/make` from its assembly; the trace is that of `tests/interpreter.py`.

use super::expect_code;

const CODE: [u32; 36] = [
    0x00700593, // addi x11,x0,7
    0x04100513, // addi x10,x0,65
    0x00100893, // addi x17,x0,1
    0x00000073, // ecall
    0x00050a13, // addi x20,x10,0
    0x00058a93, // addi x21,x11,0
    0x06300893, // addi x17,x0,99
    0x00000073, // ecall
    0x00050b13, // addi x22,x10,0
    0x00058b93, // addi x23,x11,0
    0x000a0513, // addi x10,x20,0
    0x020000ef, // jal x1,0x8000004c
    0x000a8513, // addi x10,x21,0
    0x018000ef, // jal x1,0x8000004c
    0x000b0513, // addi x10,x22,0
    0x010000ef, // jal x1,0x8000004c
    0x000b8513, // addi x10,x23,0
    0x008000ef, // jal x1,0x8000004c
    0x0400006f, // jal x0,0x80000088
    0x00050613, // addi x12,x10,0
    0x03c00693, // addi x13,x0,60
    0x00d655b3, // srl x11,x12,x13
    0x00f5f593, // andi x11,x11,15
    0x03058513, // addi x10,x11,48
    0x00a5b593, // sltiu x11,x11,10
    0x00059463, // bne x11,x0,0x8000006c
    0x02750513, // addi x10,x10,39
    0x00100893, // addi x17,x0,1
    0x00000073, // ecall
    0xffc68693, // addi x13,x13,-4
    0xfc06dee3, // bge x13,x0,0x80000054
    0x00a00513, // addi x10,x0,10
    0x00000073, // ecall
    0x00008067, // jalr x0,0(x1)
    0x00800893, // addi x17,x0,8
    0x00000073, // ecall
];

const LINES: [&str; 70] = [
    "out 3 0 41\n",
    "out 20 0 30\n",
    "out 29 0 30\n",
    "out 38 0 30\n",
    "out 47 0 30\n",
    "out 56 0 30\n",
    "out 65 0 30\n",
    "out 74 0 30\n",
    "out 83 0 30\n",
    "out 92 0 30\n",
    "out 101 0 30\n",
    "out 110 0 30\n",
    "out 119 0 30\n",
    "out 128 0 30\n",
    "out 137 0 30\n",
    "out 146 0 30\n",
    "out 155 0 30\n",
    "out 159 0 0a\n",
    "out 171 0 30\n",
    "out 180 0 30\n",
    "out 189 0 30\n",
    "out 198 0 30\n",
    "out 207 0 30\n",
    "out 216 0 30\n",
    "out 225 0 30\n",
    "out 234 0 30\n",
    "out 243 0 30\n",
    "out 252 0 30\n",
    "out 261 0 30\n",
    "out 270 0 30\n",
    "out 279 0 30\n",
    "out 288 0 30\n",
    "out 297 0 30\n",
    "out 306 0 37\n",
    "out 310 0 0a\n",
    "out 323 0 66\n",
    "out 333 0 66\n",
    "out 343 0 66\n",
    "out 353 0 66\n",
    "out 363 0 66\n",
    "out 373 0 66\n",
    "out 383 0 66\n",
    "out 393 0 66\n",
    "out 403 0 66\n",
    "out 413 0 66\n",
    "out 423 0 66\n",
    "out 433 0 66\n",
    "out 443 0 66\n",
    "out 453 0 66\n",
    "out 463 0 66\n",
    "out 473 0 65\n",
    "out 477 0 0a\n",
    "out 489 0 30\n",
    "out 498 0 30\n",
    "out 507 0 30\n",
    "out 516 0 30\n",
    "out 525 0 30\n",
    "out 534 0 30\n",
    "out 543 0 30\n",
    "out 552 0 30\n",
    "out 561 0 30\n",
    "out 570 0 30\n",
    "out 579 0 30\n",
    "out 588 0 30\n",
    "out 597 0 30\n",
    "out 606 0 30\n",
    "out 615 0 30\n",
    "out 624 0 30\n",
    "out 628 0 0a\n",
    "end 633 shutdown e568b5413822894120e01406579fa5e75fa2ebf6744b34f185b0a93a69df8263\n",
];

#[test]
fn what_calls_leave(rt: HostRuntime) {
    expect_code(&rt, rt.alloc(), 16, &CODE, &LINES);
}
