//! Addresses of the upper half, whose bits 63:39 equal bit 38, are loaded from, stored to and
//! executed. Made by `tests/make` from its assembly; the trace is that of `tests/interpreter.py`.

use super::{bytes_of_code, expect_image, push_pairs};

const CODE: [u32; 50] = [
    0x00000417, // auipc x8,0x0
    0x00000297, // auipc x5,0x0
    0x07428293, // addi x5,x5,116
    0x10529073, // csrrw x0,stvec,x5
    0x7f843283, // ld x5,2040(x8)
    0x18029073, // csrrw x0,satp,x5
    0xfff00493, // addi x9,x0,-1
    0x01e49493, // slli x9,x9,0x1e
    0x7f84b503, // ld x10,2040(x9)
    0x060000ef, // jal x1,0x80000084
    0x05500293, // addi x5,x0,85
    0x4054b023, // sd x5,1024(x9)
    0x40043503, // ld x10,1024(x8)
    0x050000ef, // jal x1,0x80000084
    0x00000297, // auipc x5,0x0
    0x01428293, // addi x5,x5,20
    0x408282b3, // sub x5,x5,x8
    0x009282b3, // add x5,x5,x9
    0x00028067, // jalr x0,0(x5)
    0x00000517, // auipc x10,0x0
    0x034000ef, // jal x1,0x80000084
    0xfff00493, // addi x9,x0,-1
    0x02649493, // slli x9,x9,0x26
    0x00000a17, // auipc x20,0x0
    0x00ca0a13, // addi x20,x20,12
    0x0004b283, // ld x5,0(x9)
    0x00000a17, // auipc x20,0x0
    0x058a0a13, // addi x20,x20,88
    0xff84b283, // ld x5,-8(x9)
    0x04c0006f, // jal x0,0x800000c0
    0x14302573, // csrrs x10,stval,x0
    0x008000ef, // jal x1,0x80000084
    0x000a0067, // jalr x0,0(x20)
    0x00050613, // addi x12,x10,0
    0x03c00693, // addi x13,x0,60
    0x00d655b3, // srl x11,x12,x13
    0x00f5f593, // andi x11,x11,15
    0x03058513, // addi x10,x11,48
    0x00a5b593, // sltiu x11,x11,10
    0x00059463, // bne x11,x0,0x800000a4
    0x02750513, // addi x10,x10,39
    0x00100893, // addi x17,x0,1
    0x00000073, // ecall
    0xffc68693, // addi x13,x13,-4
    0xfc06dee3, // bge x13,x0,0x8000008c
    0x00a00513, // addi x10,x0,10
    0x00000073, // ecall
    0x00008067, // jalr x0,0(x1)
    0x00800893, // addi x17,x0,8
    0x00000073, // ecall
];

/// Its tables: byte offsets, and the numbers there.
const TABLES: [(usize, u64); 3] = [
    (2040, 0x8000000000080001),
    (4112, 0x200000cf),
    (8184, 0x200000cf),
];

const LINES: [&str; 88] = [
    "out 18 0 38\n",
    "out 27 0 30\n",
    "out 36 0 30\n",
    "out 45 0 30\n",
    "out 54 0 30\n",
    "out 63 0 30\n",
    "out 72 0 30\n",
    "out 81 0 30\n",
    "out 90 0 30\n",
    "out 99 0 30\n",
    "out 108 0 30\n",
    "out 117 0 38\n",
    "out 126 0 30\n",
    "out 135 0 30\n",
    "out 144 0 30\n",
    "out 153 0 31\n",
    "out 157 0 0a\n",
    "out 171 0 30\n",
    "out 180 0 30\n",
    "out 189 0 30\n",
    "out 198 0 30\n",
    "out 207 0 30\n",
    "out 216 0 30\n",
    "out 225 0 30\n",
    "out 234 0 30\n",
    "out 243 0 30\n",
    "out 252 0 30\n",
    "out 261 0 30\n",
    "out 270 0 30\n",
    "out 279 0 30\n",
    "out 288 0 30\n",
    "out 297 0 35\n",
    "out 306 0 35\n",
    "out 310 0 0a\n",
    "out 328 0 66\n",
    "out 338 0 66\n",
    "out 348 0 66\n",
    "out 358 0 66\n",
    "out 368 0 66\n",
    "out 378 0 66\n",
    "out 388 0 66\n",
    "out 398 0 66\n",
    "out 408 0 63\n",
    "out 417 0 30\n",
    "out 426 0 30\n",
    "out 435 0 30\n",
    "out 444 0 30\n",
    "out 453 0 30\n",
    "out 462 0 34\n",
    "out 472 0 63\n",
    "out 476 0 0a\n",
    "trap 482 0 000000000000000d ffffffffc0000064\n",
    "out 494 0 66\n",
    "out 504 0 66\n",
    "out 514 0 66\n",
    "out 524 0 66\n",
    "out 534 0 66\n",
    "out 544 0 66\n",
    "out 554 0 63\n",
    "out 563 0 30\n",
    "out 572 0 30\n",
    "out 581 0 30\n",
    "out 590 0 30\n",
    "out 599 0 30\n",
    "out 608 0 30\n",
    "out 617 0 30\n",
    "out 626 0 30\n",
    "out 635 0 30\n",
    "out 639 0 0a\n",
    "trap 644 0 000000000000000d ffffffffc0000070\n",
    "out 656 0 66\n",
    "out 666 0 66\n",
    "out 676 0 66\n",
    "out 686 0 66\n",
    "out 696 0 66\n",
    "out 706 0 66\n",
    "out 716 0 62\n",
    "out 726 0 66\n",
    "out 736 0 66\n",
    "out 746 0 66\n",
    "out 756 0 66\n",
    "out 766 0 66\n",
    "out 776 0 66\n",
    "out 786 0 66\n",
    "out 796 0 66\n",
    "out 805 0 38\n",
    "out 809 0 0a\n",
    "end 814 shutdown ca2ad3507025f01f9e980f9d2d78afafdbb86464eb82c6fe8931ebb3244124e6\n",
];

#[test]
fn the_upper_half_of_addresses(rt: HostRuntime) {
    let mut image = bytes_of_code(rt.alloc(), &CODE).expect(&rt, "memory");
    push_pairs(&mut image, &TABLES).expect(&rt, "memory");
    expect_image(&rt, rt.alloc(), 16, &image, &LINES);
}
