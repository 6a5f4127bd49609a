//! A guest that goes to mode U, where it may neither launch nor return from a trap nor wait, and
//! loads and stores outside memory at addresses that aren't multiples of the width.

/// The instructions, from 0x80000000 on.
pub const CODE: [u32; 25] = [
    0x00000297, // auipc x5,0x0
    0x04028313, // addi x6,x5,64
    0x10531073, // csrrw x0,stvec,x6
    0x01c28313, // addi x6,x5,28
    0x14131073, // csrrw x0,sepc,x6
    0x0ff0000f, // fence iorw,iorw
    0x10200073, // sret
    // mode U:
    0x0002890b, // b.launch x18,x5
    0x10200073, // sret
    0x10500073, // wfi
    0x00103403, // ld x8,1(x0)
    0x00802123, // sw x8,2(x0)
    0x00100893, // addi x17,x0,1
    0x00000073, // ecall
    0x00000013, // addi x0,x0,0
    0x00000013, // addi x0,x0,0
    // the handler of traps:
    0x141024f3, // csrrs x9,sepc,x0
    0x00448493, // addi x9,x9,4
    0x14149073, // csrrw x0,sepc,x9
    0x142024f3, // csrrs x9,scause,x0
    0x00800513, // addi x10,x0,8
    0x00a48463, // beq x9,x10,8000005c
    0x10200073, // sret
    0x00800893, // addi x17,x0,8
    0x00000073, // ecall
];

/// Its trace: seven instructions come before mode U, and the handler has seven. It stores nothing,
/// so the digest is that of its code and zeros.
pub const LINES: [&str; 7] = [
    "trap 7 0 0000000000000002 000000008000001c\n",
    "trap 15 0 0000000000000002 0000000080000020\n",
    "trap 23 0 0000000000000002 0000000080000024\n",
    "trap 31 0 0000000000000004 0000000080000028\n",
    "trap 39 0 0000000000000006 000000008000002c\n",
    "trap 48 0 0000000000000008 0000000080000034\n",
    "end 57 shutdown f5e5c6836f6270d1dafe59fd3715f6490e6adffccb0a972f862f7e43aa289016\n",
];
