//! A guest that executes every instruction of RV64I, Zicsr and the supervisor level in Bare mode on
//! corner
//! operands, folds what they leave into a sum and writes the sum in hexadecimal, and what QEMU's
//! machine
//! `virt` says of it (qemu-system-riscv64 7.2, `-cpu rv64,c=false`, entered in mode S at
//! 0x80000000).

/// The instructions, from 0x80000000 on. `fold` takes 31 times the sum plus x10.
pub const CODE: [u32; 302] = [
    0x00000413, // addi x8,x0,0
    0x00000497, // auipc x9,0x0
    0x4b448493, // addi x9,x9,1204
    0x09848a13, // addi x20,x9,152
    0x000a0a93, // addi x21,x20,0
    0x00000297, // auipc x5,0x0
    0x3fc28293, // addi x5,x5,1020
    0x0012e293, // ori x5,x5,1
    0x10529073, // csrrw x0,stvec,x5
    0x00048913, // addi x18,x9,0
    // outer:
    0x00093283, // ld x5,0(x18)
    0x00048993, // addi x19,x9,0
    // inner:
    0x0009b303, // ld x6,0(x19)
    0x00628533, // add x10,x5,x6
    0x3c8000ef, // jal x1,fold
    0x40628533, // sub x10,x5,x6
    0x3c0000ef, // jal x1,fold
    0x00629533, // sll x10,x5,x6
    0x3b8000ef, // jal x1,fold
    0x0062a533, // slt x10,x5,x6
    0x3b0000ef, // jal x1,fold
    0x0062b533, // sltu x10,x5,x6
    0x3a8000ef, // jal x1,fold
    0x0062c533, // xor x10,x5,x6
    0x3a0000ef, // jal x1,fold
    0x0062d533, // srl x10,x5,x6
    0x398000ef, // jal x1,fold
    0x4062d533, // sra x10,x5,x6
    0x390000ef, // jal x1,fold
    0x0062e533, // or x10,x5,x6
    0x388000ef, // jal x1,fold
    0x0062f533, // and x10,x5,x6
    0x380000ef, // jal x1,fold
    0x0062853b, // addw x10,x5,x6
    0x378000ef, // jal x1,fold
    0x4062853b, // subw x10,x5,x6
    0x370000ef, // jal x1,fold
    0x0062953b, // sllw x10,x5,x6
    0x368000ef, // jal x1,fold
    0x0062d53b, // srlw x10,x5,x6
    0x360000ef, // jal x1,fold
    0x4062d53b, // sraw x10,x5,x6
    0x358000ef, // jal x1,fold
    0x00000513, // addi x10,x0,0
    0x00628463, // beq x5,x6,800000b8
    0x00156513, // ori x10,x10,1
    0x00629463, // bne x5,x6,800000c0
    0x00256513, // ori x10,x10,2
    0x0062c463, // blt x5,x6,800000c8
    0x00456513, // ori x10,x10,4
    0x0062d463, // bge x5,x6,800000d0
    0x00856513, // ori x10,x10,8
    0x0062e463, // bltu x5,x6,800000d8
    0x01056513, // ori x10,x10,16
    0x0062f463, // bgeu x5,x6,800000e0
    0x02056513, // ori x10,x10,32
    0x320000ef, // jal x1,fold
    0x14029573, // csrrw x10,sscratch,x5
    0x318000ef, // jal x1,fold
    0x14032573, // csrrs x10,sscratch,x6
    0x310000ef, // jal x1,fold
    0x14033573, // csrrc x10,sscratch,x6
    0x308000ef, // jal x1,fold
    0x140ad573, // csrrwi x10,sscratch,21
    0x300000ef, // jal x1,fold
    0x14056573, // csrrsi x10,sscratch,10
    0x2f8000ef, // jal x1,fold
    0x140ff573, // csrrci x10,sscratch,31
    0x2f0000ef, // jal x1,fold
    0x14002573, // csrrs x10,sscratch,x0
    0x2e8000ef, // jal x1,fold
    0x00898993, // addi x19,x19,8
    0xf14998e3, // bne x19,x20,inner
    0x00028513, // addi x10,x5,0
    0x2d8000ef, // jal x1,fold
    0x00128513, // addi x10,x5,1
    0x2d0000ef, // jal x1,fold
    0xfff28513, // addi x10,x5,-1
    0x2c8000ef, // jal x1,fold
    0x7ff28513, // addi x10,x5,2047
    0x2c0000ef, // jal x1,fold
    0x80028513, // addi x10,x5,-2048
    0x2b8000ef, // jal x1,fold
    0xfff2a513, // slti x10,x5,-1
    0x2b0000ef, // jal x1,fold
    0x7ff2a513, // slti x10,x5,2047
    0x2a8000ef, // jal x1,fold
    0xfff2b513, // sltiu x10,x5,-1
    0x2a0000ef, // jal x1,fold
    0x0012b513, // sltiu x10,x5,1
    0x298000ef, // jal x1,fold
    0xfff2c513, // xori x10,x5,-1
    0x290000ef, // jal x1,fold
    0x7ff2c513, // xori x10,x5,2047
    0x288000ef, // jal x1,fold
    0x8002e513, // ori x10,x5,-2048
    0x280000ef, // jal x1,fold
    0x8002f513, // andi x10,x5,-2048
    0x278000ef, // jal x1,fold
    0x7ff2f513, // andi x10,x5,2047
    0x270000ef, // jal x1,fold
    0x00029513, // slli x10,x5,0x0
    0x268000ef, // jal x1,fold
    0x01f29513, // slli x10,x5,0x1f
    0x260000ef, // jal x1,fold
    0x02029513, // slli x10,x5,0x20
    0x258000ef, // jal x1,fold
    0x03f29513, // slli x10,x5,0x3f
    0x250000ef, // jal x1,fold
    0x0002d513, // srli x10,x5,0x0
    0x248000ef, // jal x1,fold
    0x01f2d513, // srli x10,x5,0x1f
    0x240000ef, // jal x1,fold
    0x0202d513, // srli x10,x5,0x20
    0x238000ef, // jal x1,fold
    0x03f2d513, // srli x10,x5,0x3f
    0x230000ef, // jal x1,fold
    0x4002d513, // srai x10,x5,0x0
    0x228000ef, // jal x1,fold
    0x41f2d513, // srai x10,x5,0x1f
    0x220000ef, // jal x1,fold
    0x4202d513, // srai x10,x5,0x20
    0x218000ef, // jal x1,fold
    0x43f2d513, // srai x10,x5,0x3f
    0x210000ef, // jal x1,fold
    0x0002851b, // addiw x10,x5,0
    0x208000ef, // jal x1,fold
    0x0012851b, // addiw x10,x5,1
    0x200000ef, // jal x1,fold
    0xfff2851b, // addiw x10,x5,-1
    0x1f8000ef, // jal x1,fold
    0x8002851b, // addiw x10,x5,-2048
    0x1f0000ef, // jal x1,fold
    0x0002951b, // slliw x10,x5,0x0
    0x1e8000ef, // jal x1,fold
    0x01f2951b, // slliw x10,x5,0x1f
    0x1e0000ef, // jal x1,fold
    0x0002d51b, // srliw x10,x5,0x0
    0x1d8000ef, // jal x1,fold
    0x01f2d51b, // srliw x10,x5,0x1f
    0x1d0000ef, // jal x1,fold
    0x4002d51b, // sraiw x10,x5,0x0
    0x1c8000ef, // jal x1,fold
    0x41f2d51b, // sraiw x10,x5,0x1f
    0x1c0000ef, // jal x1,fold
    0x005ab423, // sd x5,8(x21)
    0x008a8503, // lb x10,8(x21)
    0x1b4000ef, // jal x1,fold
    0x00fa8503, // lb x10,15(x21)
    0x1ac000ef, // jal x1,fold
    0x009ac503, // lbu x10,9(x21)
    0x1a4000ef, // jal x1,fold
    0x008a9503, // lh x10,8(x21)
    0x19c000ef, // jal x1,fold
    0x00ead503, // lhu x10,14(x21)
    0x194000ef, // jal x1,fold
    0x008aa503, // lw x10,8(x21)
    0x18c000ef, // jal x1,fold
    0x00caa503, // lw x10,12(x21)
    0x184000ef, // jal x1,fold
    0x008ae503, // lwu x10,8(x21)
    0x17c000ef, // jal x1,fold
    0x008ab503, // ld x10,8(x21)
    0x174000ef, // jal x1,fold
    0x005a8423, // sb x5,8(x21)
    0x005a9523, // sh x5,10(x21)
    0x005aa623, // sw x5,12(x21)
    0x005a83a3, // sb x5,7(x21)
    0x008ab503, // ld x10,8(x21)
    0x15c000ef, // jal x1,fold
    0x010a8b13, // addi x22,x21,16
    0xff0b3503, // ld x10,-16(x22)
    0x150000ef, // jal x1,fold
    0x00890913, // addi x18,x18,8
    0xd74918e3, // bne x18,x20,outer
    0x80000537, // lui x10,0x80000
    0x140000ef, // jal x1,fold
    0x7ffff537, // lui x10,0x7ffff
    0x138000ef, // jal x1,fold
    0xfffff537, // lui x10,0xfffff
    0x130000ef, // jal x1,fold
    0x80000517, // auipc x10,0x80000
    0x128000ef, // jal x1,fold
    0x7ffff517, // auipc x10,0x7ffff
    0x120000ef, // jal x1,fold
    0x00000517, // auipc x10,0x0
    0x118000ef, // jal x1,fold
    0x0040056f, // jal x10,800002f0
    0x110000ef, // jal x1,fold
    0x00000317, // auipc x6,0x0
    0x00d30567, // jalr x10,13(x6)
    0x00150513, // addi x10,x10,1
    0x100000ef, // jal x1,fold
    0x00000517, // auipc x10,0x0
    0x00c50567, // jalr x10,12(x10)
    0x00500013, // addi x0,x0,5
    0x00000513, // addi x10,x0,0
    0x0ec000ef, // jal x1,fold
    0x0ff0000f, // fence iorw,iorw
    0x12500073, // sfence.vma x0,x5
    0x10416073, // csrrsi x0,sie,2
    0x14416073, // csrrsi x0,sip,2
    0x10500073, // wfi
    0x14402573, // csrrs x10,sip,x0
    0x0d0000ef, // jal x1,fold
    0x10016073, // csrrsi x0,sstatus,2
    0x06300893, // addi x17,x0,99
    0x00700513, // addi x10,x0,7
    0x00700593, // addi x11,x0,7
    0x00000073, // ecall
    0x0b8000ef, // jal x1,fold
    0x00058513, // addi x10,x11,0
    0x0b0000ef, // jal x1,fold
    0x00100073, // ebreak
    0x00000000, // no instruction
    0xc0001073, // csrrw x0,cycle,x0
    0x7c002573, // csrrs x10,0x7c0,x0
    0x00700313, // addi x6,x0,7
    0x02c31313, // slli x6,x6,0x2c
    0x00833503, // ld x10,8(x6)
    0x00a301a3, // sb x10,3(x6)
    0x00500513, // addi x10,x0,5
    0x00000397, // auipc x7,0x0
    0x00a38567, // jalr x10,10(x7)
    0x080000ef, // jal x1,fold
    0x00000b97, // auipc x23,0x0
    0x00cb8b93, // addi x23,x23,12
    0x00030067, // jalr x0,0(x6)
    0x00000397, // auipc x7,0x0
    0x01838393, // addi x7,x7,24
    0x14139073, // csrrw x0,sepc,x7
    0x10000393, // addi x7,x0,256
    0x1003b073, // csrrc x0,sstatus,x7
    0x10200073, // sret
    0x00300513, // addi x10,x0,3
    0x054000ef, // jal x1,fold
    0x10200073, // sret
    0x12000073, // sfence.vma x0,x0
    0x14002573, // csrrs x10,sscratch,x0
    0x1401d073, // csrrwi x0,sscratch,3
    0x00100893, // addi x17,x0,1
    0x00000073, // ecall
    0x038000ef, // jal x1,fold
    0x01000913, // addi x18,x0,16
    // digit:
    0x03c45513, // srli x10,x8,0x3c
    0x00441413, // slli x8,x8,0x4
    0x00a00313, // addi x6,x0,10
    0x00654463, // blt x10,x6,800003e4
    0x02750513, // addi x10,x10,39
    0x03050513, // addi x10,x10,48
    0x00100893, // addi x17,x0,1
    0x00000073, // ecall
    0xfff90913, // addi x18,x18,-1
    0xfc091ee3, // bne x18,x0,digit
    0x00800893, // addi x17,x0,8
    0x00000073, // ecall
    // fold:
    0x00541f93, // slli x31,x8,0x5
    0x408f8fb3, // sub x31,x31,x8
    0x00af8433, // add x8,x31,x10
    0x00008067, // jalr x0,0(x1)
    // vector:
    0x02c0006f, // jal x0,exception
    0x00050c13, // addi x24,x10,0
    0x00008c93, // addi x25,x1,0
    0x14202573, // csrrs x10,scause,x0
    0xfe1ff0ef, // jal x1,fold
    0x14102573, // csrrs x10,sepc,x0
    0xfd9ff0ef, // jal x1,fold
    0x14417073, // csrrci x0,sip,2
    0x000c0513, // addi x10,x24,0
    0x000c8093, // addi x1,x25,0
    0x10200073, // sret
    // exception:
    0x00050c13, // addi x24,x10,0
    0x00008c93, // addi x25,x1,0
    0x14202573, // csrrs x10,scause,x0
    0x00050d13, // addi x26,x10,0
    0xfb5ff0ef, // jal x1,fold
    0x14102573, // csrrs x10,sepc,x0
    0x00450d93, // addi x27,x10,4
    0xfa9ff0ef, // jal x1,fold
    0x10002573, // csrrs x10,sstatus,x0
    0x12200f13, // addi x30,x0,290
    0x01e57533, // and x10,x10,x30
    0xf99ff0ef, // jal x1,fold
    0x00800f13, // addi x30,x0,8
    0x03ed0663, // beq x26,x30,user
    0x00200f13, // addi x30,x0,2
    0x03ed0663, // beq x26,x30,back
    0x00300f13, // addi x30,x0,3
    0x03ed0263, // beq x26,x30,back
    0x14302573, // csrrs x10,stval,x0
    0xf79ff0ef, // jal x1,fold
    0x00100f13, // addi x30,x0,1
    0x01ed1a63, // bne x26,x30,back
    0x000b8d93, // addi x27,x23,0
    0x00c0006f, // jal x0,back
    // user:
    0x10000f13, // addi x30,x0,256
    0x100f2073, // csrrs x0,sstatus,x30
    // back:
    0x141d9073, // csrrw x0,sepc,x27
    0x000c0513, // addi x10,x24,0
    0x000c8093, // addi x1,x25,0
    0x10200073, // sret
    0x00000013, // addi x0,x0,0
];

/// What follows them: the operands, each with each.
pub const OPERANDS: [u64; 19] = [
    0x0,
    0x1,
    0xffffffffffffffff,
    0x7f,
    0x80,
    0xff,
    0x7fff,
    0x8000,
    0xffff,
    0x7fffffff,
    0x80000000,
    0xffffffff,
    0xffffffff80000000,
    0x7fffffffffffffff,
    0x8000000000000000,
    0x1f,
    0x20,
    0x3f,
    0x123456789abcdef,
];

/// Its trace. QEMU's log of single steps has the pc of each instruction and the cause and pc of
/// each trap; each instruction and each interrupt is an event.
pub const LINES: [&str; 31] = [
    "trap 59777 0 8000000000000001 0000000080000338\n",
    "trap 59811 0 0000000000000003 0000000080000354\n",
    "trap 59847 0 0000000000000002 0000000080000358\n",
    "trap 59881 0 0000000000000002 000000008000035c\n",
    "trap 59915 0 0000000000000002 0000000080000360\n",
    "trap 59951 0 0000000000000005 000000008000036c\n",
    "trap 59995 0 0000000000000007 0000000080000370\n",
    "trap 60041 0 0000000000000000 000000008000037c\n",
    "trap 60093 0 0000000000000001 0000700000000000\n",
    "trap 60151 0 0000000000000002 00000000800003b0\n",
    "trap 60185 0 0000000000000002 00000000800003b4\n",
    "trap 60219 0 0000000000000002 00000000800003b8\n",
    "trap 60253 0 0000000000000002 00000000800003bc\n",
    "trap 60288 0 0000000000000008 00000000800003c4\n",
    "out 60335 0 62\n",
    "out 60344 0 34\n",
    "out 60354 0 65\n",
    "out 60364 0 66\n",
    "out 60373 0 30\n",
    "out 60383 0 66\n",
    "out 60393 0 65\n",
    "out 60402 0 32\n",
    "out 60411 0 36\n",
    "out 60421 0 61\n",
    "out 60431 0 62\n",
    "out 60441 0 64\n",
    "out 60450 0 39\n",
    "out 60459 0 34\n",
    "out 60469 0 66\n",
    "out 60478 0 33\n",
    "end 60483 shutdown acbaf1c37c5308f217999907de13812b6fbf7ed1399e5fb455d5178f998c4aa3\n",
];
