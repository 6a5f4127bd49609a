//! Guests that reach for the pages of modules, as programs and by their page tables.
//! Made by `tests/make` from their assembly; the traces are those of `tests/interpreter.py`.

use super::guest::{Guest, expect_guests};

// Loads, stores and fetches from a module's pages by the untrusted world, without translation: in
// mode S and in mode U each is denied, but one that is misaligned traps as that. Pages beside them
// are open.
const OTHERS_PAGES_CODE: [u32; 124] = [
    0x00000f97, // auipc x31,0x0
    0x1bcf8f93, // addi x31,x31,444
    0x105f9073, // csrrw x0,stvec,x31
    0x00008417, // auipc x8,0x8
    0xff440413, // addi x8,x8,-12
    0x0004028b, // b.launch x5,x8
    0x00100f93, // addi x31,x0,1
    0x1df29063, // bne x5,x31,0x800001dc
    0x00010417, // auipc x8,0x10
    0xfe040413, // addi x8,x8,-32
    0x00011497, // auipc x9,0x11
    0xfd848493, // addi x9,x9,-40
    0x00010917, // auipc x18,0x10
    0xfc890913, // addi x18,x18,-56
    0x00012997, // auipc x19,0x12
    0xfc898993, // addi x19,x19,-56
    0x00011a17, // auipc x20,0x11
    0x7c0a0a13, // addi x20,x20,1984
    0x00010e17, // auipc x28,0x10
    0xfbbe0e13, // addi x28,x28,-69
    0x00000e97, // auipc x29,0x0
    0x010e8e93, // addi x29,x29,16
    0x00340303, // lb x6,3(x8)
    0x1800006f, // jal x0,0x800001dc
    0x00012e17, // auipc x28,0x12
    0xf98e0e13, // addi x28,x28,-104
    0x00000e97, // auipc x29,0x0
    0x010e8e93, // addi x29,x29,16
    0x7f8a3303, // ld x6,2040(x20)
    0x1680006f, // jal x0,0x800001dc
    0x00010e17, // auipc x28,0x10
    0xf8ce0e13, // addi x28,x28,-116
    0x00000e97, // auipc x29,0x0
    0x010e8e93, // addi x29,x29,16
    0x00642223, // sw x6,4(x8)
    0x1500006f, // jal x0,0x800001dc
    0x00011e17, // auipc x28,0x11
    0xf70e0e13, // addi x28,x28,-144
    0x00000e97, // auipc x29,0x0
    0x010e8e93, // addi x29,x29,16
    0x0064b023, // sd x6,0(x9)
    0x1380006f, // jal x0,0x800001dc
    0x00011e17, // auipc x28,0x11
    0xf59e0e13, // addi x28,x28,-167
    0x00000e97, // auipc x29,0x0
    0x010e8e93, // addi x29,x29,16
    0x0014b303, // ld x6,1(x9)
    0x1200006f, // jal x0,0x800001dc
    0x00010e17, // auipc x28,0x10
    0xf42e0e13, // addi x28,x28,-190
    0x00000e97, // auipc x29,0x0
    0x010e8e93, // addi x29,x29,16
    0x00642123, // sw x6,2(x8)
    0x1080006f, // jal x0,0x800001dc
    0x00010e17, // auipc x28,0x10
    0xf28e0e13, // addi x28,x28,-216
    0x00000e97, // auipc x29,0x0
    0x010e8e93, // addi x29,x29,16
    0x000400e7, // jalr x1,0(x8)
    0x0f00006f, // jal x0,0x800001dc
    0x00010e17, // auipc x28,0x10
    0xf14e0e13, // addi x28,x28,-236
    0x00000e97, // auipc x29,0x0
    0x010e8e93, // addi x29,x29,16
    0x004400e7, // jalr x1,4(x8)
    0x0d80006f, // jal x0,0x800001dc
    0x00011e17, // auipc x28,0x11
    0xef8e0e13, // addi x28,x28,-264
    0x00000e97, // auipc x29,0x0
    0x010e8e93, // addi x29,x29,16
    0x000480e7, // jalr x1,0(x9)
    0x0c00006f, // jal x0,0x800001dc
    0x00000f93, // addi x31,x0,0
    0x0bf31c63, // bne x6,x31,0x800001dc
    0x00500393, // addi x7,x0,5
    0x00793023, // sd x7,0(x18)
    0x0079b023, // sd x7,0(x19)
    0x00093303, // ld x6,0(x18)
    0x00500f93, // addi x31,x0,5
    0x0bf31063, // bne x6,x31,0x800001dc
    0x00000397, // auipc x7,0x0
    0x01038393, // addi x7,x7,16
    0x14139073, // csrrw x0,sepc,x7
    0x10200073, // sret
    0x0009b303, // ld x6,0(x19)
    0x00500f93, // addi x31,x0,5
    0x09f31263, // bne x6,x31,0x800001dc
    0x00011e17, // auipc x28,0x11
    0xea4e0e13, // addi x28,x28,-348
    0x00000e97, // auipc x29,0x0
    0x010e8e93, // addi x29,x29,16
    0x0004b303, // ld x6,0(x9)
    0x06c0006f, // jal x0,0x800001dc
    0x00011e17, // auipc x28,0x11
    0xe93e0e13, // addi x28,x28,-365
    0x00000e97, // auipc x29,0x0
    0x010e8e93, // addi x29,x29,16
    0x006483a3, // sb x6,7(x9)
    0x0540006f, // jal x0,0x800001dc
    0x00010e17, // auipc x28,0x10
    0xe74e0e13, // addi x28,x28,-396
    0x00000e97, // auipc x29,0x0
    0x010e8e93, // addi x29,x29,16
    0x000400e7, // jalr x1,0(x8)
    0x03c0006f, // jal x0,0x800001dc
    0x00500f93, // addi x31,x0,5
    0x03f31a63, // bne x6,x31,0x800001dc
    0x00100e13, // addi x28,x0,1
    0x00000e97, // auipc x29,0x0
    0x038e8e93, // addi x29,x29,56
    0x00000073, // ecall
    0x14302f73, // csrrs x30,stval,x0
    0x01cf1663, // bne x30,x28,0x800001cc
    0x141e9073, // csrrw x0,sepc,x29
    0x10200073, // sret
    0x14202f73, // csrrs x30,scause,x0
    0x00800f93, // addi x31,x0,8
    0x01ff1463, // bne x30,x31,0x800001dc
    0x000e8067, // jalr x0,0(x29)
    0x02100513, // addi x10,x0,33
    0x00100893, // addi x17,x0,1
    0x00000073, // ecall
    0x00800893, // addi x17,x0,8
    0x00000073, // ecall
];

const OTHERS_PAGES_TABLES: [(usize, u64); 8] = [
    (32768, 0x201010147534e42),
    (32784, 0x80010000),
    (32848, 0x80010),
    (32856, 0x501),
    (32864, 0x80011),
    (32872, 0x301),
    (65536, 0x200b00700513),
    (69632, 0x1122334455667788),
];

const OTHERS_PAGES_LINES: [&str; 25] = [
    "launch 5 0 1 a22aca9e914d1a17e9d49ca6d48af078e4a08f78d0973c262217865daba4cddc\n",
    "deny 22 0 0 load 0000000080010\n",
    "trap 22 0 0000000000000005 0000000080000058\n",
    "deny 31 0 0 load 0000000080011\n",
    "trap 31 0 0000000000000005 0000000080000070\n",
    "deny 40 0 0 store 0000000080010\n",
    "trap 40 0 0000000000000007 0000000080000088\n",
    "deny 49 0 0 store 0000000080011\n",
    "trap 49 0 0000000000000007 00000000800000a0\n",
    "trap 58 0 0000000000000004 00000000800000b8\n",
    "trap 67 0 0000000000000006 00000000800000d0\n",
    "deny 77 0 0 fetch 0000000080010\n",
    "trap 77 0 0000000000000001 0000000080010000\n",
    "deny 87 0 0 fetch 0000000080010\n",
    "trap 87 0 0000000000000001 0000000080010004\n",
    "deny 97 0 0 fetch 0000000080011\n",
    "trap 97 0 0000000000000001 0000000080011000\n",
    "deny 121 0 0 load 0000000080011\n",
    "trap 121 0 0000000000000005 000000008000016c\n",
    "deny 130 0 0 store 0000000080011\n",
    "trap 130 0 0000000000000007 0000000080000184\n",
    "deny 140 0 0 fetch 0000000080010\n",
    "trap 140 0 0000000000000001 0000000080010000\n",
    "trap 150 0 0000000000000008 00000000800001b8\n",
    "end 159 shutdown 1969c2f72d21948f66ff03ec63e1f24937b6254862e6e8fa2fff0de63df77537\n",
];

// The same by leaves of 4 KiB, 2 MiB and 1 GiB, in modes S and U. What a leaf doesn't permit is a
// page fault, and not denied; a superpage over a module's pages leads to all pages but these.
const OTHERS_PAGES_TRANSLATED_CODE: [u32; 103] = [
    0x00000f97, // auipc x31,0x0
    0x170f8f93, // addi x31,x31,368
    0x105f9073, // csrrw x0,stvec,x31
    0x00000f97, // auipc x31,0x0
    0x3f4f8f93, // addi x31,x31,1012
    0x000fbf83, // ld x31,0(x31)
    0x180f9073, // csrrw x0,satp,x31
    0x00008417, // auipc x8,0x8
    0xfe440413, // addi x8,x8,-28
    0x0004028b, // b.launch x5,x8
    0x00100f93, // addi x31,x0,1
    0x15f29e63, // bne x5,x31,0x80000188
    0x00011417, // auipc x8,0x11
    0xfd040413, // addi x8,x8,-48
    0x004104b7, // lui x9,0x410
    0x00411937, // lui x18,0x411
    0x004129b7, // lui x19,0x412
    0x00010a37, // lui x20,0x10
    0x00011ab7, // lui x21,0x11
    0x00012b37, // lui x22,0x12
    0x00500e13, // addi x28,x0,5
    0x00000e97, // auipc x29,0x0
    0x010e8e93, // addi x29,x29,16
    0x00043303, // ld x6,0(x8)
    0x1280006f, // jal x0,0x80000188
    0x00500e13, // addi x28,x0,5
    0x00000e97, // auipc x29,0x0
    0x010e8e93, // addi x29,x29,16
    0x00295303, // lhu x6,2(x18)
    0x1140006f, // jal x0,0x80000188
    0x00700e13, // addi x28,x0,7
    0x00000e97, // auipc x29,0x0
    0x010e8e93, // addi x29,x29,16
    0x0064b023, // sd x6,0(x9)
    0x1000006f, // jal x0,0x80000188
    0x00100e13, // addi x28,x0,1
    0x00000e97, // auipc x29,0x0
    0x010e8e93, // addi x29,x29,16
    0x000480e7, // jalr x1,0(x9)
    0x0ec0006f, // jal x0,0x80000188
    0x00000f93, // addi x31,x0,0
    0x0ff31263, // bne x6,x31,0x80000188
    0x0009b303, // ld x6,0(x19)
    0x04d00f93, // addi x31,x0,77
    0x0df31c63, // bne x6,x31,0x80000188
    0x00d00e13, // addi x28,x0,13
    0x00000e97, // auipc x29,0x0
    0x010e8e93, // addi x29,x29,16
    0x000a3303, // ld x6,0(x20)
    0x0c40006f, // jal x0,0x80000188
    0x00000397, // auipc x7,0x0
    0x02038393, // addi x7,x7,32
    0x03439393, // slli x7,x7,0x34
    0x0343d393, // srli x7,x7,0x34
    0x00013337, // lui x6,0x13
    0x006383b3, // add x7,x7,x6
    0x14139073, // csrrw x0,sepc,x7
    0x10200073, // sret
    0x00500e13, // addi x28,x0,5
    0x00000e97, // auipc x29,0x0
    0x010e8e93, // addi x29,x29,16
    0x000a3303, // ld x6,0(x20)
    0x0900006f, // jal x0,0x80000188
    0x00700e13, // addi x28,x0,7
    0x00000e97, // auipc x29,0x0
    0x010e8e93, // addi x29,x29,16
    0x006a3023, // sd x6,0(x20)
    0x07c0006f, // jal x0,0x80000188
    0x00f00e13, // addi x28,x0,15
    0x00000e97, // auipc x29,0x0
    0x010e8e93, // addi x29,x29,16
    0x006ab023, // sd x6,0(x21)
    0x0680006f, // jal x0,0x80000188
    0x00500e13, // addi x28,x0,5
    0x00000e97, // auipc x29,0x0
    0x010e8e93, // addi x29,x29,16
    0x000a8303, // lb x6,0(x21)
    0x0540006f, // jal x0,0x80000188
    0x00100e13, // addi x28,x0,1
    0x00000e97, // auipc x29,0x0
    0x010e8e93, // addi x29,x29,16
    0x000b00e7, // jalr x1,0(x22)
    0x0400006f, // jal x0,0x80000188
    0x00c00e13, // addi x28,x0,12
    0x00000e97, // auipc x29,0x0
    0x010e8e93, // addi x29,x29,16
    0x000a00e7, // jalr x1,0(x20)
    0x02c0006f, // jal x0,0x80000188
    0x00800e13, // addi x28,x0,8
    0x00000e97, // auipc x29,0x0
    0x030e8e93, // addi x29,x29,48
    0x00000073, // ecall
    0x14202f73, // csrrs x30,scause,x0
    0x01cf1a63, // bne x30,x28,0x80000188
    0x00800f93, // addi x31,x0,8
    0x01ff0c63, // beq x30,x31,0x80000194
    0x141e9073, // csrrw x0,sepc,x29
    0x10200073, // sret
    0x02100513, // addi x10,x0,33
    0x00100893, // addi x17,x0,1
    0x00000073, // ecall
    0x00800893, // addi x17,x0,8
    0x00000073, // ecall
];

const OTHERS_PAGES_TRANSLATED_TABLES: [(usize, u64); 18] = [
    (1024, 0x8000000000080001),
    (4096, 0x20000801),
    (4112, 0x200000cf),
    (8192, 0x20000c01),
    (8208, 0x200000cf),
    (12416, 0x200044d7),
    (12424, 0x200044d3),
    (12432, 0x200040db),
    (12440, 0x200000df),
    (32768, 0x201010147534e42),
    (32784, 0x80010000),
    (32848, 0x80010),
    (32856, 0x501),
    (32864, 0x80011),
    (32872, 0x301),
    (65536, 0x200b00700513),
    (69632, 0x1122334455667788),
    (73728, 0x4d),
];

const OTHERS_PAGES_TRANSLATED_LINES: [&str; 22] = [
    "launch 9 0 1 a22aca9e914d1a17e9d49ca6d48af078e4a08f78d0973c262217865daba4cddc\n",
    "deny 23 0 0 load 0000000080011\n",
    "trap 23 0 0000000000000005 000000008000005c\n",
    "deny 33 0 0 load 0000000000411\n",
    "trap 33 0 0000000000000005 0000000080000070\n",
    "deny 43 0 0 store 0000000000410\n",
    "trap 43 0 0000000000000007 0000000080000084\n",
    "deny 54 0 0 fetch 0000000000410\n",
    "trap 54 0 0000000000000001 0000000000410000\n",
    "trap 69 0 000000000000000d 00000000800000c0\n",
    "deny 87 0 0 load 0000000000010\n",
    "trap 87 0 0000000000000005 00000000000130f4\n",
    "deny 97 0 0 store 0000000000010\n",
    "trap 97 0 0000000000000007 0000000000013108\n",
    "trap 107 0 000000000000000f 000000000001311c\n",
    "deny 117 0 0 load 0000000000011\n",
    "trap 117 0 0000000000000005 0000000000013130\n",
    "deny 128 0 0 fetch 0000000000012\n",
    "trap 128 0 0000000000000001 0000000000012000\n",
    "trap 139 0 000000000000000c 0000000000010000\n",
    "trap 149 0 0000000000000008 000000000001316c\n",
    "end 156 shutdown 9bfe34d07bffe3ca224fa3a6e797ab039e759e0a22d7b960416b4bc88ab4f220\n",
];

// A module that declares the page from which it is launched: the next fetch is denied.
const OWN_CODE_CODE: [u32; 7] = [
    0x00001f97, // auipc x31,0x1
    0x000f8f93, // addi x31,x31,0
    0x105f9073, // csrrw x0,stvec,x31
    0x00008417, // auipc x8,0x8
    0xff440413, // addi x8,x8,-12
    0x0004028b, // b.launch x5,x8
    0x00000293, // addi x5,x0,0
];

const OWN_CODE_TABLES: [(usize, u64); 13] = [
    (4096, 0x3f2906300100f93),
    (4104, 0x100f9314202373),
    (4112, 0x1430237301f31a63),
    (4120, 0x731463141023f3),
    (4128, 0x21005130100006f),
    (4136, 0x7300100893),
    (4144, 0x7300800893),
    (32768, 0x201010147534e42),
    (32784, 0x80010000),
    (32848, 0x80000),
    (32856, 0x101),
    (32864, 0x80010),
    (32872, 0x501),
];

const OWN_CODE_LINES: [&str; 4] = [
    "launch 5 0 1 5a5d08308e73d95c774d3c90ba831f750d9757f36fc8d7ef075dca96aefd726e\n",
    "deny 6 0 0 fetch 0000000080000\n",
    "trap 6 0 0000000000000001 0000000080000018\n",
    "end 18 shutdown 0d31715005fe25bbf4ebc671922db8f7b85b410f245101445888ebfc1aab9930\n",
];

// A module that declares the last table on the way to the code that launches it: nothing is fetched
// any more, and nothing denied.
const OWN_LEAVES_CODE: [u32; 11] = [
    0x00001f97, // auipc x31,0x1
    0x000f8f93, // addi x31,x31,0
    0x105f9073, // csrrw x0,stvec,x31
    0x00000f97, // auipc x31,0x0
    0x3f4f8f93, // addi x31,x31,1012
    0x000fbf83, // ld x31,0(x31)
    0x180f9073, // csrrw x0,satp,x31
    0x00008417, // auipc x8,0x8
    0xfe440413, // addi x8,x8,-28
    0x0004028b, // b.launch x5,x8
    0x00000293, // addi x5,x0,0
];

const OWN_LEAVES_TABLES: [(usize, u64); 15] = [
    (1024, 0x8000000000080001),
    (4112, 0x20000801),
    (8192, 0x20000c01),
    (12288, 0x200000cf),
    (12296, 0x200004cf),
    (12304, 0x200008cf),
    (12312, 0x20000ccf),
    (12352, 0x200020cf),
    (12416, 0x200040cf),
    (32768, 0x201010147534e42),
    (32784, 0x80010000),
    (32848, 0x80003),
    (32856, 0x301),
    (32864, 0x80010),
    (32872, 0x501),
];

const OWN_LEAVES_LINES: [&str; 5] = [
    "launch 9 0 1 56bd6e029e9355e7de0f51058115655ddae460e14e25fee36eb530aa777e281a\n",
    "trap 10 0 0000000000000001 0000000080000028\n",
    "trap 11 0 0000000000000001 0000000080001000\n",
    "trap 12 0 0000000000000001 0000000080001000\n",
    "end 13 limit 18b5435ae9449924fd2467a66714049ca5caf9e9f6f163596dad4ad5e78cbee6\n",
];

// A root that a module owns isn't read: every access traps, and none is denied.
const OWN_ROOT_CODE: [u32; 10] = [
    0x00001f97, // auipc x31,0x1
    0x000f8f93, // addi x31,x31,0
    0x105f9073, // csrrw x0,stvec,x31
    0x00008417, // auipc x8,0x8
    0xff440413, // addi x8,x8,-12
    0x0004028b, // b.launch x5,x8
    0x00000317, // auipc x6,0x0
    0x3e830313, // addi x6,x6,1000
    0x00033303, // ld x6,0(x6)
    0x18031073, // csrrw x0,satp,x6
];

const OWN_ROOT_TABLES: [(usize, u64); 9] = [
    (1024, 0x8000000000080011),
    (32768, 0x201010147534e42),
    (32784, 0x80010000),
    (32848, 0x80010),
    (32856, 0x501),
    (32864, 0x80011),
    (32872, 0x301),
    (65536, 0x200b00700513),
    (69632, 0x1122334455667788),
];

const OWN_ROOT_LINES: [&str; 5] = [
    "launch 5 0 1 a22aca9e914d1a17e9d49ca6d48af078e4a08f78d0973c262217865daba4cddc\n",
    "trap 10 0 0000000000000001 0000000080000028\n",
    "trap 11 0 0000000000000001 0000000080001000\n",
    "trap 12 0 0000000000000001 0000000080001000\n",
    "end 13 limit 133ec46e0a6fd82f99ce0cc2c662ce7742f89124ebdc19e6a26194beb3f7afd0\n",
];

const GUESTS: [Guest<'static>; 5] = [
    Guest {
        code: &OTHERS_PAGES_CODE,
        tables: &OTHERS_PAGES_TABLES,
        steps: 60_000,
        lines: &OTHERS_PAGES_LINES,
    },
    Guest {
        code: &OTHERS_PAGES_TRANSLATED_CODE,
        tables: &OTHERS_PAGES_TRANSLATED_TABLES,
        steps: 60_000,
        lines: &OTHERS_PAGES_TRANSLATED_LINES,
    },
    Guest {
        code: &OWN_CODE_CODE,
        tables: &OWN_CODE_TABLES,
        steps: 60_000,
        lines: &OWN_CODE_LINES,
    },
    Guest {
        code: &OWN_LEAVES_CODE,
        tables: &OWN_LEAVES_TABLES,
        steps: 13,
        lines: &OWN_LEAVES_LINES,
    },
    Guest {
        code: &OWN_ROOT_CODE,
        tables: &OWN_ROOT_TABLES,
        steps: 13,
        lines: &OWN_ROOT_LINES,
    },
];

#[test]
fn pages_of_modules_are_their_own(rt: HostRuntime) {
    expect_guests(&rt, rt.alloc(), &GUESTS);
}
